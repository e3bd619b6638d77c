//! The texts of prefixes and targets, on the stack.
ghost use Rattle.std.specs.Prelude.{◌≡◌, ◌+◌, ◌≤◌, ◌<◌, ◌^◌, ◌++◌, ◌∷◌, [], decimal, length, true};
ghost use Rattle.mn_journal.specs.Prelude.{has_rt_form, address_text, prefix_text, pair_text, rt_text};

use itoa::{Buffer, Integer};
use mn_base::Rt;
use mn_prefix::Prefix;
use std::marker::Model;

/// The length of the longest text: an address, a colon and a number of two bytes, is 21.
const ROOM: usize = 24;

/// A short text. Contracts see it as a list.
#[derive(Drop)]
pub(crate) struct Text {
    bytes: [u8; ROOM],
    held: usize,
}

impl Model for Text {
    ghost use Rattle.std.specs.Prelude.{◌≤◌, ℕ, List, take};

    ghost Value = { List ℕ };

    ghost view = { λ t. take t.held t.bytes };

    ghost invariant = { λ t. t.held ≤ 24 };
}

impl Text {
    pub(crate) fn new() -> Text
        ensures { result ≡ [] }
    {
        Text {
            bytes: [0; ROOM],
            held: 0,
        }
    }

    pub(crate) fn as_slice(&self) -> &[u8]
        ensures { result.now ≡ self.now }
    {
        &self.bytes[..self.held]
    }

    fn put(&mut self, part: &[u8])
        requires { length self.old + length part.now ≤ 24 }
        ensures { self.new ≡ self.old ++ part.now }
    {
        let end = self.held + part.len();
        self.bytes[self.held..end].copy_from_slice(part);
        self.held = end;
    }

    /// A number.
    fn put_number<N: Integer>(&mut self, number: N)
        requires { length self.old + N.MAX_STR_LEN ≤ 24 }
        ensures number { self.new ≡ self.old ++ N.text number }
        ensures most { length self.new ≤ length self.old + N.MAX_STR_LEN }
    {
        let mut digits = Buffer::new();
        self.put(digits.format(number).as_bytes());
    }

    #[tactic(auto, unfolding(mn_text::specs::Addresses::address_text))]
    fn put_address(&mut self, address: u32)
        requires { length self.old ≡ 0 }
        ensures address { self.new ≡ self.old ++ address_text address }
        ensures most { length self.new ≤ 15 }
    {
        self.put_number((address / 256 / 256 / 256) as u8);
        self.put(b".");
        self.put_number((address / 256 / 256 % 256) as u8);
        self.put(b".");
        self.put_number((address / 256 % 256) as u8);
        self.put(b".");
        self.put_number((address % 256) as u8);
    }
}

/// The text of a prefix.
#[tactic(auto, unfolding(mn_text::specs::Addresses::prefix_text))]
pub(crate) fn prefix_text(prefix: Prefix) -> Text
    ensures { result ≡ prefix_text prefix }
{
    let mut text = Text::new();
    text.put_address(prefix.address());
    text.put(b"/");
    text.put_number(prefix.length());
    text
}

/// The text of a target.
#[tactic(auto, unfolding(mn_text::specs::Pairs::pair_text))]
pub(crate) fn target_text(target: Rt) -> Text
    ensures { result ≡ rt_text target }
{
    let eight_bytes = target.0;
    let mut text = Text::new();
    if eight_bytes >> 48 == Rt::BY_ADDRESS {
        text.put_address(((eight_bytes >> 16) % (1 << 32)) as u32);
        text.put(b":");
        text.put_number((eight_bytes % (1 << 16)) as u16);
    } else {
        text.put_number(((eight_bytes >> 32) % (1 << 16)) as u16);
        text.put(b":");
        text.put_number((eight_bytes % (1 << 32)) as u32);
    }
    text
}
