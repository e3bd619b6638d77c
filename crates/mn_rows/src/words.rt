//! The words of a row.
ghost use Rattle.std.specs.Prelude.{◌≤◌, IfSome};

use crate::hex::bytes_of;
use mn_base::{LinkNo, NodeNo, Rd, Rt, SiteNo, VrfNo};
use mn_prefix::Prefix;
use mn_text::{address_of, first_word, number_up_to, prefix, rd, rt, word};
use std::alloc::{AllocError, Global};

/// A call, by its words from 0, and the text that stands before it.
#[derive(Clone, Copy)]
pub struct Call<'a> {
    row: &'a str,
    text: &'a str,
}

impl<'a> Call<'a> {
    pub fn new(row: &'a str, text: &'a str) -> Call<'a> {
        Call { row, text }
    }

    /// The lines before the row that began with `| `.
    pub fn text(self) -> &'a str {
        self.text
    }

    pub fn word(self, k: usize) -> Option<&'a [u8]> {
        word(self.row.as_bytes(), k)
    }

    /// The first word, which names a part; empty where there is none.
    pub fn part(self) -> &'a [u8] {
        self.word(0).unwrap_or(&[])
    }

    /// The second word, which says what is asked; empty where there is none.
    pub fn verb(self) -> &'a [u8] {
        self.word(1).unwrap_or(&[])
    }

    /// What stands behind the first `k` words and one blank; empty where there are at most `k`.
    pub fn rest(self, k: usize) -> &'a [u8] {
        let mut rest = self.row.as_bytes();
        for _ in 0..k {
            match first_word(rest) {
                Some((_, next)) => rest = next,
                None => return &[],
            }
        }
        rest
    }

    /// Whether the word at `k` is this one.
    pub fn has(self, k: usize, wanted: &[u8]) -> bool {
        match self.word(k) {
            Some(found) => found == wanted,
            None => false,
        }
    }

    /// A decimal number of at most `most`.
    pub fn number(self, k: usize, most: u64) -> Option<u64>
        ensures { IfSome result (λ n. n ≤ most) }
    {
        number_up_to(self.word(k)?, most)
    }

    pub fn number_u8(self, k: usize) -> Option<u8> {
        Some(self.number(k, 255)? as u8)
    }

    pub fn number_u16(self, k: usize) -> Option<u16> {
        Some(self.number(k, 65_535)? as u16)
    }

    pub fn number_u32(self, k: usize) -> Option<u32> {
        Some(self.number(k, 4_294_967_295)? as u32)
    }

    pub fn node(self, k: usize) -> Option<NodeNo> {
        Some(NodeNo(self.number_u16(k)?))
    }

    pub fn link(self, k: usize) -> Option<LinkNo> {
        Some(LinkNo(self.number_u16(k)?))
    }

    pub fn site(self, k: usize) -> Option<SiteNo> {
        Some(SiteNo(self.number_u16(k)?))
    }

    pub fn vrf(self, k: usize) -> Option<VrfNo> {
        Some(VrfNo(self.number_u16(k)?))
    }

    /// An address, as `10.2.0.1`.
    pub fn address(self, k: usize) -> Option<u32> {
        address_of(self.word(k)?)
    }

    /// A prefix, as `10.2.0.0/16`.
    pub fn prefix(self, k: usize) -> Option<Prefix> {
        prefix(self.word(k)?).ok()
    }

    /// A route distinguisher, as `65000:1`.
    pub fn rd(self, k: usize) -> Option<Rd> {
        rd(self.word(k)?).ok()
    }

    /// A route target, as `65000:100`.
    pub fn rt(self, k: usize) -> Option<Rt> {
        rt(self.word(k)?).ok()
    }

    /// The bytes that a word writes in hexadecimal, `-` for none.
    pub fn bytes(self, alloc: Global, k: usize) -> Result<Option<Vec<u8>>, AllocError> {
        match self.word(k) {
            Some(digits) => bytes_of(alloc, digits),
            None => Ok(None),
        }
    }
}
