ghost use Rattle.std.specs.Prelude.{◌≡◌, ◌++◌, ◌==◌, true, OnOk, OnErr, IfOk, string_bytes};
ghost use Rattle.mn_base.specs.Numbers.{has_rd_form, has_rt_form};
ghost use Rattle.mn_text.specs.Numbers.{number_text};
ghost use Rattle.mn_text.specs.Addresses.{address_text, prefix_text};
ghost use Rattle.mn_text.specs.Pairs.{pair_text, rd_text, rt_text};

use mn_base::{Rd, Rt};
use mn_prefix::Prefix;
use std::alloc::{AllocError, Global};

/// Appends a number. An `Err` appends nothing.
pub fn put_number(out: &mut Vec<u8>, n: u64) -> Result<(), AllocError>
    ensures ok { OnOk result (out.new.items ≡ out.old.items ++ number_text n) }
    ensures err { OnErr result (out.new.items ≡ out.old.items) }
{
    let text = n.to_string(*out.allocator())?;
    out.extend_from_slice(text.as_bytes())
}

#[tactic(auto, unfolding(crate::specs::Addresses::address_text))]
fn address_string(alloc: Global, address: u32) -> Result<String, AllocError>
    ensures { IfOk result (λ text. string_bytes text ≡ address_text address) }
{
    let first = address / 256 / 256 / 256;
    let second = address / 256 / 256 % 256;
    let third = address / 256 % 256;
    let fourth = address % 256;
    format!(in alloc; "{first}.{second}.{third}.{fourth}")
}

/// Appends an address. An `Err` appends nothing.
pub fn put_address(out: &mut Vec<u8>, address: u32) -> Result<(), AllocError>
    ensures ok { OnOk result (out.new.items ≡ out.old.items ++ address_text address) }
    ensures err { OnErr result (out.new.items ≡ out.old.items) }
{
    let text = address_string(*out.allocator(), address)?;
    out.extend_from_slice(text.as_bytes())
}

/// Appends a prefix. An `Err` appends nothing.
#[tactic(auto, unfolding(crate::specs::Addresses::prefix_text))]
pub fn put_prefix(out: &mut Vec<u8>, prefix: Prefix) -> Result<(), AllocError>
    ensures ok { OnOk result (out.new.items ≡ out.old.items ++ prefix_text prefix) }
    ensures err { OnErr result (out.new.items ≡ out.old.items) }
{
    let address = address_string(*out.allocator(), prefix.address())?;
    let length = prefix.length();
    let text = format!(in *out.allocator(); "{address}/{length}")?;
    out.extend_from_slice(text.as_bytes())
}

/// The text of eight bytes, where `by_address` is the type of those that an address administers.
#[tactic(auto, unfolding(crate::specs::Pairs::pair_text))]
fn pair_string(alloc: Global, eight_bytes: u64, by_address: u64) -> Result<String, AllocError>
    ensures { IfOk result (λ text. string_bytes text ≡ pair_text by_address eight_bytes) }
{
    if eight_bytes >> 48 == by_address {
        let address = address_string(alloc, ((eight_bytes >> 16) % (1 << 32)) as u32)?;
        let number = eight_bytes % (1 << 16);
        format!(in alloc; "{address}:{number}")
    } else {
        let as_number = (eight_bytes >> 32) % (1 << 16);
        let number = eight_bytes % (1 << 32);
        format!(in alloc; "{as_number}:{number}")
    }
}

/// Appends a route distinguisher. An `Err` appends nothing.
pub fn put_rd(out: &mut Vec<u8>, rd: Rd) -> Result<(), AllocError>
    requires { has_rd_form rd.0 ≡ true }
    ensures ok { OnOk result (out.new.items ≡ out.old.items ++ rd_text rd) }
    ensures err { OnErr result (out.new.items ≡ out.old.items) }
{
    let text = pair_string(*out.allocator(), rd.0, Rd::BY_ADDRESS)?;
    out.extend_from_slice(text.as_bytes())
}

/// Appends a route target. An `Err` appends nothing.
pub fn put_rt(out: &mut Vec<u8>, target: Rt) -> Result<(), AllocError>
    requires { has_rt_form target.0 ≡ true }
    ensures ok { OnOk result (out.new.items ≡ out.old.items ++ rt_text target) }
    ensures err { OnErr result (out.new.items ≡ out.old.items) }
{
    let text = pair_string(*out.allocator(), target.0, Rt::BY_ADDRESS)?;
    out.extend_from_slice(text.as_bytes())
}
