//! Results as text.
use mn_base::{Rd, Rt};
use mn_prefix::Prefix;
use std::alloc::{AllocError, Global};
use std::fmt;
use std::fmt::{Debug, Display};

/// What a call answers, as text; none where there is no such call.
pub type Answer = Result<Option<String>, AllocError>;

/// As `{:?}` prints it.
pub fn shown<T: Debug>(alloc: Global, value: &T) -> Answer {
    Ok(Some(format!(in alloc; "{value:?}")?))
}

/// As `{}` prints it.
pub fn displayed<T: Display>(alloc: Global, value: &T) -> Answer {
    Ok(Some(format!(in alloc; "{value}")?))
}

/// Of a call that answers nothing.
pub fn done(alloc: Global) -> Answer {
    shown(alloc, &())
}

/// An address, printed as `10.2.0.1`.
#[derive(Clone, Copy)]
pub struct Dotted(pub u32);

impl Display for Dotted {
    fn fmt<W: fmt::Write>(&self, f: &mut fmt::Formatter<W>) -> fmt::Result {
        let [a, b, c, d] = self.0.to_be_bytes();
        write!(f, "{a}.{b}.{c}.{d}")
    }
}

/// A prefix, printed as `10.2.0.0/16`.
#[derive(Clone, Copy)]
pub struct Slashed(pub Prefix);

impl Display for Slashed {
    fn fmt<W: fmt::Write>(&self, f: &mut fmt::Formatter<W>) -> fmt::Result {
        write!(f, "{}/{}", Dotted(self.0.address()), self.0.length())
    }
}

/// The eight bytes of a route distinguisher or target, printed as `65000:1` or `192.0.2.1:5`.
#[derive(Clone, Copy)]
pub struct Paired(pub u64);

impl Display for Paired {
    fn fmt<W: fmt::Write>(&self, f: &mut fmt::Formatter<W>) -> fmt::Result {
        // The first two bytes are the type. Before an address it is 0001 in a distinguisher (RFC 4364, section 4.2) and 0102 in
        // a target (RFC 4360, sections 3.2 and 4), before an AS of two bytes 0000 and 0002.
        let kind = self.0 >> 48;
        if kind == Rd::BY_ADDRESS || kind == Rt::BY_ADDRESS {
            let address = (self.0 >> 16 & 0xFFFF_FFFF) as u32;
            write!(f, "{}:{}", Dotted(address), self.0 & 0xFFFF)
        } else {
            write!(f, "{}:{}", self.0 >> 32 & 0xFFFF, self.0 & 0xFFFF_FFFF)
        }
    }
}
