//! Which failures count, and what is kept of the last one.
ghost use Rattle.std.specs.Prelude.{◌≡◌, ◌↔◌, Err, Some};
ghost use Rattle.std.specs.IoError.{error_kind};
ghost use Rattle.mn_edge.specs.Faults.{Counted};
ghost use Rattle.mn_edge.specs.declared.device.DeviceBad.TheVariants.{NoMemory};
ghost use Rattle.mn_edge_real.specs.Failures.{Blames};

use mn_edge::DeviceBad;
use std::alloc::Global;
use std::fmt;
use std::io::{Error, ErrorKind};

/// The answer to a failure, which counts unless memory ran out.
pub(crate) fn counted(faults: &mut u64, error: &Error) -> DeviceBad
    ensures counted { Counted {T = Unit {0}} (Some faults.old) (Some faults.new) (Err result) }
    ensures memory { (result ≡ NoMemory) ↔ (error_kind error.now ≡ ErrorKind.OutOfMemory) }
{
    if error.kind() == ErrorKind::OutOfMemory {
        return DeviceBad::NoMemory;
    }
    *faults = faults.saturating_add(1);
    DeviceBad::Failed
}

/// What couldn't be done to a file.
#[derive(Clone, Copy, Debug, PartialEq, Eq)]
pub enum Call {
    Read,
    Begin,
    Append,
}

/// The call that failed last, the file that it was on, and why. `{}` writes `NAME: can't be read: REASON`.
#[derive(Drop)]
pub struct Failure {
    call: Call,
    /// Empty where there was no memory for it.
    name: String,
    error: Error,
}

impl Failure {
    pub(crate) fn new(alloc: Global, call: Call, name: &str, error: Error) -> Failure
        ensures what { Blames call name.now result }
        ensures why { result.error ≡ error }
    {
        let name = match String::from_str(alloc, name) {
            Ok(name) => name,
            Err(_) => String::new(alloc),
        };
        Failure { call, name, error }
    }
}

impl fmt::Display for Failure {
    fn fmt<W: fmt::Write>(&self, f: &mut fmt::Formatter<W>) -> fmt::Result {
        let name = self.name.as_str();
        let done = match self.call {
            Call::Read => "read",
            Call::Begin => "made",
            Call::Append => "written",
        };
        let error = &self.error;
        write!(f, "{name}: can't be {done}: {error}")
    }
}
