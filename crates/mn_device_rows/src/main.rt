//! `mn_device_rows`: rows of runs over devices in memory of which a call fails, and over captures that are cut.
//!
//! - `topology`, `script`: the inputs, in the text; `again N LINE`: so many lines more of the script
//! - `capture HEX N`: the capture: these bytes, and N zeros behind them
//! - `files NAME ..`: the files of the run's folder that are told, in this order
//! - `run`: the run where nothing fails; what its files hold is what the others' are compared with
//! - `fetch K`, `begin K`, `append K`, `put K`: the run where the call of this number, from 1, of this kind fails
//! - `cut N`: the run over the first N bytes of the capture
//!
//! A run is reported by its outcome and status, how many bytes were put, and for each file `whole`, the length of the first part that is
//! there, `none` where it wasn't begun, or `other`. Of `run` each file's length is told, and of `cut` what was put.
#![tactic(auto)]

mod devices; // runs over such a shelf, and what they leave
mod failing; // a shelf in memory of which one call of a kind fails

use crate::devices::Devices;
use mn_rows::run;
use std::io;
use std::process::ExitCode;

fn main(rt: HostRuntime) -> io::Result<ExitCode> {
    run::<Devices>(&rt)
}
