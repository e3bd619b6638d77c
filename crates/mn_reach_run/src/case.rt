//! Where in the file of failures, and which failure of it.
use crate::settings::Settings;
use mn_failures::Part;
use mn_topo::Topology;

/// A line of the file, and how failures are reported there.
#[derive(Clone, Copy)]
pub struct At<'t> {
    pub topology: &'t Topology,
    pub settings: Settings,
    pub line: u32,
}

/// A failure by its number through the file, from 1, and the line that stands for it.
#[derive(Clone, Copy)]
pub struct Case<'t> {
    pub at: At<'t>,
    pub number: u64,
}

/// The parts of a failure.
#[derive(Clone, Copy)]
pub struct Failing<'p> {
    pub parts: &'p [Part],
    /// Those of the parts that have failed already, and will stay so.
    pub front: &'p [Part],
    /// The others, behind these.
    pub more: &'p [Part],
}
