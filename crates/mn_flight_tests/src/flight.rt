//! The table of forty calls, on the plain list.
use crate::calls::makes_the_forty_calls;
use mn_flight::ListFlight;
use std::test::Fail;

#[test]
fn forty_calls_on_the_list(rt: HostRuntime) -> Result<(), Fail> {
    let mut flight = ListFlight::new(rt.alloc(), 3);
    makes_the_forty_calls(&rt, &mut flight);
    Ok(())
}
