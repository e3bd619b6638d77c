//! How a step is done.

/// Does a step, and writes it into the journal: running out of memory on the way leaves the network failed. With a clock's name its part
/// has the clock from before it, and answers how many items that made.
macro_rules! do_step {
    ($net:ident, $step:expr => $part:block) => {
        mn_transport_laws::a_transport_goes_on_as_it_was();
        mn_routing_laws::routes_stay_as_they_were();
        $net.topology.laws();
        $net.failed = true;
        $crate::room::reserve_entry(&mut $net.journal)?;
        $part
        $net.journal.push_reserved(mn_topo::JournalEntry {
            tick: $net.tick,
            step: $step,
            damaged: mn_topo::Damaged::Undamaged,
        });
        $net.failed = false;
    };
    ($net:ident, $clock:ident, $step:expr => $part:block) => {
        $crate::doing::do_step!($net, $step => {
            let $clock = mn_flight::Clock {
                tick: $net.tick,
                number: $net.made,
            };
            let made = $part;
            $net.made += made;
        });
    };
}

pub(crate) use do_step;
