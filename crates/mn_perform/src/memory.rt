//! A capture in memory, and a watch that hands out its packets and keeps nothing.
ghost use Rattle.std.specs.Prelude.{◌≡◌, ◌≢◌, ◌≤◌, length, None, Some, Ok, Err, IfOk, IfErr, ⊤};
ghost use Rattle.mn_perform.specs.Prelude.{end_of, Found};
ghost use Rattle.mn_pcap.specs.Reading.{packets_of};
ghost use Rattle.mn_pcap.specs.declared.refusal.PcapBad.TheVariants.{NoMemory};
ghost use Rattle.mn_perform.specs.Memory.{packets_at};
ghost use Rattle.mn_perform.specs.MemoryLaws.{has_each};

use crate::recorder::is_record;
use mn_pcap::{LinkKind, PcapBad, Place, packet_of, read_header, records};
use mn_sched::{Done, Net, Watch, WatchBad};
use std::alloc::Global;
use std::marker::Model;

/// A capture: its bytes, and where its records lie in them.
#[derive(Drop)]
pub struct MemoryCapture {
    bytes: Vec<u8>,
    link: LinkKind,
    places: Vec<Place>,
}

impl Model for MemoryCapture {
    ghost use Rattle.std.specs.Prelude.{All, ◌≤◌, length};
    ghost use Rattle.mn_pcap.specs.Reading.{end_of};
    ghost use Rattle.mn_perform.specs.Memory.{MemoryView};

    ghost Value = { MemoryView };

    ghost view = { λ c. record { bytes = c.bytes.items; link = c.link; places = c.places.items } };

    ghost invariant = { λ c. All (λ place. end_of place ≤ length c.bytes.items) c.places.items };
}

impl MemoryCapture {
    /// Reads the bytes of a capture, or refuses them by the first rule that is broken, at its byte.
    pub fn read(alloc: Global, bytes: Vec<u8>) -> Result<MemoryCapture, PcapBad>
        ensures packets { IfOk result (λ capture. packets_of bytes.items ≡ Ok (packets_at capture)) }
        ensures refused { IfErr result (λ bad. bad ≢ NoMemory → packets_of bytes.items ≡ Err bad) }
    {
        let form = read_header(&bytes)?;
        let places = records(alloc, &bytes)?;
        Ok(MemoryCapture {
            bytes,
            link: form.link,
            places,
        })
    }

    /// The packet of a record, numbered from 1.
    fn packet(&self, nth: u32) -> Option<&[u8]>
        ensures { Found (Some (packets_at self.now)) (length self.now.places) nth result }
    {
        if !is_record(self.places.len(), nth) {
            return None;
        }
        let place = self.places[nth as usize - 1];
        let at = place.at as usize;
        Some(packet_of(self.link, &self.bytes[at..at + place.length as usize]))
    }
}

/// Hands out the packets of a capture in memory.
#[derive(Drop)]
pub(crate) struct InMemory<'a> {
    pub capture: &'a MemoryCapture,
}

impl Watch for InMemory<'_> {
    ghost records = { λ w. length w.capture.now.places };

    ghost packets = { λ w. Some (packets_at w.capture.now) };

    ghost reads = { λ w. None };

    ghost writes = { λ w. None };

    ghost stands = { λ w topology journal inputs. ⊤ };

    ghost begins = { λ w topology journal inputs. ⊤ };

    ghost goes_on = { λ old new. ⊤ };

    fn packet(&mut self, nth: u32) -> Result<Option<&[u8]>, WatchBad> {
        Ok(self.capture.packet(nth))
    }

    fn done(&mut self, net: &Net, made: Done) -> Result<(), WatchBad> {
        Ok(())
    }

    ghost each_has_one = { λ w all is. has_each w.capture.now all is };

    ghost stays = { λ w. tt };

    ghost onward = { λ a b c ab bc. tt };

    ghost begun = { λ w topology journal inputs stands. tt };
}
