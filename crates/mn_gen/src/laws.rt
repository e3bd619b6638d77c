// What a reader makes of the inputs.
ghost use Rattle.std.specs.Prelude.{◌≡◌, ◌≤◌, ℕ, true, All, Ok, map};
ghost use Rattle.mn_ipv4.specs.Header.{good};
ghost use Rattle.mn_pcap.specs.Reading.{packets_of};
ghost use Rattle.mn_gen.specs.Capture.{capture_bytes, packet_to};
ghost use Rattle.mn_gen.specs.Shape.{edges};

/// The capture of each number is read, as the packets to its edges.
#[tactic(auto, using(crate::proofs::Sent::capture_is_read))]
pub fn capture_is_read()
    ensures { (number : ℕ) → packets_of (capture_bytes number) ≡ Ok (map packet_to (edges number)) }
{}

/// Each of these packets is a good one (RFC 791, section 3.1), so none is dropped as it enters for its header.
#[tactic(auto, using(crate::proofs::Good::packets_are_good))]
pub fn packets_are_good()
    ensures { (number : ℕ) → number ≤ 99 → All (λ packet. good packet ≡ true) (map packet_to (edges number)) }
{}
