// What is read, against what the format says a capture is.
ghost use Rattle.std.specs.Prelude.{◌≡◌, ◌≤◌, ◌++◌, ℕ, List, All, Ok, Err, length, map};
ghost use Rattle.std.specs.List.{flat_map};
ghost use Rattle.mn_pcap.specs.declared.message.Form.{Form};
ghost use Rattle.mn_pcap.specs.declared.refusal.PcapBad.{PcapBad};
ghost use Rattle.mn_pcap.specs.Format.{header, record_of, snaplen};
ghost use Rattle.mn_pcap.specs.Grammar.{IsBytes, IsCapture};
ghost use Rattle.mn_pcap.specs.Reading.{header_of, records_of, captured_of, packets_of, count_of, IsRefusedBehind};

/// Each capture is read, as its form and the bytes of its records.
pub fn capture_is_read()
    ensures form { (bytes : List ℕ) (form : Form) (captured : List (List ℕ)) →
        IsBytes bytes → IsCapture form bytes captured → header_of bytes ≡ Ok form }
    ensures records { (bytes : List ℕ) (form : Form) (captured : List (List ℕ)) →
        IsBytes bytes → IsCapture form bytes captured → captured_of bytes ≡ Ok captured }
{}

/// What is read is a capture, and all its records are counted.
#[tactic(auto, using(crate::proofs::Captures::read_is_capture, crate::proofs::Captures::read_is_counted))]
pub fn read_is_capture()
    ensures capture { (bytes : List ℕ) (form : Form) (captured : List (List ℕ)) →
        header_of bytes ≡ Ok form → captured_of bytes ≡ Ok captured → IsCapture form bytes captured }
    ensures count { (bytes : List ℕ) (form : Form) (captured : List (List ℕ)) →
        header_of bytes ≡ Ok form → captured_of bytes ≡ Ok captured → count_of bytes ≡ length captured }
{}

/// What is refused behind its header begins with a capture, whose records are those that are
/// counted, and is refused for what stands behind it.
#[tactic(auto, using(crate::proofs::Captures::refused_behind))]
pub fn refused_behind_capture()
    ensures { (bytes : List ℕ) (form : Form) (bad : PcapBad) →
        header_of bytes ≡ Ok form → records_of bytes ≡ Err bad → IsRefusedBehind form bytes bad }
{}

/// A capture of link type 228 that was written is read again, as one record a packet.
#[tactic(auto, using(crate::proofs::Captures::written_is_captured, crate::proofs::Captures::written_is_read))]
pub fn written_again()
    ensures records { (packets : List (ℕ × List ℕ)) → All (λ p. length p.1 ≤ snaplen) packets →
        captured_of (header 228 ++ flat_map (λ p. record_of p.0 p.1) packets) ≡ Ok (map (λ p. p.1) packets) }
    ensures packets { (packets : List (ℕ × List ℕ)) → All (λ p. length p.1 ≤ snaplen) packets →
        packets_of (header 228 ++ flat_map (λ p. record_of p.0 p.1) packets) ≡ Ok (map (λ p. p.1) packets) }
{}
