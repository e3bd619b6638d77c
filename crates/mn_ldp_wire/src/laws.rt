// What is read, against what the grammar says a PDU is.
ghost use Rattle.std.specs.Prelude.{◌≡◌, ◌↔◌, ◌<◌, ◌++◌, [], ℕ, List, Ok, Err, length, take};
ghost use Rattle.mn_ldp_wire.specs.declared.message.LdpId.{LdpId};
ghost use Rattle.mn_ldp_wire.specs.declared.message.LdpMessage.{LdpMessage};
ghost use Rattle.mn_ldp_wire.specs.declared.refusal.WireBad.{WireBad};
ghost use Rattle.mn_ldp_wire.specs.Message.{PduContents};
ghost use Rattle.mn_ldp_wire.specs.Grammar.{IsBytes, IsPdu};
ghost use Rattle.mn_ldp_wire.specs.Reading.{pdu_of, cut_bad};
ghost use Rattle.mn_ldp_wire.specs.Refused.{IsRefused};

/// Law: bytes are read as a sender and messages exactly where they are a PDU of these.
pub fn reading_is_the_grammar()
    ensures { (bytes : List ℕ) (from : LdpId) (messages : List LdpMessage) → IsBytes bytes →
        (pdu_of bytes ≡ Ok (record { from = from; messages = messages })) ↔ IsPdu bytes from messages }
{}

/// Law: bytes are refused exactly for the first cause that stands, and what is before it is right.
pub fn each_refusal_has_its_cause()
    ensures { (bytes : List ℕ) (bad : WireBad) → IsBytes bytes → (pdu_of bytes ≡ Err bad) ↔ IsRefused bytes bad }
{}

/// Law: of a PDU that lacks bytes at its end nothing is read, and no PDU begins another.
pub fn no_front_is_read()
    ensures refused { (bytes : List ℕ) (pdu : PduContents) (k : ℕ) → pdu_of bytes ≡ Ok pdu → k < length bytes → pdu_of (take k bytes) ≡ Err (cut_bad k) }
    ensures alone { (bytes more : List ℕ) (pdu other : PduContents) → pdu_of bytes ≡ Ok pdu → pdu_of (bytes ++ more) ≡ Ok other → more ≡ [] }
{}
