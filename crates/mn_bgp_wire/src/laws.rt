// What is read, against what the RFCs say a message is.
ghost use Rattle.std.specs.Prelude.{◌≡◌, ◌≤◌, ◌<◌, ℕ, Bool, List, Ok, Err, length, take};
ghost use Rattle.mn_vpn_nlri.specs.Reading.{IsBytes};
ghost use Rattle.mn_bgp_wire.specs.declared.message.BgpMessage.{BgpMessage as Message};
ghost use Rattle.mn_bgp_wire.specs.declared.refusal.BgpWireBad.{BgpWireBad as Bad};
ghost use Rattle.mn_bgp_wire.specs.Grammar.{IsBgp, IsOpen, PathAttribute, AreAttributes, HasAllWanted, open_kind, update_kind};
ghost use Rattle.mn_bgp_wire.specs.Says.{Says};
ghost use Rattle.mn_bgp_wire.specs.Reading.{header_of, body_of, message_of};

/// Each message is read as what it says, and what is read is that message. So no bytes are two messages.
pub fn message_is_read()
    ensures only { (bytes : List ℕ) (message : Message) →
        IsBgp bytes message → message_of bytes ≡ Ok message }
    ensures found { (bytes : List ℕ) (message : Message) →
        IsBytes bytes → message_of bytes ≡ Ok message → IsBgp bytes message }
    ensures one { (bytes : List ℕ) (message other : Message) →
        IsBgp bytes message → IsBgp bytes other → message ≡ other }
{}

/// A message that is cut short is refused: within its header as `Short`, and behind it as `BadLength`.
pub fn no_front_is_read()
    ensures header { (bytes : List ℕ) (message : Message) (size : ℕ) →
        IsBgp bytes message → size < 19 → message_of (take size bytes) ≡ Err Bad.Short }
    ensures body { (bytes : List ℕ) (message : Message) (size : ℕ) →
        IsBgp bytes message → 19 ≤ size → size < length bytes → message_of (take size bytes) ≡ Err Bad.BadLength }
{}

/// Behind a good header, what is no OPEN is refused as `BadOpen`; what has no whole and lawful attributes as
/// `BadAttribute`; and what has such attributes, and misses one, as `MissingAttribute`.
pub fn refused_for_its_body()
    ensures open { (bytes : List ℕ) → IsBytes bytes → header_of bytes ≡ Ok open_kind →
        ((version asn hold id : ℕ) (vpn : Bool) →
        IsOpen (body_of bytes) version asn hold id vpn → ⊥) →
        message_of bytes ≡ Err Bad.BadOpen }
    ensures attribute { (bytes : List ℕ) → IsBytes bytes → header_of bytes ≡ Ok update_kind →
        ((attributes : List PathAttribute) (says : Says) →
        AreAttributes (body_of bytes) attributes says → ⊥) →
        message_of bytes ≡ Err Bad.BadAttribute }
    ensures missing { (bytes : List ℕ) (attributes : List PathAttribute) (says : Says) →
        IsBytes bytes → header_of bytes ≡ Ok update_kind →
        AreAttributes (body_of bytes) attributes says → ¬ HasAllWanted attributes →
        message_of bytes ≡ Err Bad.MissingAttribute }
{}
