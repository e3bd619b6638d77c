// What is read, against what RFC 4456 says.
ghost use Rattle.std.specs.Prelude.{◌≡◌, ◌≢◌, ◌%◌, ◌⊎◌, List, ℕ, Ok, Err, Some, Option, length};
ghost use Rattle.mn_bgp_reflected.specs.Prelude.{IsBytes, IsBgp, kind_of, update_kind, value_of, Says};
ghost use Rattle.mn_bgp_wire.specs.declared.message.BgpMessage.{BgpMessage as Message};
ghost use Rattle.mn_bgp_reflected.specs.declared.refusal.ReflectedBad.{ReflectedBad as Bad};
ghost use Rattle.mn_bgp_reflected.specs.Says.{SaysReflected};
ghost use Rattle.mn_bgp_reflected.specs.Grammar.{originator_kind, cluster_kind, attributes_of_update, SayOriginator, IsReflected};
ghost use Rattle.mn_bgp_reflected.specs.Reading.{reflected_of};

/// Each reflected UPDATE is read as what it says, and what is read is that UPDATE. So no bytes say two things.
pub fn reflected_is_read()
    ensures only { (bytes : List ℕ) (said : SaysReflected) →
        IsReflected bytes said → reflected_of bytes ≡ Ok said }
    ensures found { (bytes : List ℕ) (said : SaysReflected) →
        IsBytes bytes → reflected_of bytes ≡ Ok said → IsReflected bytes said }
    ensures one { (bytes : List ℕ) (said other : SaysReflected) →
        IsReflected bytes said → IsReflected bytes other → said ≡ other }
{}

/// Another message is refused as `NotUpdate`; an UPDATE whose ORIGINATOR_ID hasn't four bytes as `BadOriginator`; and one whose
/// CLUSTER_LIST is empty or hasn't whole addresses as `BadClusters`, where its originator is good or not given.
pub fn refused_for_an_attribute()
    ensures kind { (bytes : List ℕ) (message : Message) →
        IsBgp bytes message → kind_of message ≢ update_kind → reflected_of bytes ≡ Err Bad.NotUpdate }
    ensures originator { (bytes : List ℕ) (says : Says) (is : IsBgp bytes (Message.Update says)) (value : List ℕ) →
        value_of originator_kind (attributes_of_update bytes says is) ≡ Some value →
        length value ≢ 4 → reflected_of bytes ≡ Err Bad.BadOriginator }
    ensures clusters { (bytes : List ℕ) (says : Says) (is : IsBgp bytes (Message.Update says)) (value : List ℕ) (originator : Option ℕ) →
        SayOriginator (value_of originator_kind (attributes_of_update bytes says is)) originator →
        value_of cluster_kind (attributes_of_update bytes says is) ≡ Some value →
        (length value ≡ 0) ⊎ (length value % 4 ≢ 0) → reflected_of bytes ≡ Err Bad.BadClusters }
{}
