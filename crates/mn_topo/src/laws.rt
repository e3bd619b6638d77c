//! What follows from the definitions.
ghost use Rattle.std.specs.Prelude.{◌≡◌, ◌<◌, ◌↔◌, ℕ, List, length, slice_index_or, Some, true};
ghost use Rattle.mn_wiring.specs.declared.links.Dir.{Dir};
ghost use Rattle.mn_wiring.specs.Wiring.{sender, receiver};
ghost use Rattle.mn_prefix.specs.Prefix.{AddressBlock, IsPrefix};
ghost use Rattle.mn_topo.specs.Names.{number_of};
ghost use Rattle.mn_topo.specs.SiteTable.{is_lawful_prefix};
ghost use Rattle.mn_topo.specs.Network.{Network, wiring_of, link_of};
ghost use Rattle.mn_topo.specs.Lawful.{AreNames, IsLawful};

/// Of names of which no two are the same, each is found at its number.
pub fn name_again()
    ensures { (names : List (List ℕ)) (n : ℕ) (d : List ℕ) → AreNames names → n < length names → number_of names (slice_index_or names n d) ≡ Some n }
{}

/// Each link is found by its two ends, in either direction.
pub fn link_again()
    ensures { (network : Network) (l : ℕ) (dir : Dir) → IsLawful network → l < length network.links → link_of network (sender (wiring_of network) l dir) (receiver (wiring_of network) l dir) ≡ Some (record { 0 = l }, dir) }
{}

/// A prefix of a site or of a step is lawful exactly where no bit is set past its length (RFC 4632, section 3.1).
pub fn lawful_prefixes()
    ensures { (prefix : AddressBlock) → (is_lawful_prefix prefix ≡ true) ↔ IsPrefix prefix.address prefix.length }
{}
