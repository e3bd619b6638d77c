ghost use Rattle.std.specs.Prelude.{◌≡◌, ◌+◌, ◌-◌, ◌^◌, ◌<◌, ◌≤◌, ◌↔◌, ℕ, List, None, Some, length, take, true, false};
ghost use Rattle.byteorder.specs.Endian.{big_bytes};
ghost use Rattle.mn_prefix.specs.Prefix.{AddressBlock, IsPrefix, contains, by_address_then_length};
ghost use Rattle.mn_prefix.specs.Octets.{octets, prefix_octets, address_of};
ghost use Rattle.mn_base.specs.Bytes.{IsBytes};
ghost use Rattle.mn_prefix.specs.Table.{IsTable, IsLongestMatch, value_at, longest_match};

use crate::Prefix;

#[tactic(auto, using(crate::proofs::Blocks::contains_block))]
/// A prefix contains the addresses from its own on, as many as its free bits can spell.
pub fn contains_its_block()
    ensures { (p : AddressBlock) (address : ℕ) → IsPrefix p.address p.length → (contains p address ≡ true) ↔ ((p.address ≤ address) × (address < p.address + 2 ^ (32 - p.length))) }
{}

/// Prefixes are compared by address, and those of one address by length.
pub fn orders_by_address_then_length()
    ensures { (p q : AddressBlock) → ⟦<Prefix as Ord>⟧.cmp p q ≡ by_address_then_length p q }
{}

/// The longest match depends only on what a table has at each prefix: it is a pair of the table
/// whose prefix contains the address, and none that contains it is longer.
#[tactic(auto, using(crate::proofs::Matches::longest_some, crate::proofs::Matches::longest_none))]
pub fn longest_of_a_table<T>()
    ensures some { (address : ℕ) (pairs : List (AddressBlock × T)) (found : AddressBlock × T) → IsTable pairs → (longest_match address pairs ≡ Some found) ↔ IsLongestMatch address pairs found }
    ensures none { (address : ℕ) (pairs : List (AddressBlock × T)) → IsTable pairs → (longest_match address pairs ≡ None) ↔ ((p : AddressBlock) (v : T) → value_at p pairs ≡ Some v → contains p address ≡ false) }
{}

/// The bytes that protocols carry tell a prefix: its address is again that of its bytes, as many as
/// its length needs, and bytes are again the first of their address.
pub fn octets_tell_a_prefix()
    ensures address { (p : AddressBlock) → IsPrefix p.address p.length → address_of (prefix_octets p) ≡ p.address }
    ensures size { (p : AddressBlock) → IsPrefix p.address p.length → length (prefix_octets p) ≡ octets p.length }
    ensures bytes { (bytes : List ℕ) → IsBytes bytes → length bytes ≤ 4 → take (length bytes) (big_bytes 4 (address_of bytes)) ≡ bytes }
{}
