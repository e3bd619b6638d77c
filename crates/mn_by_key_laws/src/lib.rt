//! An ordered map of values that tell their own keys, seen as the list of its values.
//!
//! Routes are kept by prefix, or by distinguisher and prefix, and each has its place within itself. Contracts see the
//! list of them, which ascends. So a change of the map at a key is a change of the list at a place: an entry that is
//! put stands in place of one of its key, and one that is taken out leaves the others as they were.
//!
//! - `specs/ByKey`: what it is for the order of keys to be that of values, and for values to stand at their keys
//! - `proofs/ByKey`: what a map answers and becomes, as its list has it
#![tactic(auto)]

ghost use Rattle.std.specs.Prelude.{◌≡◌, Bool, List};
ghost use Rattle.std.specs.Map.{values_of, lookup, remove_entry};
ghost use Rattle.std.specs.BTreeMap.{insert_entry, is_at};
ghost use Rattle.mn_base.specs.Ordered.{with_one, without_one, one_at};
ghost use Rattle.mn_by_key_laws.specs.ByKey.{Goes, AreByKey};

/// What a map becomes and finds at the key of a value, its list does at the value's place.
#[tactic(auto, using(crate::proofs::ByKey::with_put, crate::proofs::ByKey::without_taken, crate::proofs::ByKey::found))]
pub fn a_map_is_its_list<K: Ord, V>()
    ensures put { (before : V → V → Bool) (key : V → K) (es : List (K × V)) (k : K) (v : V) → Goes K.cmp before key → k ≡ key v → AreByKey before key es →
        values_of (insert_entry K.cmp es k v) ≡ with_one before v (values_of es) }
    ensures taken { (before : V → V → Bool) (key : V → K) (es : List (K × V)) (k : K) (v : V) → Goes K.cmp before key → k ≡ key v → AreByKey before key es →
        values_of (remove_entry (is_at (K.cmp k)) es) ≡ without_one before v (values_of es) }
    ensures found { (before : V → V → Bool) (key : V → K) (es : List (K × V)) (k : K) (v : V) → Goes K.cmp before key → k ≡ key v → AreByKey before key es →
        lookup (is_at (K.cmp k)) es ≡ one_at before v (values_of es) }
{}
