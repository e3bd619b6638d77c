ghost use Rattle.std.specs.Prelude.{◌≡◌, List, None, Some, IsOk, IsSome, OnOk, OnErr, IfOk, option_map};
ghost use Rattle.std.specs.Option.{option_copied};
ghost use Rattle.mn_prefix.specs.Prefix.{AddressBlock};
ghost use Rattle.mn_prefix.specs.Table.{IsTable, value_at, ChangesOnly, longest_match};

use crate::Prefix;
use std::alloc::AllocError;

/// A table of values by prefix.
pub trait PrefixTable<T> {
    /// The pairs that it holds, in an order of its own. No two have the same prefix.
    ghost pairs: { Self → List (AddressBlock × T) };

    /// Sets the value at a prefix, and answers the value that was there. Where one was there, no
    /// memory is taken. An `Err` changes nothing.
    fn insert(&mut self, prefix: Prefix, value: T) -> Result<Option<T>, AllocError>
        ensures before { IfOk result (λ before. before ≡ value_at prefix (pairs self.old)) }
        ensures ok { OnOk result (ChangesOnly (pairs self.old) (pairs self.new) prefix (Some value)) }
        ensures held { IsSome (value_at prefix (pairs self.old)) → IsOk result }
        ensures err { OnErr result (pairs self.new ≡ pairs self.old) }
        ensures table { IsTable (pairs self.new) };

    /// Removes the pair with a prefix, and answers its value.
    fn remove(&mut self, prefix: Prefix) -> Option<T>
        ensures before { result ≡ value_at prefix (pairs self.old) }
        ensures removed { ChangesOnly (pairs self.old) (pairs self.new) prefix None }
        ensures table { IsTable (pairs self.new) };

    /// The value at a prefix.
    fn get(&self, prefix: Prefix) -> Option<&T>
        ensures value { option_copied result ≡ value_at prefix (pairs self.now) }
        ensures table { IsTable (pairs self.now) };

    /// Of the pairs whose prefix contains the address, the one of greatest length.
    fn longest(&self, address: u32) -> Option<(Prefix, &T)>
        ensures best { option_map (λ found. (found.0, found.1.now)) result ≡ longest_match address (pairs self.now) }
        ensures table { IsTable (pairs self.now) };
}
