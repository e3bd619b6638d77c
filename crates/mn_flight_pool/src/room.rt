//! Room in a list of which little may be written.
ghost use Rattle.std.specs.Prelude.{◌≡◌, ◌≤◌, ◌+◌, vec_len, OnOk};
ghost use Rattle.std.specs.Vec.{vec_capacity};

use std::alloc::AllocError;

/// Room for so many more. Where little of the room that is there was written to, that alone is copied.
pub fn make_room<X: Copy>(list: &mut Vec<X>, more: usize) -> Result<(), AllocError>
    ensures items { list.new.items ≡ list.old.items }
    ensures len { vec_len list.new ≡ vec_len list.old }
    ensures room { OnOk result (vec_len list.new + more ≤ vec_capacity list.new) }
    ensures capacity { vec_capacity list.old ≤ vec_capacity list.new }
{
    let Some(needed) = list.len().checked_add(more) else {
        return Err(AllocError);
    };
    if needed <= list.capacity() {
        return Ok(());
    }
    if list.len() > list.capacity() / 8 {
        return list.reserve(more);
    }
    let mut roomy = Vec::with_capacity(*list.allocator(), needed.saturating_mul(2))?;
    roomy.extend_from_slice(list)?;
    *list = roomy;
    Ok(())
}
