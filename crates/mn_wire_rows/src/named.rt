//! Values that a row names, as `{:?}` prints them.
use mn_rows::{Answer, Call, displayed, shown};
use std::alloc::{AllocError, Global};
use std::fmt::{Debug, Display};

/// The one of these values whose name stands at the third word.
pub(crate) fn named<T: Copy + Debug>(
    alloc: Global,
    call: Call<'_>,
    values: &[T],
) -> Result<Option<T>, AllocError> {
    for value in values {
        if let Some(name) = shown(alloc, value)? {
            if call.has(2, name.as_bytes()) {
                return Ok(Some(*value));
            }
        }
    }
    Ok(None)
}

/// What the refusal says whose name stands at the third word.
pub(crate) fn says<T: Copy + Debug + Display>(
    alloc: Global,
    call: Call<'_>,
    refusals: &[T],
) -> Answer {
    match named(alloc, call, refusals)? {
        Some(refusal) => displayed(alloc, &refusal),
        None => Ok(None),
    }
}
