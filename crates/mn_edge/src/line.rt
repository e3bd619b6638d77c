// What a file grows by.
ghost use Rattle.std.specs.Prelude.{◌≡◌, ◌++◌, List, ℕ, OnOk};

use std::alloc::AllocError;

/// Bytes that are written where they are to stand, behind others, so that they need no place of their own before.
pub trait Line {
    /// The bytes.
    ghost text: { Self → List ℕ };

    /// Appends the bytes. After an `Err` it is left open what stands there.
    fn put(&self, out: &mut Vec<u8>) -> Result<(), AllocError>
        ensures { OnOk result (out.new.items ≡ out.old.items ++ text self.now) };
}

/// Bytes that stand somewhere already.
#[derive(Drop)]
pub(crate) struct Piece<'p> {
    pub(crate) bytes: &'p [u8],
}

impl Line for Piece<'_> {
    ghost text = { λ piece. piece.bytes.now };

    fn put(&self, out: &mut Vec<u8>) -> Result<(), AllocError> {
        out.extend_from_slice(self.bytes)
    }
}
