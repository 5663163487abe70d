//! Copies, where there is memory for them.

ghost use Rattle.std.specs.Prelude.{◌≡◌, IfOk};

use crate::text::Text;
use std::alloc::AllocError;

/// What can be copied where there is memory. A contract sees a copy as the same value.
pub trait TryCopy: Drop {
    /// An equal value of one's own.
    fn try_copy(&self) -> Result<Self, AllocError>
        ensures { IfOk result (λ copy. copy ≡ self.now) };
}

impl TryCopy for Text {
    fn try_copy(&self) -> Result<Text, AllocError> {
        self.try_copy()
    }
}

impl TryCopy for u64 {
    fn try_copy(&self) -> Result<u64, AllocError> {
        Ok(*self)
    }
}

impl TryCopy for u32 {
    fn try_copy(&self) -> Result<u32, AllocError> {
        Ok(*self)
    }
}

impl<A: TryCopy, B: TryCopy> TryCopy for (A, B) {
    fn try_copy(&self) -> Result<(A, B), AllocError> {
        Ok((self.0.try_copy()?, self.1.try_copy()?))
    }
}

impl<A: TryCopy, B: TryCopy, C: TryCopy> TryCopy for (A, B, C) {
    fn try_copy(&self) -> Result<(A, B, C), AllocError> {
        Ok((self.0.try_copy()?, self.1.try_copy()?, self.2.try_copy()?))
    }
}
