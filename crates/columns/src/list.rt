// Lists in memory as lists to be written.
ghost use Rattle.std.specs.Prelude.{◌≡◌, ◌^◌, ◌<◌, length, ⊤};

use std::alloc::AllocError;

// as entries of a run column
pub mod items;

// A place in a list.
pub struct Listed<'t, T> {
    items: &'t [T],
    ghost short: { length items.now < 2 ^ 63 },
}

// By hand, since no impl is derived for a generic struct with a ghost field.
impl<T: Copy> Clone for Listed<'_, T> {
    ghost is_clone = { λ x y. y ≡ x };

    ghost is_infallible = { λ _. ⊤ };

    fn clone(&self) -> Result<Self, AllocError> {
        Ok(*self)
    }
}

impl<T: Copy> Copy for Listed<'_, T> {}
