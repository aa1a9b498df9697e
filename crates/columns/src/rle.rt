// Run columns: elements and nulls, of any kind.
//
// A run of n equal elements is the signed number n and one code. A literal run of n elements is -n and
// n codes. A null run is 0 and the unsigned length. Nulls alone take no bytes.
ghost use Rattle.std.specs.Prelude.{◌≡◌, ⊤};

use crate::cursor::Cursor;
use crate::rle::run::Head;
use std::alloc::AllocError;

// reading
pub mod decoder;
// writing
pub mod encoder;
// writing one run
mod flush;
// the header of a run
mod header;
// at a sink
pub mod put;
// what a run is, and what a reader answers
pub mod run;
// lists to be written
pub mod source;
// what was told and is not written
mod state;

// A run column that is read: where the reader stands, and what is left of the run there. It is no
// `Iterator`, since readers are made at their end and opened later, and has no `Model`, which a type that
// is `Copy` and has a lifetime cannot have.
pub struct RleDecoder<'a, E> {
    cursor: Cursor<'a>,
    head: Head<E>,
}

// By hand: a derived impl would say of a clone no more than what the clone of its element says.
impl<E: Copy> Clone for RleDecoder<'_, E> {
    ghost is_clone = { λ x y. y ≡ x };

    ghost is_infallible = { λ _. ⊤ };

    fn clone(&self) -> Result<Self, AllocError> {
        Ok(RleDecoder {
            cursor: self.cursor,
            head: self.head,
        })
    }
}

impl<E: Copy> Copy for RleDecoder<'_, E> {}
