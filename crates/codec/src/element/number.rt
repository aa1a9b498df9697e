// Numbers as elements.
ghost use Rattle.std.specs.Prelude.{◌≡◌, true, List, ⊤};
ghost use Rattle.codec.specs.Elements.{numbered};
ghost use Rattle.codec.specs.Laws.Kinds.{number_laws};

use crate::element::fault::ElementFault;
use crate::element::{Decodable, Encodable};
use crate::encoding::leb128::write_leb128;
use crate::encoding::{Output, SinkRefused};
use crate::integer::Integer;
use crate::parse::leb128::read_leb128;
use std::alloc::AllocError;

// A number of 64 bits.
#[derive(Debug, PartialEq, Eq, PartialOrd, Ord)]
pub struct Number<N: Integer> {
    pub value: N,
    ghost fits: { N.fits (N.means value) ≡ true },
}

// By hand, since `Clone` is not derived for a generic struct with a ghost field.
impl<N: Integer> Clone for Number<N> {
    ghost is_clone = { λ x y. y ≡ x };

    ghost is_infallible = { λ _. ⊤ };

    fn clone(&self) -> Result<Self, AllocError> {
        Ok(*self)
    }
}

impl<N: Integer> Copy for Number<N> {}

// without a sign
pub type Unsigned = Number<u64>;

// with a sign
pub type Signed = Number<i64>;

impl<'a, N: Integer> Decodable<'a> for Number<N> {
    ghost Means = { N.Means };

    ghost means = { λ x. N.means x.value };

    ghost code = { N.code };

    ghost reads = { λ bytes. numbered (N.reads bytes) };

    ghost Element = { λ n. N.fits n ≡ true };

    ghost holds = { λ x. x.fits };

    ghost laws = { number_laws N.coding N.reading };

    ghost first = { N.means N.ZERO };

    fn blank() -> Number<N> {
        Number { value: N::ZERO }
    }

    fn decode(&mut self, bytes: &'a [u8]) -> Result<usize, ElementFault> {
        let (value, used) = read_leb128::<N>(bytes)?;
        *self = Number { value };
        Ok(used)
    }
}

impl<'a, N: Integer> Encodable<'a> for Number<N> {
    fn encode<O: Output>(&self, out: &mut O) -> Result<(), SinkRefused> {
        write_leb128(out, self.value)
    }

    fn same(&self, other: &Number<N>) -> bool {
        self == other
    }
}

impl<N: Integer> From<N> for Number<N> {
    ghost from_gives = { λ n r. r.value ≡ n };

    // That the number fits its type is what its bits say.
    fn from(value: N) -> Number<N> {
        let _bits = value.to_bits();
        Number { value }
    }
}
