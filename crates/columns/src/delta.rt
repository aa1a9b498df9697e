// Delta columns: run columns of the differences between numbers.
//
// Each number is written as its difference from the last one, the first as its difference from 0. Nulls
// leave the last number alone. Differences and sums saturate at 64 bits.

use crate::rle::RleDecoder;
use codec::element::number::Signed;

// reading
pub mod decoder;
// writing
pub mod encoder;

// The differences between numbers, as a list to be written.
#[derive(Clone, Copy)]
pub(crate) struct Differences<N> {
    numbers: N,
    last: i64,
}

// A delta column that is read: the column of its differences, and the last number.
#[derive(Clone, Copy)]
pub struct DeltaDecoder<'a> {
    rle: RleDecoder<'a, Signed>,
    absolute_val: i64,
}
