// Boolean columns: unsigned lengths of alternating runs.
//
// The first run is of false, so a list that begins with true begins with a length of 0.

use crate::cursor::Cursor;

// reading
pub mod decoder;
// writing
pub mod encoder;

// A boolean column that is read: where the reader stands, what is left of the run there, and the run's
// value. It is no `Iterator`, since readers are made at their end and opened later.
#[derive(Clone, Copy)]
pub struct BooleanDecoder<'a> {
    cursor: Cursor<'a>,
    count: u64,
    value: bool,
}
