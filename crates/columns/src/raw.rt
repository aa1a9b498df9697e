// Raw columns: plain bytes, taken by count.
use crate::cursor::Cursor;

// reading
pub mod decoder;

// A raw column that is read: where the reader stands.
#[derive(Clone, Copy)]
pub struct RawDecoder<'a> {
    cursor: Cursor<'a>,
}

// A part of the data, and where in the data it stands.
#[derive(Clone, Copy, Debug, PartialEq, Eq)]
pub struct Part<'a> {
    pub bytes: &'a [u8],
    pub place: usize,
}
