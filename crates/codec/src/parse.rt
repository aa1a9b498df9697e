// How numbers and text are read.

// why a number is refused
pub mod fault;
// the first byte of a character
mod first;
// where the bytes of a number end
mod frame;
// the readers
pub mod leb128;
// text
pub mod utf8;
