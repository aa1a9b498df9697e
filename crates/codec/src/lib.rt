// The codecs below the columns of a change: numbers, text, the kinds of elements that columns hold,
// and the places that bytes are written to. They stand alone, without columns or rows.

#![tactic(auto)]

// what columns hold
pub mod element;
// where and how bytes and numbers are written
pub mod encoding;
// the integers that have a code
pub mod integer;
// how numbers and text are read
pub mod parse;
// the numbers and words of refusals
pub mod refusal;
