// The columns of a change: runs of elements and nulls, differences, booleans and plain bytes.

#![tactic(auto)]

// booleans
pub mod boolean;
// faults with the path to their column
pub mod col_error;
// columns read by values
pub mod column_decoder;
// where the reader of a column stands
mod cursor;
// differences of numbers
pub mod delta;
// why a column is refused, and the number of each refusal
pub mod fault;
// lists in memory
pub mod list;
// where a column stands in the data
pub mod range;
// plain bytes
pub mod raw;
// runs of elements and nulls
pub mod rle;
