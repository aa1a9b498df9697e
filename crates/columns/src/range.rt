// Where a column stands in the data.
ghost use Rattle.std.specs.Prelude.{◌≤◌};

// how a range is made and asked
pub mod made;

// Why a range is not made, or a reader not opened.
#[derive(Clone, Copy, Debug, PartialEq, Eq)]
pub enum RangeRefused {
    // its end lies before its start
    EndBeforeStart,
    // it ends beyond the data
    EndBeyondData,
}

// A part of the data, from its start up to its end. No range ends before its start.
#[derive(Clone, Copy, Debug, PartialEq, Eq)]
pub struct Range {
    start: usize,
    end: usize,
    ghost ordered: { start ≤ end },
}
