// How a range is made and asked.
ghost use Rattle.std.specs.Prelude.{◌≡◌, ◌≤◌, Some};
ghost use Rattle.std.specs.Fmt.{styled_text};
ghost use Rattle.columns.specs.Ranges.{span, ranged, range_number, range_words};

use crate::range::{Range, RangeRefused};
use codec::refusal::Refusal;
use std::fmt;

impl Range {
    // The range of two numbers, where they are in order.
    pub fn new(start: usize, end: usize) -> Result<Range, RangeRefused>
        ensures { span result ≡ ranged start end }
    {
        if end < start {
            return Err(RangeRefused::EndBeforeStart);
        }
        Ok(Range { start, end })
    }

    pub fn start(&self) -> usize
        ensures { (result ≡ self.now.start) × (result ≤ self.now.end) }
    {
        self.start
    }

    pub fn end(&self) -> usize
        ensures { result ≡ self.now.end }
    {
        self.end
    }
}

impl Refusal for RangeRefused {
    ghost number_of = { range_number };

    fn number(self) -> u8 {
        match self {
            RangeRefused::EndBeforeStart => 1,
            RangeRefused::EndBeyondData => 3,
        }
    }
}

// A refusal is shown in words.
impl fmt::Display for RangeRefused {
    ghost output = { λ refused. Some (range_words refused) };

    ghost styled_output = { λ refused s. Some (styled_text s (range_words refused)) };

    fn fmt<W: fmt::Write>(&self, f: &mut fmt::Formatter<W>) -> fmt::Result {
        f.pad(match self {
            RangeRefused::EndBeforeStart => "the range ends before its start",
            RangeRefused::EndBeyondData => "the range ends beyond the data",
        })
    }
}

impl std::error::Error for RangeRefused {}
