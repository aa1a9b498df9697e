// Why the bytes of a number are refused.
ghost use Rattle.std.specs.Prelude.{Some};
ghost use Rattle.std.specs.Fmt.{styled_text};
ghost use Rattle.codec.specs.Refusals.{cause_of};

use crate::refusal::Fault;
use std::fmt;

#[derive(Clone, Copy, Debug, PartialEq, Eq)]
pub enum NumberFault {
    // there are fewer than ten bytes, and none ends the number
    CutShort,
    // the number does not fit 64 bits, or takes more than ten bytes
    TooLarge,
    // the number has a shorter code
    Overlong,
}

// A fault is shown as its cause; by hand, since a derive would have the words a second time.
impl fmt::Display for NumberFault {
    ghost output = { λ fault. Some (cause_of fault) };

    ghost styled_output = { λ fault s. Some (styled_text s (cause_of fault)) };

    fn fmt<W: fmt::Write>(&self, f: &mut fmt::Formatter<W>) -> fmt::Result {
        f.pad(self.cause())
    }
}

impl std::error::Error for NumberFault {}
