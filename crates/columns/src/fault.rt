// Why the bytes of a column are refused.
ghost use Rattle.std.specs.Prelude.{◌≡◌, Some};
ghost use Rattle.std.specs.Fmt.{styled_text};
ghost use Rattle.columns.specs.Faults.{number_in, column_number, column_cause};
ghost use Rattle.columns.specs.declared.fault.ColumnFault.TheVariants.{Element};

use codec::element::fault::ElementFault;
use codec::parse::fault::NumberFault;
use codec::refusal::{Fault, Refusal};
use std::fmt;

#[derive(Clone, Copy, Debug, PartialEq, Eq)]
pub enum ColumnFault {
    // an element, or the number that a run begins with, is refused
    Element(ElementFault),
    // a run is longer than 2^63 - 1
    RunTooLong,
}

// A fault of an element is one of the column that holds it.
impl From<ElementFault> for ColumnFault {
    ghost from_gives = { λ fault r. r ≡ Element fault };

    fn from(fault: ElementFault) -> ColumnFault {
        ColumnFault::Element(fault)
    }
}

// And so is a fault of a number.
impl From<NumberFault> for ColumnFault {
    ghost from_gives = { λ fault r. r ≡ number_in fault };

    fn from(fault: NumberFault) -> ColumnFault {
        ColumnFault::Element(ElementFault::Number(fault))
    }
}

impl Refusal for ColumnFault {
    ghost number_of = { column_number };

    fn number(self) -> u8 {
        match self {
            ColumnFault::Element(fault) => fault.number(),
            ColumnFault::RunTooLong => 17,
        }
    }
}

impl Fault for ColumnFault {
    ghost words = { column_cause };

    fn cause(self) -> &'static str {
        match self {
            ColumnFault::Element(fault) => fault.cause(),
            ColumnFault::RunTooLong => "run too long",
        }
    }
}

// A fault is shown as its cause; by hand, since a derive would have the words a second time.
impl fmt::Display for ColumnFault {
    ghost output = { λ fault. Some (column_cause fault) };

    ghost styled_output = { λ fault s. Some (styled_text s (column_cause fault)) };

    fn fmt<W: fmt::Write>(&self, f: &mut fmt::Formatter<W>) -> fmt::Result {
        f.pad(self.cause())
    }
}

impl std::error::Error for ColumnFault {}
