// Why the bytes of an element are refused.
ghost use Rattle.std.specs.Prelude.{◌≡◌, Some};
ghost use Rattle.std.specs.Fmt.{styled_text};
ghost use Rattle.codec.specs.Refusals.{element_cause};
ghost use Rattle.codec.specs.declared.element.fault.ElementFault.TheVariants.{Number};

use crate::parse::fault::NumberFault;
use crate::refusal::Fault;
use std::fmt;

#[derive(Clone, Copy, Debug, PartialEq, Eq)]
pub enum ElementFault {
    // its number, or the number of its bytes, is refused
    Number(NumberFault),
    // some of its bytes are missing
    PastEnd,
    // its bytes are no text
    NotUtf8,
}

// A number's fault is one of the element that it stands for.
impl From<NumberFault> for ElementFault {
    ghost from_gives = { λ fault r. r ≡ Number fault };

    fn from(fault: NumberFault) -> ElementFault {
        ElementFault::Number(fault)
    }
}

// A fault is shown as its cause; by hand, since a derive would have the words a second time.
impl fmt::Display for ElementFault {
    ghost output = { λ fault. Some (element_cause fault) };

    ghost styled_output = { λ fault s. Some (styled_text s (element_cause fault)) };

    fn fmt<W: fmt::Write>(&self, f: &mut fmt::Formatter<W>) -> fmt::Result {
        f.pad(self.cause())
    }
}

impl std::error::Error for ElementFault {}
