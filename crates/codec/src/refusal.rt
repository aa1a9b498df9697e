// The number of each refusal, and its cause in words.
ghost use Rattle.std.specs.Prelude.{◌≡◌, ℕ, List};
ghost use Rattle.codec.specs.Refusals.{sink_number, fault_number, cause_of, element_number, element_cause};

use crate::element::fault::ElementFault;
use crate::encoding::SinkRefused;
use crate::parse::fault::NumberFault;

// Why something is refused, by the number that the rules give it.
pub trait Refusal: Copy {
    ghost number_of: { Self → ℕ };

    fn number(self) -> u8
        ensures { result ≡ number_of self };
}

// A refusal that also has a cause in words.
pub trait Fault: Refusal {
    ghost words: { Self → List ℕ };

    fn cause(self) -> &'static str
        ensures { result.now ≡ words self };
}

impl Refusal for SinkRefused {
    ghost number_of = { sink_number };

    fn number(self) -> u8 {
        15
    }
}

impl Refusal for NumberFault {
    ghost number_of = { fault_number };

    fn number(self) -> u8 {
        match self {
            NumberFault::CutShort => 17,
            NumberFault::TooLarge => 17,
            NumberFault::Overlong => 17,
        }
    }
}

impl Fault for NumberFault {
    ghost words = { cause_of };

    fn cause(self) -> &'static str {
        match self {
            NumberFault::CutShort => "cut short",
            NumberFault::TooLarge => "too large",
            NumberFault::Overlong => "overlong",
        }
    }
}

impl Refusal for ElementFault {
    ghost number_of = { element_number };

    fn number(self) -> u8 {
        match self {
            ElementFault::Number(fault) => fault.number(),
            ElementFault::PastEnd => 17,
            ElementFault::NotUtf8 => 17,
        }
    }
}

impl Fault for ElementFault {
    ghost words = { element_cause };

    fn cause(self) -> &'static str {
        match self {
            ElementFault::Number(fault) => fault.cause(),
            ElementFault::PastEnd => "past the end",
            ElementFault::NotUtf8 => "not UTF-8",
        }
    }
}
