// Kinds of elements: what a column holds.
//
// A kind means a set of elements, each with a code of bytes. A kind that can be read fills a place
// with the element that bytes start with; one that can be written also writes codes and tells
// whether two elements are the same.
ghost use Rattle.std.specs.Prelude.{◌≡◌, ℕ, ◌≤◌, true, List, length, drop, is_ok, is_err, Decides, OnOk};
ghost use Rattle.codec.specs.Feed.{Fed};
ghost use Rattle.codec.specs.Sinks.{Told};
ghost use Rattle.codec.specs.Elements.{Reading, used, filled, Laws, StandsFor};

use crate::element::fault::ElementFault;
use crate::encoding::{Output, Sink, SinkRefused};

// why an element is refused
pub mod fault;
// unsigned and signed numbers
pub mod number;
// text
pub mod text;

// A kind whose elements can be read from bytes that live for 'a.
pub trait Decodable<'a>: Copy {
    // what the elements are, and which one a value of the type is
    ghost Means: { Type 0 };

    ghost means: { Self → Means };

    // each element's code, and what any bytes start with
    ghost code: { Means → List ℕ };

    ghost reads: { List ℕ → Reading Means };

    // which of `Means` are elements, and that the type holds these alone
    ghost Element: { Means → Type 0 };

    ghost holds: { (x : Self) → Element (means x) };

    ghost laws: { Laws Element code reads };

    // the element that a new place holds
    ghost first: { Means };

    // A place to read into.
    fn blank() -> Self
        ensures { means result ≡ first };

    // Reads the element that the bytes start with into this place, and answers how many bytes its
    // code takes; or answers the cause, and the place is unchanged. A place, and no pair that is
    // handed out, is a rule of the project for every kind.
    fn decode(&mut self, bytes: &'a [u8]) -> Result<usize, ElementFault>
        ensures answer { result ≡ used (reads bytes.now) }
        ensures place { means self.new ≡ filled (reads bytes.now) (means self.old) }
        ensures kept { is_err result ≡ true → self.new ≡ self.old };
}

// A kind whose elements can also be written.
pub trait Encodable<'a>: Decodable<'a> {
    // Writes the element's code, or is refused exactly where the output refuses a byte of it.
    fn encode<O: Output>(&self, out: &mut O) -> Result<(), SinkRefused>
        ensures { Fed O.takes O.step (O.state out.old) (Self.Decodable.code (Self.Decodable.means self.now)) (is_ok result) (O.state out.new) };

    // Whether two elements are the same. A method, and not a law of `==`: tried, but in generic code
    // a proof cannot cite a law of a trait that has a lifetime.
    fn same(&self, other: &Self) -> bool
        ensures { Decides result (Self.Decodable.means self.now ≡ Self.Decodable.means other.now) };
}

// Writes the element to a sink. Where nothing was refused, what the sink then holds beyond what it
// held stands for the element: it reads back, with anything behind it.
pub fn put_element<'a, E: Encodable<'a>, S: Sink>(
    sink: &mut S,
    element: &E,
) -> Result<(), SinkRefused>
    ensures told { Told S.rule (S.holds sink.old) (E.Decodable.code (E.Decodable.means element.now)) (is_ok result) (S.holds sink.new) }
    ensures back { OnOk result (StandsFor E.Decodable.reads (E.Decodable.means element.now) (drop (length (S.holds sink.old).held) (S.holds sink.new).held)) }
{
    element.encode(sink)
}
