// Columns that are read.
use crate::request::RequestError;
use codec::element::Decodable;
use codec::element::number::{Number, Signed, Unsigned};
use codec::element::text::Text;
use codec::integer::Integer;
use columns::boolean::BooleanDecoder;
use columns::delta::DeltaDecoder;
use columns::fault::ColumnFault;
use columns::range::{Range, RangeRefused};
use columns::rle::RleDecoder;
use columns::rle::run::Placed;
use std::alloc::Global;
use std::fmt::Display;
use std::io;
use std::io::Write;

// The most answers that are told of one column.
const MOST: usize = 256;

// What is told in a word.
trait Shown {
    fn show(&self, heap: Global, output: &mut impl Write) -> io::Result<()>;
}

impl Shown for i64 {
    fn show(&self, _heap: Global, output: &mut impl Write) -> io::Result<()> {
        write!(output, "{self}")
    }
}

impl Shown for bool {
    fn show(&self, _heap: Global, output: &mut impl Write) -> io::Result<()> {
        write!(output, "{}", u8::from(*self))
    }
}

impl<N: Integer + Display> Shown for Number<N> {
    fn show(&self, _heap: Global, output: &mut impl Write) -> io::Result<()> {
        write!(output, "{}", self.value)
    }
}

impl Shown for Text<'_> {
    fn show(&self, heap: Global, output: &mut impl Write) -> io::Result<()> {
        write!(output, "n{}", hex::encode(heap, self.as_bytes())?)
    }
}

impl<E: Shown> Shown for Placed<E> {
    fn show(&self, heap: Global, output: &mut impl Write) -> io::Result<()> {
        self.element.show(heap, output)
    }
}

// An element or a null.
impl<T: Shown> Shown for Option<T> {
    fn show(&self, heap: Global, output: &mut impl Write) -> io::Result<()> {
        match self {
            Some(element) => element.show(heap, output),
            None => write!(output, "_"),
        }
    }
}

// A reader of one column.
trait Reader<'a>: Drop {
    // what it reads: an element or a null, or a flag
    type Entry: Shown + Drop;

    // At the start of a column.
    fn opened(data: &'a [u8], range: Range) -> Result<Self, RangeRefused>;

    // The next entry, and nothing at the end.
    fn next_entry(&mut self) -> Result<Option<Self::Entry>, ColumnFault>;
}

impl<'a, E: Decodable<'a> + Shown> Reader<'a> for RleDecoder<'a, E> {
    type Entry = Option<Placed<E>>;

    fn opened(data: &'a [u8], range: Range) -> Result<Self, RangeRefused> {
        let mut reader = RleDecoder::new();
        reader.open(data, range)?;
        Ok(reader)
    }

    fn next_entry(&mut self) -> Result<Option<Option<Placed<E>>>, ColumnFault> {
        self.next()
    }
}

impl<'a> Reader<'a> for DeltaDecoder<'a> {
    type Entry = Option<i64>;

    fn opened(data: &'a [u8], range: Range) -> Result<Self, RangeRefused> {
        let mut reader = DeltaDecoder::new();
        reader.open(data, range)?;
        Ok(reader)
    }

    fn next_entry(&mut self) -> Result<Option<Option<i64>>, ColumnFault> {
        self.next()
    }
}

impl<'a> Reader<'a> for BooleanDecoder<'a> {
    type Entry = bool;

    fn opened(data: &'a [u8], range: Range) -> Result<Self, RangeRefused> {
        let mut reader = BooleanDecoder::new();
        reader.open(data, range)?;
        Ok(reader)
    }

    fn next_entry(&mut self) -> Result<Option<bool>, ColumnFault> {
        self.next()
    }
}

// Tells the column of a kind that the data is.
pub(crate) fn tell_column(
    heap: Global,
    output: &mut impl Write,
    kind: &str,
    data: &[u8],
    calls: usize,
) -> Result<(), RequestError> {
    match kind {
        "u" => tell_entries::<RleDecoder<Unsigned>>(heap, output, data, calls),
        "i" => tell_entries::<RleDecoder<Signed>>(heap, output, data, calls),
        "s" => tell_entries::<RleDecoder<Text>>(heap, output, data, calls),
        "d" => tell_entries::<DeltaDecoder>(heap, output, data, calls),
        "b" | "m" => tell_entries::<BooleanDecoder>(heap, output, data, calls),
        _ => Err(RequestError::Bad),
    }
}

// The answers of a reader, parted by blanks: up to its end or its first fault, and of so many calls
// beyond that.
fn tell_entries<'a, R: Reader<'a>>(
    heap: Global,
    output: &mut impl Write,
    data: &'a [u8],
    calls: usize,
) -> Result<(), RequestError> {
    let mut reader = R::opened(data, Range::new(0, data.len())?)?;
    let mut left = None;
    for _ in 0..MOST {
        match reader.next_entry() {
            Ok(None) => return Ok(writeln!(output, "end")?),
            Ok(Some(entry)) => entry.show(heap, output)?,
            Err(fault) => {
                write!(output, "fault:{fault}")?;
                left = left.or(Some(calls));
            }
        }
        left = match left {
            Some(0) => return Ok(writeln!(output)?),
            Some(n) => Some(n - 1),
            None => None,
        };
        write!(output, " ")?;
    }
    Ok(writeln!(output, "more")?)
}
