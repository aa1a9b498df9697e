// Columns that are written.
use crate::request::{RequestError, bytes_of};
use codec::element::Encodable;
use codec::element::number::{Number, Signed, Unsigned};
use codec::element::text::Text;
use codec::encoding::buffer::BufferSink;
use codec::encoding::counter::Counter;
use codec::encoding::{Output, SinkRefused};
use columns::boolean::encoder::{write_booleans, write_maybe_booleans};
use columns::delta::encoder::write_deltas;
use columns::list::Listed;
use columns::rle::encoder::write_runs;
use std::alloc::Global;
use std::io::Write;
use std::str::SplitWhitespace;

// What is given in a word.
trait Given: Drop {
    fn given(heap: Global, word: &str) -> Result<Self, RequestError>;
}

impl Given for i64 {
    fn given(_heap: Global, word: &str) -> Result<i64, RequestError> {
        Ok(word.parse()?)
    }
}

impl Given for Unsigned {
    fn given(_heap: Global, word: &str) -> Result<Unsigned, RequestError> {
        Ok(Number::from(word.parse::<u64>()?))
    }
}

impl Given for Signed {
    fn given(_heap: Global, word: &str) -> Result<Signed, RequestError> {
        Ok(Number::from(word.parse::<i64>()?))
    }
}

impl Given for bool {
    fn given(_heap: Global, word: &str) -> Result<bool, RequestError> {
        match word {
            "0" => Ok(false),
            "1" => Ok(true),
            _ => Err(RequestError::Bad),
        }
    }
}

// The bytes of a text.
impl Given for Vec<u8> {
    fn given(heap: Global, word: &str) -> Result<Vec<u8>, RequestError> {
        bytes_of(heap, word.strip_prefix("n").ok_or(RequestError::Bad)?)
    }
}

// An element or a null.
impl<T: Given> Given for Option<T> {
    fn given(heap: Global, word: &str) -> Result<Option<T>, RequestError> {
        if word == "_" {
            return Ok(None);
        }
        Ok(Some(T::given(heap, word)?))
    }
}

fn items<T: Given>(heap: Global, words: SplitWhitespace) -> Result<Vec<T>, RequestError> {
    words.map(|word| T::given(heap, word)).try_collect(heap)
}

// A list, and which column is written of it.
trait Column: Drop {
    fn write<O: Output>(&self, out: &mut O) -> Result<(), SinkRefused>;
}

#[derive(Drop)]
struct Runs<'a, E>(&'a [Option<E>]);

impl<'a, E: Encodable<'a>> Column for Runs<'a, E> {
    fn write<O: Output>(&self, out: &mut O) -> Result<(), SinkRefused> {
        write_runs::<E, _, _>(Listed::new(self.0), out)
    }
}

#[derive(Drop)]
struct Deltas<'t>(&'t [Option<i64>]);

impl Column for Deltas<'_> {
    fn write<O: Output>(&self, out: &mut O) -> Result<(), SinkRefused> {
        write_deltas(Listed::new(self.0), out)
    }
}

#[derive(Drop)]
struct Booleans<'t>(&'t [bool]);

impl Column for Booleans<'_> {
    fn write<O: Output>(&self, out: &mut O) -> Result<(), SinkRefused> {
        write_booleans(Listed::new(self.0), out)
    }
}

#[derive(Drop)]
struct MaybeBooleans<'t>(&'t [bool]);

impl Column for MaybeBooleans<'_> {
    fn write<O: Output>(&self, out: &mut O) -> Result<(), SinkRefused> {
        write_maybe_booleans(Listed::new(self.0), out)
    }
}

// Tells the column of a kind that the items are written as.
pub(crate) fn tell_written(
    heap: Global,
    output: &mut impl Write,
    kind: &str,
    words: SplitWhitespace,
) -> Result<(), RequestError> {
    match kind {
        "u" => tell_bytes(
            heap,
            output,
            Runs::<Unsigned>(items(heap, words)?.as_slice()),
        ),
        "i" => tell_bytes(heap, output, Runs::<Signed>(items(heap, words)?.as_slice())),
        "s" => tell_texts(heap, output, words),
        "d" => tell_bytes(heap, output, Deltas(items(heap, words)?.as_slice())),
        "b" => tell_bytes(heap, output, Booleans(items(heap, words)?.as_slice())),
        "m" => tell_bytes(heap, output, MaybeBooleans(items(heap, words)?.as_slice())),
        _ => Err(RequestError::Bad),
    }
}

fn tell_texts(
    heap: Global,
    output: &mut impl Write,
    words: SplitWhitespace,
) -> Result<(), RequestError> {
    let parts: Vec<Option<Vec<u8>>> = items(heap, words)?;
    let texts: Vec<Option<Text>> = parts.iter().map(|part| text_of(part)).try_collect(heap)?;
    tell_bytes(heap, output, Runs(texts.as_slice()))
}

// The text of some bytes, or a null.
fn text_of<'t>(part: &'t Option<Vec<u8>>) -> Result<Option<Text<'t>>, RequestError> {
    match part {
        Some(bytes) => Ok(Some(Text::try_from(bytes.as_slice())?)),
        None => Ok(None),
    }
}

// The bytes of a column, which are counted first.
fn tell_bytes(
    heap: Global,
    output: &mut impl Write,
    column: impl Column,
) -> Result<(), RequestError> {
    let mut counter = Counter::new();
    column.write(&mut counter)?;
    let mut buf = vec![in heap; 0u8; counter.told()]?;
    let mut sink = BufferSink::new(buf.as_mut_slice());
    column.write(&mut sink)?;
    let bytes = sink.filled();
    if bytes.is_empty() {
        writeln!(output, "-")?;
    } else {
        writeln!(output, "{}", hex::encode(heap, bytes)?)?;
    }
    Ok(())
}
