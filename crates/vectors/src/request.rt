// One request and its answer.
ghost use Rattle.std.specs.Prelude.{◌≡◌, ◌≢◌, [], codes, IfOk, Ok};
ghost use Rattle.hex.specs.Hex.{decode_of};

use crate::read::tell_column;
use crate::write::tell_written;
use codec::element::fault::ElementFault;
use codec::element::text::Text;
use codec::encoding::SinkRefused;
use codec::encoding::buffer::BufferSink;
use codec::encoding::leb128::put_leb128;
use codec::integer::Integer;
use codec::parse::leb128::read_leb128;
use columns::range::RangeRefused;
use hex::FromHexError;
use std::alloc::{AllocError, Global};
use std::fmt::Display;
use std::io;
use std::io::Write;
use std::num::ParseIntError;
use std::str::{FromStr, SplitWhitespace, Utf8Error};

// The most bytes that a number takes.
const LONGEST: usize = 10;

// Why a line has no answer of its own.
#[derive(Drop)]
pub(crate) enum RequestError {
    // it is no request
    Bad,
    // a byte found no place
    Refused,
    // there is no memory, or the answer cannot be written
    Io(io::Error),
}

impl From<io::Error> for RequestError {
    fn from(error: io::Error) -> RequestError {
        RequestError::Io(error)
    }
}

impl From<AllocError> for RequestError {
    fn from(error: AllocError) -> RequestError {
        RequestError::Io(error.into())
    }
}

impl From<SinkRefused> for RequestError {
    fn from(_: SinkRefused) -> RequestError {
        RequestError::Refused
    }
}

// The bytes of a given text are none.
impl From<ElementFault> for RequestError {
    fn from(_: ElementFault) -> RequestError {
        RequestError::Bad
    }
}

// That the range of the whole data is refused cannot be.
impl From<RangeRefused> for RequestError {
    fn from(_: RangeRefused) -> RequestError {
        RequestError::Bad
    }
}

impl From<Utf8Error> for RequestError {
    fn from(_: Utf8Error) -> RequestError {
        RequestError::Bad
    }
}

impl From<ParseIntError> for RequestError {
    fn from(_: ParseIntError) -> RequestError {
        RequestError::Bad
    }
}

impl From<FromHexError> for RequestError {
    fn from(error: FromHexError) -> RequestError {
        match error {
            FromHexError::OutOfMemory => RequestError::Io(AllocError.into()),
            _ => RequestError::Bad,
        }
    }
}

// Answers a line; nothing to an empty one.
pub(crate) fn answer(heap: Global, line: &[u8], output: &mut impl Write) -> io::Result<()> {
    match answer_request(heap, line, output) {
        Ok(()) => Ok(()),
        Err(RequestError::Bad) => output.write_all(b"bad request\n"),
        Err(RequestError::Refused) => output.write_all(b"refused\n"),
        Err(RequestError::Io(error)) => Err(error),
    }
}

// Each request has a function of its own, which is not inlined: what one needs of the stack is cleared at its start,
// and no other line pays for that.
fn answer_request(heap: Global, line: &[u8], output: &mut impl Write) -> Result<(), RequestError> {
    let mut words = std::str::from_utf8(line)?.split_whitespace();
    let Some(name) = words.next() else {
        return Ok(());
    };
    match name {
        "uleb" => read_number::<u64>(heap, words, output),
        "sleb" => read_number::<i64>(heap, words, output),
        "wuleb" => write_number::<u64>(heap, words, output),
        "wsleb" => write_number::<i64>(heap, words, output),
        "utf8" => read_text(heap, words, output),
        "rcol" => read_column(heap, words, output),
        "rcolx" => read_column_on(heap, words, output),
        "wcol" => write_column(heap, words, output),
        _ => Err(RequestError::Bad),
    }
}

#[inline(never)]
fn read_number<N: Integer + Display>(
    heap: Global,
    words: SplitWhitespace<'_>,
    output: &mut impl Write,
) -> Result<(), RequestError> {
    let bytes = bytes_of(heap, only(words)?)?;
    Ok(tell_number::<N>(output, bytes.as_slice())?)
}

#[inline(never)]
fn write_number<N: Integer + FromStr<Err = ParseIntError>>(
    heap: Global,
    words: SplitWhitespace<'_>,
    output: &mut impl Write,
) -> Result<(), RequestError> {
    tell_code(heap, output, only(words)?.parse::<N>()?)
}

#[inline(never)]
fn read_text(
    heap: Global,
    words: SplitWhitespace<'_>,
    output: &mut impl Write,
) -> Result<(), RequestError> {
    let bytes = bytes_of(heap, only(words)?)?;
    Ok(tell_text(output, bytes.as_slice())?)
}

#[inline(never)]
fn read_column(
    heap: Global,
    mut words: SplitWhitespace<'_>,
    output: &mut impl Write,
) -> Result<(), RequestError> {
    let kind = next(&mut words)?;
    let data = bytes_of(heap, only(words)?)?;
    tell_column(heap, output, kind, data.as_slice(), 0)
}

// The same, where the reader is asked to go on behind a fault.
#[inline(never)]
fn read_column_on(
    heap: Global,
    mut words: SplitWhitespace<'_>,
    output: &mut impl Write,
) -> Result<(), RequestError> {
    let kind = next(&mut words)?;
    let calls = next(&mut words)?.parse::<usize>()?;
    let data = bytes_of(heap, only(words)?)?;
    tell_column(heap, output, kind, data.as_slice(), calls)
}

#[inline(never)]
fn write_column(
    heap: Global,
    mut words: SplitWhitespace<'_>,
    output: &mut impl Write,
) -> Result<(), RequestError> {
    let kind = next(&mut words)?;
    tell_written(heap, output, kind, words)
}

// The next word.
fn next<'t>(words: &mut SplitWhitespace<'t>) -> Result<&'t str, RequestError> {
    words.next().ok_or(RequestError::Bad)
}

// The only word that is left.
fn only<'t>(mut words: SplitWhitespace<'t>) -> Result<&'t str, RequestError> {
    let word = next(&mut words)?;
    match words.next() {
        None => Ok(word),
        Some(_) => Err(RequestError::Bad),
    }
}

// The bytes that a word gives: two hexadecimal digits for each, and `-` for none.
pub(crate) fn bytes_of(heap: Global, word: &str) -> Result<Vec<u8>, RequestError>
    ensures dash { word.now ≡ codes "-" → IfOk result (λ bytes. bytes.items ≡ []) }
    ensures digits { word.now ≢ codes "-" → IfOk result (λ bytes. decode_of word.now ≡ Ok bytes.items) }
{
    if word == "-" {
        return Ok(Vec::new(heap));
    }
    match hex::decode(heap, word) {
        Ok(bytes) => Ok(bytes),
        // `decode` asks for memory before it looks at the digits: a word that has others is no request
        // all the same.
        Err(FromHexError::OutOfMemory) if !are_digits(word) => Err(RequestError::Bad),
        Err(error) => Err(error.into()),
    }
}

// Whether the word has hexadecimal digits alone.
fn are_digits(word: &str) -> bool {
    word.bytes().all(|digit| digit.is_ascii_hexdigit())
}

// The number that bytes start with, or why it is refused.
fn tell_number<N: Integer + Display>(output: &mut impl Write, bytes: &[u8]) -> io::Result<()> {
    match read_leb128::<N>(bytes) {
        Ok((number, used)) => writeln!(output, "ok,{number},{used}"),
        Err(fault) => writeln!(output, "fault,{fault}"),
    }
}

// Whether bytes are text.
fn tell_text(output: &mut impl Write, bytes: &[u8]) -> io::Result<()> {
    match Text::try_from(bytes) {
        Ok(_) => writeln!(output, "ok"),
        Err(fault) => writeln!(output, "fault,{fault}"),
    }
}

// The code of a number, which goes out to a buffer.
fn tell_code(
    heap: Global,
    output: &mut impl Write,
    number: impl Integer,
) -> Result<(), RequestError> {
    let mut buf = [0; LONGEST];
    let mut sink = BufferSink::new(&mut buf);
    put_leb128(&mut sink, number)?;
    Ok(writeln!(output, "{}", hex::encode(heap, sink.filled())?)?)
}
