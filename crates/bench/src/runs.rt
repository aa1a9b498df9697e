// Run columns, written to a buffer and read into a checksum.
ghost use Rattle.std.specs.Prelude.{◌≡◌, ◌-◌, ◌^◌, ◌<◌, ◌≤◌, true, length, map, is_none, IsOkAnd, MatchResult};
ghost use Rattle.columns.specs.Came.{coming};
ghost use Rattle.columns.specs.Column.{entries, remains};
ghost use Rattle.columns.specs.Cut.{written};
ghost use Rattle.std.specs.Option.{option_map};
ghost use Rattle.codec.specs.Leb128.{uleb};
ghost use Rattle.codec.specs.Elements.{reads_text, reads_unsigned, text_code};
ghost use Rattle.bench.specs.Lists.{masked, spanned, text_at};
ghost use Rattle.bench.specs.Columns.{faulty, length_or_refused};

use crate::masked::Masked;
use crate::spans::Spans;
use codec::element::number::Unsigned;
use codec::element::text::Text;
use codec::element::{Decodable, Encodable};
use codec::encoding::buffer::BufferSink;
use codec::encoding::{Sink, SinkRefused};
use columns::range::{Range, RangeRefused};
use columns::rle::RleDecoder;
use columns::rle::put::put_runs;
use columns::rle::source::{Entry, Source};

// What is answered where something was refused: over the C interface there is one number for both.
const REFUSED: u64 = u64::MAX;

// What a null counts as in the checksum, which is for whoever calls over C to make of the same list.
const NULL: u64 = u64::MAX;

#[unsafe(no_mangle)]
pub extern "C" fn bench_write_numbers(values: &[u64], nulls: &[u8], out: &mut [u8]) -> u64
    ensures { result ≡ length_or_refused (length out.old) (written (map (option_map uleb) (masked values.now nulls.now))) }
{
    write::<Unsigned, _>(Masked::new(values, nulls), out).map_or(REFUSED, |len| len as u64)
}

#[unsafe(no_mangle)]
pub extern "C" fn bench_write_texts(pool: &[u8], spans: &[u64], out: &mut [u8]) -> u64
    ensures { result ≡ length_or_refused (length out.old) (written (spanned (λ s e. option_map text_code (text_at pool.now s e)) spans.now)) }
{
    write::<Text, _>(Spans::new(pool, spans), out).map_or(REFUSED, |len| len as u64)
}

// Writes a list as a run column, and answers how long it is.
fn write<'a, E: Encodable<'a>, C: Source>(source: C, out: &mut [u8]) -> Result<usize, SinkRefused>
where
    C::Entry: Entry<'a, E>,
    ensures { MatchResult result (λ n. (n ≡ length (written (coming C.Entry.code C.list source))) × (n ≤ length out.old)) (λ _. length out.old < length (written (coming C.Entry.code C.list source))) }
{
    let mut sink = BufferSink::new(out);
    put_runs::<E, _, _>(source, &mut sink)?;
    Ok(sink.count())
}

#[unsafe(no_mangle)]
pub extern "C" fn bench_read_numbers(data: &[u8]) -> u64
    ensures { faulty (entries reads_unsigned «data».now 0) ≡ true → result ≡ 2 ^ 64 - 1 }
{
    checksum::<Unsigned>(data).unwrap_or(REFUSED)
}

#[unsafe(no_mangle)]
pub extern "C" fn bench_read_texts(data: &[u8]) -> u64
    ensures { faulty (entries reads_text «data».now 0) ≡ true → result ≡ 2 ^ 64 - 1 }
{
    checksum::<Text>(data).unwrap_or(REFUSED)
}

fn mix(sum: u64, n: u64) -> u64 {
    sum.rotate_left(5) ^ n
}

// What goes into a checksum.
trait Mixed {
    fn mixed_into(self, sum: u64) -> u64;
}

impl Mixed for Unsigned {
    fn mixed_into(self, sum: u64) -> u64 {
        mix(sum, self.value)
    }
}

// Of a text its length, and its first and its last byte.
impl Mixed for Text<'_> {
    fn mixed_into(self, sum: u64) -> u64 {
        let text = self.as_bytes();
        let first = text.first().copied().unwrap_or(0);
        let last = text.last().copied().unwrap_or(0);
        let sum = mix(sum, text.len() as u64);
        mix(mix(sum, u64::from(first)), u64::from(last))
    }
}

// A reader of the whole of the data.
fn opened<'a, E: Decodable<'a>>(data: &'a [u8]) -> Result<RleDecoder<'a, E>, RangeRefused>
    ensures { IsOkAnd result (λ r. remains E.reads E.means r ≡ entries E.reads «data».now 0) }
{
    let mut reader = RleDecoder::new();
    reader.open(data, Range::new(0, data.len())?)?;
    Ok(reader)
}

// The checksum of the column that the data is; none where something was refused.
fn checksum<'a, E: Decodable<'a> + Mixed>(data: &'a [u8]) -> Option<u64>
    ensures { is_none result ≡ faulty (entries E.Decodable.reads «data».now 0) }
{
    let mut reader = opened::<E>(data).ok()?;
    let mut sum = 0;
    while let Some(entry) = reader.next().ok()? {
        sum = match entry {
            Some(number) => number.element.mixed_into(sum),
            None => mix(sum, NULL),
        };
    }
    Some(sum)
}
