// Columns: lists go out to a buffer and come back, entry by entry.
use crate::show::hex;
use codec::element::number::Unsigned;
use codec::encoding::Sink;
use codec::encoding::buffer::BufferSink;
use codec::refusal::{Fault, Refusal};
use columns::boolean::BooleanDecoder;
use columns::boolean::encoder::{put_booleans, put_maybe_booleans};
use columns::delta::DeltaDecoder;
use columns::delta::encoder::put_deltas;
use columns::fault::ColumnFault;
use columns::list::Listed;
use columns::range::Range;
use columns::rle::RleDecoder;
use columns::rle::put::put_runs;
use std::alloc::Global;
use std::fmt::Display;

const NUMBERS: [Option<u64>; 6] = [Some(5), Some(5), Some(5), None, Some(1), Some(2)];

const DELTAS: [Option<i64>; 3] = [Some(3), None, Some(4)];

const BOOLEANS: [bool; 3] = [false, false, true];

// A run of 5 whose element is cut short.
const DAMAGED: [u8; 4] = [0x02, 0x07, 0x03, 0x85];

// The most entries of a column that are told.
const MOST: usize = 16;

// A reader of a column whose entries can be shown.
trait Entries {
    type Shown: Display + Drop;

    // The next entry, which is a value or a null; nothing at the end.
    fn entry(&mut self) -> Result<Option<Option<Self::Shown>>, ColumnFault>;
}

impl Entries for RleDecoder<'_, Unsigned> {
    type Shown = u64;

    fn entry(&mut self) -> Result<Option<Option<u64>>, ColumnFault> {
        let entry = self.next()?;
        Ok(entry.map(|element| element.map(|number| number.element.value)))
    }
}

impl Entries for DeltaDecoder<'_> {
    type Shown = i64;

    fn entry(&mut self) -> Result<Option<Option<i64>>, ColumnFault> {
        self.next()
    }
}

impl Entries for BooleanDecoder<'_> {
    type Shown = bool;

    fn entry(&mut self) -> Result<Option<Option<bool>>, ColumnFault> {
        Ok(self.next()?.map(Some))
    }
}

// The entries of a column, parted by commas.
fn read_back(heap: Global, reader: &mut impl Entries) -> anyhow::Result<String> {
    let mut text = String::new(heap);
    for _ in 0..MOST {
        let Some(entry) = reader.entry()? else {
            break;
        };
        if !text.is_empty() {
            text.push_str(", ")?;
        }
        match entry {
            Some(value) => write!(text, "{value}")?,
            None => text.push_str("null")?,
        }
    }
    Ok(text)
}

fn tell(
    rt: &HostRuntime,
    bytes: &[u8],
    name: &str,
    reader: &mut impl Entries,
) -> anyhow::Result<()> {
    println!(rt; "{name} go out as {}.", hex(rt.alloc(), bytes)?)?;
    println!(rt; "Read back, these are {}.", read_back(rt.alloc(), reader)?)?;
    Ok(())
}

fn runs(rt: &HostRuntime) -> anyhow::Result<()> {
    let mut buf = [0; 16];
    let mut sink = BufferSink::new(&mut buf);
    put_runs::<Unsigned, _, _>(Listed::new(&NUMBERS), &mut sink)?;
    let bytes = sink.filled();
    let mut reader: RleDecoder<'_, Unsigned> = RleDecoder::new();
    reader.open(bytes, Range::new(0, bytes.len())?)?;
    tell(
        rt,
        bytes,
        "As a run column, 5, 5, 5, null, 1, 2",
        &mut reader,
    )
}

fn deltas(rt: &HostRuntime) -> anyhow::Result<()> {
    let mut buf = [0; 16];
    let mut sink = BufferSink::new(&mut buf);
    put_deltas(Listed::new(&DELTAS), &mut sink)?;
    let bytes = sink.filled();
    let mut reader = DeltaDecoder::new();
    reader.open(bytes, Range::new(0, bytes.len())?)?;
    tell(rt, bytes, "As differences, 3, null, 4", &mut reader)
}

fn booleans(rt: &HostRuntime) -> anyhow::Result<()> {
    let mut buf = [0; 16];
    let mut sink = BufferSink::new(&mut buf);
    put_booleans(Listed::new(&BOOLEANS), &mut sink)?;
    let bytes = sink.filled();
    let mut reader = BooleanDecoder::new();
    reader.open(bytes, Range::new(0, bytes.len())?)?;
    tell(rt, bytes, "As booleans, false, false, true", &mut reader)
}

// The second form of booleans, in which false alone takes no bytes.
fn maybe_booleans(rt: &HostRuntime) -> anyhow::Result<()> {
    let mut buf = [0; 16];
    let mut sink = BufferSink::new(&mut buf);
    put_maybe_booleans(Listed::new(&BOOLEANS[..2]), &mut sink)?;
    println!(rt;
        "Where false alone takes no bytes, false, false take {}.",
        sink.count()
    )?;
    Ok(())
}

// A column that arrives damaged: the entries before the fault, and then the fault.
fn damaged(rt: &HostRuntime) -> anyhow::Result<()> {
    let mut reader: RleDecoder<'_, Unsigned> = RleDecoder::new();
    reader.open(&DAMAGED, Range::new(0, DAMAGED.len())?)?;
    println!(rt; "{} is read as", hex(rt.alloc(), &DAMAGED)?)?;
    for _ in 0..MOST {
        match reader.entry() {
            Ok(Some(Some(number))) => println!(rt; "  {number}")?,
            Ok(Some(None)) => println!(rt; "  null")?,
            Ok(None) => break,
            Err(fault) => println!(rt; "  refusal {}: {}", fault.number(), fault.cause())?,
        }
    }
    println!(rt; "  and then the end.")?;
    Ok(())
}

pub(crate) fn columns(rt: &HostRuntime) -> anyhow::Result<()> {
    runs(rt)?;
    deltas(rt)?;
    booleans(rt)?;
    maybe_booleans(rt)?;
    damaged(rt)
}
