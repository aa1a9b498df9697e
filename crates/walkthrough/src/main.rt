// A short tour of the library, told in print: numbers are measured, go out to a buffer and come
// back; a full buffer refuses; what was written is compared; damaged bytes are refused with their
// cause; a text goes out as an element and comes back; and so do whole columns.

#![tactic(auto)]

// columns, written and read back
mod card;
// writing a list of numbers, and reading it back
mod list;
// printing bytes
mod show;

use codec::element::text::Text;
use codec::element::{Decodable, put_element};
use codec::encoding::buffer::BufferSink;
use codec::encoding::check::CheckSink;
use codec::encoding::counter::Counter;
use codec::encoding::{Output, Sink, SinkRefused};
use codec::integer::Integer;
use codec::parse::leb128::read_leb128;
use codec::refusal::{Fault, Refusal};
use list::{read_list, write_list};
use show::hex;
use std::fmt::Display;

const NUMBERS: [u64; 4] = [5, 127, 128, 300];

const OTHERS: [u64; 4] = [5, 127, 129, 300];

// Codes of unsigned and of signed numbers: a good one first, then damaged ones.
const UNSIGNED: [&[u8]; 4] = [
    &[0xac, 0x02, 0x05],
    &[0xac],
    &[0xac, 0x82, 0x00],
    &[0xff, 0xff, 0xff, 0xff, 0xff, 0xff, 0xff, 0xff, 0xff, 0x02],
];

const SIGNED: [&[u8]; 2] = [&[0xbf, 0x7f], &[0xff, 0x7f]];

// How many bytes the list takes: the writer, told to an output that only counts.
fn measure(rt: &HostRuntime) -> anyhow::Result<()> {
    let mut counter = Counter::new();
    println!(rt; "The numbers 5, 127, 128 and 300 are to be written.")?;
    write_list(&mut counter, &NUMBERS)?;
    println!(rt; "Counted first, they take {} bytes.", counter.told())?;
    Ok(())
}

// Writes the list to a buffer that has room, shows its bytes, and reads it back.
fn there_and_back(rt: &HostRuntime) -> anyhow::Result<()> {
    let mut buf = [0; 16];
    let mut sink = BufferSink::new(&mut buf);
    write_list(&mut sink, &NUMBERS)?;
    let bytes = sink.filled();
    println!(rt;
        "A buffer of 16 bytes takes them all: {}.",
        hex(rt.alloc(), bytes)?
    )?;
    println!(rt; "Read back, these are {}.", read_list(rt.alloc(), bytes)?)?;
    compare(rt, bytes, &NUMBERS, "the same numbers")?;
    compare(rt, bytes, &OTHERS, "5, 127, 129 and 300")
}

// Writes a list against bytes that are there already.
fn compare(rt: &HostRuntime, bytes: &[u8], numbers: &[u64], name: &str) -> anyhow::Result<()> {
    let mut check = CheckSink::new(bytes);
    match write_list(&mut check, numbers) {
        Ok(()) => println!(rt; "Compared with {name}, they agree.")?,
        Err(SinkRefused) => println!(rt;
            "Compared with {name}, they part after {} bytes.",
            check.count()
        )?,
    }
    Ok(())
}

// The same list into a buffer that is too short.
fn full_buffer(rt: &HostRuntime) -> anyhow::Result<()> {
    let mut buf = [0; 5];
    let mut sink = BufferSink::new(&mut buf);
    if let Err(refused) = write_list(&mut sink, &NUMBERS) {
        println!(rt;
            "A buffer of 5 bytes refuses the sixth: refusal {}.",
            refused.number()
        )?;
    }
    println!(rt;
        "It holds the longest beginning that it took: {}.",
        hex(rt.alloc(), sink.filled())?
    )?;
    Ok(())
}

// Good bytes, and damaged ones.
fn damaged(rt: &HostRuntime) -> anyhow::Result<()> {
    println!(rt; "Bytes that arrive may be damaged. Unsigned:")?;
    for bytes in UNSIGNED {
        tell_number::<u64>(rt, bytes)?;
    }
    println!(rt; "And signed:")?;
    for bytes in SIGNED {
        tell_number::<i64>(rt, bytes)?;
    }
    Ok(())
}

// The number that bytes start with, or why it is refused.
fn tell_number<N: Integer + Display>(rt: &HostRuntime, bytes: &[u8]) -> anyhow::Result<()> {
    match read_leb128::<N>(bytes) {
        Ok((number, used)) => println!(rt;
            "{} is {number}, from {used} of its bytes.",
            hex(rt.alloc(), bytes)?
        )?,
        Err(fault) => tell_fault(rt, bytes, fault)?,
    }
    Ok(())
}

// Why bytes were refused.
fn tell_fault(rt: &HostRuntime, bytes: &[u8], fault: impl Fault) -> anyhow::Result<()> {
    println!(rt;
        "{} is refused as {}: {}.",
        hex(rt.alloc(), bytes)?,
        fault.number(),
        fault.cause()
    )?;
    Ok(())
}

// A text goes out as an element: the length of its bytes, and the bytes.
fn text_out(rt: &HostRuntime, words: &str) -> anyhow::Result<()> {
    let mut buf = [0; 16];
    let mut sink = BufferSink::new(&mut buf);
    put_element(&mut sink, &Text::from(words))?;
    println!(rt;
        "The text {words} goes out as {}.",
        hex(rt.alloc(), sink.filled())?
    )?;
    text_in(rt, sink.filled())
}

// And in again: the text is a part of the bytes, of which nothing is copied.
fn text_in(rt: &HostRuntime, bytes: &[u8]) -> anyhow::Result<()> {
    let mut text = Text::blank();
    match text.decode(bytes) {
        Ok(used) => println!(rt; "Read back, it is {}, from {used} bytes.", text.as_str())?,
        Err(fault) => tell_fault(rt, bytes, fault)?,
    }
    Ok(())
}

fn texts(rt: &HostRuntime) -> anyhow::Result<()> {
    text_out(rt, "Tür")?;
    println!(rt; "Damaged texts are refused too.")?;
    text_in(rt, &[0x04, 0x54, 0xc3, 0xbc])?;
    text_in(rt, &[0x04, 0x54, 0xc3, 0x3c, 0x72])
}

fn run(rt: &HostRuntime) -> anyhow::Result<()> {
    measure(rt)?;
    there_and_back(rt)?;
    full_buffer(rt)?;
    damaged(rt)?;
    texts(rt)?;
    card::columns(rt)
}

fn main(rt: HostRuntime) -> anyhow::Result<()> {
    run(&rt)
}
