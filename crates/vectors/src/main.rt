// Answers requests from standard input, one a line, so that the library can be compared with
// another implementation of the format line by line; then those that are its arguments.
// docs/FORMAT.md has the requests.

#![tactic(auto)]

// columns that are read
mod read;
// one request and its answer
mod request;
// columns that are written
mod write;

use bstr::io::BufReadExt;
use std::env::{Env, FillError};
use std::io::{BufReader, BufWriter, Write};
use std::{env, io};

fn main(rt: HostRuntime) -> io::Result<()> {
    let heap = rt.alloc();
    let mut input = BufReader::new(heap, rt.stdin())?;
    let mut output = BufWriter::new(heap, rt.stdout())?;
    // Lines are lent where they stand: one that is read into a place of its own costs more than many an answer.
    input.for_byte_record(heap, b'\n', |line| {
        request::answer(heap, line, &mut output)?;
        Ok(true)
    })?;
    // The first is the program's name, which need be no text: it is not asked for where none is behind it.
    if !matches!(rt.arg(1, &mut []), Err(FillError::NotPresent)) {
        for line in env::args(&rt)?.skip(1) {
            request::answer(heap, line.as_bytes(), &mut output)?;
        }
    }
    output.flush()
}
