// Where the reader of a column stands.
ghost use Rattle.std.specs.Prelude.{◌≡◌, ◌+◌, ◌≤◌, [], length, take, drop, is_ok, IfOk, IfErr, nat_le};
ghost use Rattle.columns.specs.declared.range.RangeRefused.TheVariants.{EndBeyondData};

use crate::range::{Range, RangeRefused};

// A place in data that go up to the column's end. It is kept as a number, since readers tell where in
// the data an element stands.
#[derive(Clone, Copy)]
pub(crate) struct Cursor<'a> {
    bytes: &'a [u8],
    offset: usize,
    ghost inside: { offset ≤ length bytes.now },
}

impl<'a> Cursor<'a> {
    // At the end of no data.
    pub(crate) fn new() -> Cursor<'a>
        ensures { (result.bytes.now ≡ []) × (result.offset ≡ 0) }
    {
        Cursor {
            bytes: &[],
            offset: 0,
        }
    }

    // At the start of a column, where its range does not end beyond the data.
    pub(crate) fn open(data: &'a [u8], range: Range) -> Result<Cursor<'a>, RangeRefused>
        ensures fits { is_ok result ≡ nat_le range.end (length «data».now) }
        ensures there { IfOk result (λ c. (c.bytes.now ≡ take range.end «data».now) × (c.offset ≡ range.start)) }
        ensures refused { IfErr result (λ e. e ≡ EndBeyondData) }
    {
        if range.end() > data.len() {
            return Err(RangeRefused::EndBeyondData);
        }
        Ok(Cursor {
            bytes: &data[..range.end()],
            offset: range.start(),
        })
    }

    // Its place in the data.
    pub(crate) fn place(&self) -> usize
        ensures { result ≡ self.now.offset }
    {
        self.offset
    }

    // What is left of the data.
    pub(crate) fn rest(&self) -> &'a [u8]
        ensures { result.now ≡ drop self.now.offset self.now.bytes.now }
    {
        &self.bytes[self.offset..]
    }

    // Whether no data are left.
    pub(crate) fn at_end(&self) -> bool
        ensures { result ≡ nat_le (length self.now.bytes.now) self.now.offset }
    {
        self.offset >= self.bytes.len()
    }

    // Goes over the next so many bytes.
    pub(crate) fn step(&mut self, count: usize)
        requires { self.old.offset + count ≤ length self.old.bytes.now }
        ensures { (self.new.bytes ≡ self.old.bytes) × (self.new.offset ≡ self.old.offset + count) }
    {
        self.offset += count;
    }

    // Goes to the end.
    pub(crate) fn close(&mut self)
        ensures { (self.new.bytes ≡ self.old.bytes) × (self.new.offset ≡ length self.new.bytes.now) }
    {
        self.offset = self.bytes.len();
    }
}
