// Reading a raw column.
ghost use Rattle.std.specs.Prelude.{◌≡◌, true, [], length, take, is_err, if◌then◌else◌, nat_le};
ghost use Rattle.columns.specs.Ranges.{opening};
ghost use Rattle.columns.specs.Raws.{raw_left, raw_at, raw_after, part_seen};

use crate::cursor::Cursor;
use crate::fault::ColumnFault;
use crate::range::{Range, RangeRefused};
use crate::raw::{Part, RawDecoder};
use codec::element::fault::ElementFault;

impl<'a> RawDecoder<'a> {
    // A reader at its end.
    pub fn new() -> RawDecoder<'a>
        ensures { raw_left result ≡ ([], 0) }
    {
        RawDecoder {
            cursor: Cursor::new(),
        }
    }

    // Goes to the start of a column. Where its range ends beyond the data, all stays as it is.
    pub fn open(&mut self, data: &'a [u8], range: Range) -> Result<(), RangeRefused>
        ensures answer { result ≡ opening (length «data».now) range.end }
        ensures after { raw_left self.new ≡ (if nat_le range.end (length «data».now) then (take range.end «data».now, range.start) else raw_left self.old) }
        ensures kept { is_err result ≡ true → self.new ≡ self.old }
    {
        self.cursor = Cursor::open(data, range)?;
        Ok(())
    }

    // The next so many bytes, with their place in the data. Where some are missing, the reader is at
    // its end.
    pub fn read_bytes(&mut self, count: u64) -> Result<Part<'a>, ColumnFault>
        ensures answer { part_seen result ≡ raw_at (raw_left self.old) count }
        ensures after { raw_left self.new ≡ raw_after (raw_left self.old) count }
    {
        let place = self.cursor.place();
        let rest = self.cursor.rest();
        if count > rest.len() as u64 {
            self.cursor.close();
            return Err(ColumnFault::Element(ElementFault::PastEnd));
        }
        let count = count as usize;
        self.cursor.step(count);
        Ok(Part {
            bytes: &rest[..count],
            place,
        })
    }
}
