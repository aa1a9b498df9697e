// Reading a boolean column.
ghost use Rattle.std.specs.Prelude.{◌≡◌, true, false, [], length, take, is_err, IfErr, if◌then◌else◌, OnOk, Err, nat_le};
ghost use Rattle.columns.specs.Ranges.{opening};
ghost use Rattle.columns.specs.Column.{first, others, none};
ghost use Rattle.columns.specs.Flags.{flags, flags_left};
ghost use Rattle.columns.specs.Values.{value};

use crate::boolean::BooleanDecoder;
use crate::cursor::Cursor;
use crate::fault::ColumnFault;
use crate::range::{Range, RangeRefused};
use codec::parse::leb128::read_leb128;

impl<'a> BooleanDecoder<'a> {
    // A reader at its end.
    pub fn new() -> BooleanDecoder<'a>
        ensures { flags_left result ≡ [] }
    {
        BooleanDecoder::at(Cursor::new())
    }

    // Before the first run, which is of false.
    fn at(cursor: Cursor<'a>) -> BooleanDecoder<'a>
        ensures { flags_left result ≡ flags cursor.entry.bytes.now false cursor.entry.offset }
    {
        BooleanDecoder {
            cursor,
            count: 0,
            value: true,
        }
    }

    // Goes to the start of a column. Where its range ends beyond the data, all stays as it is.
    pub fn open(&mut self, data: &'a [u8], range: Range) -> Result<(), RangeRefused>
        ensures answer { result ≡ opening (length «data».now) range.end }
        ensures after { flags_left self.new ≡ (if nat_le range.end (length «data».now) then flags (take range.end «data».now) false range.start else flags_left self.old) }
        ensures kept { is_err result ≡ true → self.new ≡ self.old }
    {
        *self = BooleanDecoder::at(Cursor::open(data, range)?);
        Ok(())
    }

    // Whether no bytes and no run are left.
    pub fn done(&self) -> bool
        ensures { result ≡ none (flags_left self.now) }
    {
        self.count == 0 && self.cursor.at_end()
    }

    // Goes to the end.
    pub fn close(&mut self)
        ensures { flags_left self.new ≡ [] }
    {
        self.cursor.close();
        self.count = 0;
    }

    // The next flag, and nothing at the end. After a fault, and after the end, it is the end ever
    // after.
    pub fn next(&mut self) -> Result<Option<bool>, ColumnFault>
        ensures answer { result ≡ value (flags_left self.old) }
        ensures after { flags_left self.new ≡ others (flags_left self.old) }
    {
        let next = self.try_next();
        if next.is_err() {
            self.close();
        }
        next
    }

    // The same, where the reader stays at a fault.
    fn try_next(&mut self) -> Result<Option<bool>, ColumnFault>
        ensures answer { result ≡ value (flags_left self.old) }
        ensures after { OnOk result (flags_left self.new ≡ others (flags_left self.old)) }
    {
        self.settle()?;
        let Some(count) = self.count.checked_sub(1) else {
            return Ok(None);
        };
        self.count = count;
        Ok(Some(self.value))
    }

    // Reads lengths up to a run that is not empty, or the end.
    fn settle(&mut self) -> Result<(), ColumnFault>
        ensures same { (first (flags_left self.new) ≡ first (flags_left self.old)) × (others (flags_left self.new) ≡ others (flags_left self.old)) }
        ensures ended { OnOk result (self.new.count ≡ 0 → flags_left self.new ≡ []) }
        ensures fault { IfErr result (λ f. first (flags_left self.old) ≡ Err f) }
    {
        while self.count == 0 && !self.cursor.at_end() {
            let (count, used) = read_leb128::<u64>(self.cursor.rest())?;
            self.cursor.step(used);
            self.count = count;
            self.value = !self.value;
        }
        Ok(())
    }
}
