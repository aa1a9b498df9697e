// Reading a delta column.
ghost use Rattle.std.specs.Prelude.{◌≡◌, true, [], length, take, pos, is_err, if◌then◌else◌, nat_le};
ghost use Rattle.codec.specs.Elements.{reads_signed};
ghost use Rattle.columns.specs.Ranges.{opening};
ghost use Rattle.columns.specs.Column.{entries, others, none};
ghost use Rattle.columns.specs.Deltas.{summed, first_number, deltas_left};

use crate::delta::DeltaDecoder;
use crate::fault::ColumnFault;
use crate::range::{Range, RangeRefused};
use crate::rle::RleDecoder;

impl<'a> DeltaDecoder<'a> {
    // A reader at its end.
    pub fn new() -> DeltaDecoder<'a>
        ensures { deltas_left result ≡ [] }
    {
        DeltaDecoder {
            rle: RleDecoder::new(),
            absolute_val: 0,
        }
    }

    // Goes to the start of a column. Where its range ends beyond the data, all stays as it is.
    pub fn open(&mut self, data: &'a [u8], range: Range) -> Result<(), RangeRefused>
        ensures answer { result ≡ opening (length «data».now) range.end }
        ensures after { deltas_left self.new ≡ (if nat_le range.end (length «data».now) then summed (pos 0) (entries reads_signed (take range.end «data».now) range.start) else deltas_left self.old) }
        ensures kept { is_err result ≡ true → self.new ≡ self.old }
    {
        self.rle.open(data, range)?;
        self.absolute_val = 0;
        Ok(())
    }

    // Whether no bytes and no run are left.
    pub fn done(&self) -> bool
        ensures { result ≡ none (deltas_left self.now) }
    {
        self.rle.done()
    }

    // Goes to the end.
    pub fn close(&mut self)
        ensures { deltas_left self.new ≡ [] }
    {
        self.rle.close();
    }

    // The next number or null, and nothing at the end. After a fault, and after the end, it is the
    // end ever after.
    pub fn next(&mut self) -> Result<Option<Option<i64>>, ColumnFault>
        ensures answer { result ≡ first_number (deltas_left self.old) }
        ensures after { deltas_left self.new ≡ others (deltas_left self.old) }
    {
        // A match: with one closure within another the proof did not close.
        Ok(match self.rle.next()? {
            None => None,
            Some(None) => Some(None),
            Some(Some(difference)) => {
                self.absolute_val = self.absolute_val.saturating_add(difference.element.value);
                Some(Some(self.absolute_val))
            }
        })
    }
}
