// Reading a run column, entry by entry.
ghost use Rattle.std.specs.Prelude.{◌≡◌, true, [], length, take, is_err, IfErr, if◌then◌else◌, OnOk, Err, nat_le};
ghost use Rattle.columns.specs.Ranges.{opening};
ghost use Rattle.columns.specs.Column.{remains, entries, next_by, first, others, none};

use crate::cursor::Cursor;
use crate::fault::ColumnFault;
use crate::range::{Range, RangeRefused};
use crate::rle::RleDecoder;
use crate::rle::header::{read_element, read_header};
use crate::rle::run::{Head, Placed, Run};
use codec::element::Decodable;

impl<'a, E: Decodable<'a>> RleDecoder<'a, E> {
    // A reader at its end.
    pub fn new() -> RleDecoder<'a, E>
        ensures { remains E.reads E.means result ≡ [] }
    {
        RleDecoder {
            cursor: Cursor::new(),
            head: Head::empty(),
        }
    }

    // Goes to the start of a column. Where its range ends beyond the data, all stays as it is.
    // The readers of runs, differences, booleans and bytes each say so of themselves: a trait for the four would
    // say `answer` and `kept` once, but have each caller import it and each impl say what is left.
    pub fn open(&mut self, data: &'a [u8], range: Range) -> Result<(), RangeRefused>
        ensures answer { result ≡ opening (length «data».now) range.end }
        ensures after { remains E.reads E.means self.new ≡ (if nat_le range.end (length «data».now) then entries E.reads (take range.end «data».now) range.start else remains E.reads E.means self.old) }
        ensures kept { is_err result ≡ true → self.new ≡ self.old }
    {
        self.cursor = Cursor::open(data, range)?;
        self.head = Head::empty();
        Ok(())
    }

    // Whether no bytes and no run are left.
    pub fn done(&self) -> bool
        ensures { result ≡ none (remains E.reads E.means self.now) }
    {
        self.head.count == 0 && self.cursor.at_end()
    }

    // Goes to the end.
    pub fn close(&mut self)
        ensures { remains E.reads E.means self.new ≡ [] }
    {
        self.cursor.close();
        self.head.count = 0;
    }

    // The next entry: nothing at the end, and a null or an element before it. After a fault, and
    // after the end, it is the end ever after.
    pub fn next(&mut self) -> Result<Option<Option<Placed<E>>>, ColumnFault>
        ensures answer { next_by E.means result ≡ first (remains E.reads E.means self.old) }
        ensures after { remains E.reads E.means self.new ≡ others (remains E.reads E.means self.old) }
    {
        let next = self.try_next();
        if next.is_err() {
            self.close();
        }
        next
    }

    // The same, where the reader stays at a fault.
    fn try_next(&mut self) -> Result<Option<Option<Placed<E>>>, ColumnFault>
        ensures answer { next_by E.means result ≡ first (remains E.reads E.means self.old) }
        ensures after { OnOk result (remains E.reads E.means self.new ≡ others (remains E.reads E.means self.old)) }
    {
        self.settle()?;
        let Some(run) = self.head.take() else {
            return Ok(None);
        };
        let element = match run {
            Run::Null => return Ok(Some(None)),
            Run::Same(element) => element,
            Run::Literal => {
                let (element, used) = read_element(self.cursor.rest())?;
                self.cursor.step(used);
                element
            }
        };
        Ok(Some(Some(Placed {
            element,
            end: self.cursor.place(),
        })))
    }

    // Reads headers up to a run that is not empty, or the end.
    fn settle(&mut self) -> Result<(), ColumnFault>
        ensures same { (first (remains E.reads E.means self.new) ≡ first (remains E.reads E.means self.old)) × (others (remains E.reads E.means self.new) ≡ others (remains E.reads E.means self.old)) }
        ensures ended { OnOk result (self.new.head.count ≡ 0 → remains E.reads E.means self.new ≡ []) }
        ensures fault { IfErr result (λ f. first (remains E.reads E.means self.old) ≡ Err f) }
    {
        while self.head.count == 0 && !self.cursor.at_end() {
            let (head, used) = read_header(self.cursor.rest())?;
            self.cursor.step(used);
            self.head = head;
        }
        Ok(())
    }
}
