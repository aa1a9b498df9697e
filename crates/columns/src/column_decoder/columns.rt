// The columns that are read by values.
ghost use Rattle.std.specs.Prelude.{◌≡◌, ℕ, ◌-◌, Bool, List, length, ℤ};
ghost use Rattle.codec.specs.Elements.{reads_unsigned, reads_text};
ghost use Rattle.columns.specs.Column.{Entry, others, remains};
ghost use Rattle.columns.specs.ColErrors.{seen_option};
ghost use Rattle.columns.specs.Deltas.{deltas_left};
ghost use Rattle.columns.specs.Flags.{flags_left};
ghost use Rattle.columns.specs.Values.{value, text_value, text_seen, TextsStand};

use crate::boolean::BooleanDecoder;
use crate::column_decoder::ColumnDecoder;
use crate::delta::DeltaDecoder;
use crate::fault::ColumnFault;
use crate::rle::RleDecoder;
use crate::rle::run::Placed;
use codec::element::number::Unsigned;
use codec::element::text::Text;

// A text of the data, and where in the data it stands.
#[derive(Clone, Copy, Debug, PartialEq, Eq)]
pub struct TextPart<'a> {
    pub text: &'a str,
    pub place: usize,
}

impl<'a> TextPart<'a> {
    // A text stands right before the end of its code.
    fn new(read: Placed<Text<'a>>) -> TextPart<'a>
        ensures { text_seen result ≡ (read.entry.element.part.now, read.entry.end - length read.entry.element.part.now) }
    {
        let text = read.element.as_str();
        TextPart {
            text,
            place: read.end.saturating_sub(text.len()),
        }
    }
}

impl<'a> ColumnDecoder for RleDecoder<'a, Unsigned> {
    type Value = u64;

    type Error = ColumnFault;

    ghost Seen = { ℕ };

    ghost seen = { λ n. n };

    ghost Left = { List (Entry ℕ) };

    ghost left = { remains reads_unsigned (λ x. x.value) };

    ghost tells = { value };

    ghost leaves = { others };

    fn maybe_next(&mut self) -> Result<Option<u64>, ColumnFault> {
        Ok(self.next()?.flatten().map(|number| number.element.value))
    }
}

impl<'a> ColumnDecoder for DeltaDecoder<'a> {
    type Value = i64;

    type Error = ColumnFault;

    ghost Seen = { ℤ };

    ghost seen = { λ z. z };

    ghost Left = { List (Entry ℤ) };

    ghost left = { deltas_left };

    ghost tells = { value };

    ghost leaves = { others };

    fn maybe_next(&mut self) -> Result<Option<i64>, ColumnFault> {
        Ok(self.next()?.flatten())
    }
}

impl<'a> ColumnDecoder for BooleanDecoder<'a> {
    type Value = bool;

    type Error = ColumnFault;

    ghost Seen = { Bool };

    ghost seen = { λ b. b };

    ghost Left = { List (Entry Bool) };

    ghost left = { flags_left };

    ghost tells = { value };

    ghost leaves = { others };

    fn maybe_next(&mut self) -> Result<Option<bool>, ColumnFault> {
        self.next()
    }
}

// Not one impl with that of numbers: a text has its place, and a clause of its own that says so.
impl<'a> ColumnDecoder for RleDecoder<'a, Text<'a>> {
    type Value = TextPart<'a>;

    type Error = ColumnFault;

    ghost Seen = { List ℕ × ℕ };

    ghost seen = { text_seen };

    ghost Left = { List (Entry (List ℕ)) };

    ghost left = { remains reads_text (λ x. x.part.now) };

    ghost tells = { text_value };

    ghost leaves = { others };

    // The trait's clauses are said again, since an impl's own clauses stand in their place.
    fn maybe_next(&mut self) -> Result<Option<TextPart<'a>>, ColumnFault>
        ensures answer { seen_option text_seen result ≡ text_value (remains reads_text (λ x. x.part.now) self.old) }
        ensures after { remains reads_text (λ x. x.part.now) self.new ≡ others (remains reads_text (λ x. x.part.now) self.old) }
        ensures places { TextsStand }
    {
        Ok(self.next()?.flatten().map(TextPart::new))
    }
}
