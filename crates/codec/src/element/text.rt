// Text as elements: parts of the input, of which nothing is copied.
ghost use Rattle.std.specs.Prelude.{◌≡◌, ℕ, ◌^◌, ◌<◌, true, false, List, [], length, is_ok, is_err, if◌then◌else◌, MatchResult};
ghost use Rattle.codec.specs.Utf8.{valid};
ghost use Rattle.codec.specs.Elements.{reads_text, text_code, TextElement, checked};
ghost use Rattle.codec.specs.Laws.Kinds.{text_laws};
ghost use Rattle.codec.specs.declared.element.fault.ElementFault.TheVariants.{NotUtf8};

use crate::element::fault::ElementFault;
use crate::element::{Decodable, Encodable};
use crate::encoding::leb128::write_leb128;
use crate::encoding::{Output, SinkRefused, append};
use crate::parse::leb128::read_leb128;
use crate::parse::utf8::is_utf8;

// A text: a part of bytes that live for 'a. It is made empty or of the
// language's own text, and filled with bytes only by the UTF-8 check.
#[derive(Clone, Copy, Debug, PartialEq, Eq, PartialOrd, Ord)]
pub struct Text<'a> {
    part: &'a [u8],
    ghost sound: { valid part.now ≡ true },
    ghost short: { length part.now < 2 ^ 64 },
}

impl<'a> Text<'a> {
    // The bytes become this text, where they are UTF-8; else the cause, and it is unchanged.
    pub fn fill(&mut self, bytes: &'a [u8]) -> Result<(), ElementFault>
        ensures answer { result ≡ checked (valid bytes.now) }
        ensures place { self.new.part.now ≡ (if is_ok result then bytes.now else self.old.part.now) }
        ensures kept { is_err result ≡ true → self.new ≡ self.old }
    {
        if !is_utf8(bytes) {
            return Err(ElementFault::NotUtf8);
        }
        *self = Text { part: bytes };
        Ok(())
    }

    // Its bytes.
    pub fn as_bytes(&self) -> &'a [u8]
        ensures { result.now ≡ self.now.part.now }
    {
        self.part
    }

    // The same as the language has text.
    pub fn as_str(&self) -> &'a str
        ensures { result.now ≡ self.now.part.now }
    {
        // SAFETY: the bytes are UTF-8, which is proved.
        unsafe { std::str::from_utf8_unchecked(self.part) }
    }
}

// What the language has as text is text: it was checked where it was made.
impl<'a> From<&'a str> for Text<'a> {
    ghost from_gives = { λ text r. r.part.now ≡ text.now };

    fn from(text: &'a str) -> Text<'a> {
        Text {
            part: text.as_bytes(),
        }
    }
}

// Bytes are text where they are UTF-8.
impl<'a> TryFrom<&'a [u8]> for Text<'a> {
    type Error = ElementFault;

    ghost try_from_gives = { λ bytes r. MatchResult r (λ text. (valid bytes.now ≡ true) × (text.part.now ≡ bytes.now)) (λ fault. (valid bytes.now ≡ false) × (fault ≡ NotUtf8)) };

    fn try_from(bytes: &'a [u8]) -> Result<Text<'a>, ElementFault> {
        let mut text = Text::blank();
        text.fill(bytes)?;
        Ok(text)
    }
}

impl<'a> Decodable<'a> for Text<'a> {
    ghost Means = { List ℕ };

    ghost means = { λ x. x.part.now };

    ghost code = { text_code };

    ghost reads = { reads_text };

    ghost Element = { TextElement };

    ghost holds = { λ x. (x.sound, x.short) };

    ghost laws = { text_laws };

    ghost first = { [] };

    fn blank() -> Text<'a> {
        Text { part: &[] }
    }

    #[tactic(auto, unfolding(crate::specs::Elements::reads_text))]
    fn decode(&mut self, bytes: &'a [u8]) -> Result<usize, ElementFault> {
        let (len, used) = read_leb128::<u64>(bytes)?;
        if len > (bytes.len() - used) as u64 {
            return Err(ElementFault::PastEnd);
        }
        let end = used + len as usize;
        self.fill(&bytes[used..end])?;
        Ok(end)
    }
}

impl<'a> Encodable<'a> for Text<'a> {
    fn encode<O: Output>(&self, out: &mut O) -> Result<(), SinkRefused> {
        let bytes = self.as_bytes();
        write_leb128(out, bytes.len() as u64)?;
        append(out, bytes)
    }

    fn same(&self, other: &Text<'a>) -> bool {
        self == other
    }
}
