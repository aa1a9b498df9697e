// Text: UTF-8 as RFC 3629 has it.
ghost use Rattle.std.specs.Prelude.{◌≡◌, ◌-◌, ◌≤◌, true, false, length, IsUtf8, Decides, MatchOption};
ghost use Rattle.std.specs.Range.{range_inclusive_start, range_inclusive_end, range_inclusive_exhausted};
ghost use Rattle.codec.specs.Utf8.{low_of, high_of, follows, char_at, valid, Octets};

use crate::parse::first::char_len;
use std::ops::RangeInclusive;

// The bytes below this are characters of their own.
const ASCII: u8 = 0x80;

// So many bytes are looked at together for one that is not.
const BLOCK: usize = 16;

// The second bytes that may stand behind a first one.
fn seconds(first: u8) -> RangeInclusive<u8>
    ensures low { range_inclusive_start result ≡ low_of first }
    ensures high { range_inclusive_end result ≡ high_of first }
    ensures whole { range_inclusive_exhausted result ≡ false }
{
    match first {
        0xe0 => 0xa0..=0xbf,
        0xed => 0x80..=0x9f,
        0xf0 => 0x90..=0xbf,
        0xf4 => 0x80..=0x8f,
        _ => 0x80..=0xbf,
    }
}

// Whether the bytes, which follow a first one, are the others of a character.
fn are_tails(first: u8, bytes: &[u8]) -> bool
    ensures { result ≡ follows (length bytes.now) (low_of first) (high_of first) bytes.now }
{
    match bytes {
        [] => true,
        [second, rest @ ..] => {
            seconds(first).contains(second) && rest.iter().all(|byte| matches!(*byte, 0x80..=0xbf))
        }
    }
}

// The length of the character that the bytes start with.
fn char_at(bytes: &[u8]) -> Option<usize>
    ensures { MatchOption result (char_at bytes.now ≡ 0) (λ len. (len ≡ char_at bytes.now) × (1 ≤ len) × (len ≤ length bytes.now)) }
{
    let (first, behind) = bytes.split_first()?;
    if *first < ASCII {
        return Some(1);
    }
    let len = char_len(*first)?;
    are_tails(*first, behind.get(..len - 1)?).then_some(len)
}

// Goes past the characters that start in the first block of bytes. What stands behind them, or
// nothing where a character is missing.
fn walk(bytes: &[u8]) -> Option<&[u8]>
    ensures { MatchOption result (valid bytes.now ≡ false) (λ rest. (valid bytes.now ≡ valid rest.now) × (length rest.now ≤ length bytes.now - 16)) }
{
    let stop = bytes.len().saturating_sub(BLOCK);
    let mut rest = bytes;
    while rest.len() > stop {
        rest = &rest[char_at(rest)?..];
    }
    Some(rest)
}

// Whether the bytes are text.
pub fn is_utf8(bytes: &[u8]) -> bool
    ensures answer { result ≡ valid bytes.now }
    ensures grammar { Decides result (Octets bytes.now) }
{
    let mut left = bytes;
    while !left.is_empty() {
        left = match left.split_first_chunk::<BLOCK>() {
            Some((block, behind)) if block.is_ascii() => behind,
            _ => match walk(left) {
                Some(behind) => behind,
                None => return false,
            },
        };
    }
    true
}

// The bytes as text, exactly where they are text: the table and the proof here decide, and not
// `std::str::from_utf8`.
pub fn text(bytes: &[u8]) -> Option<&str>
    ensures cases { MatchOption result (valid bytes.now ≡ false) (λ t. (valid bytes.now ≡ true) × (t.now ≡ bytes.now)) }
    ensures language { Decides (valid bytes.now) (IsUtf8 bytes.now) }
{
    // SAFETY: the bytes are UTF-8, which is proved.
    is_utf8(bytes).then(|| unsafe { std::str::from_utf8_unchecked(bytes) })
}
