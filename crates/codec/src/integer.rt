// The integers that have a code: those of 64 bits, without a sign and with one.
ghost use Rattle.std.specs.Prelude.{◌≡◌, ℕ, ◌<◌, Bool, true, false, List, ℤ, pos, Result, MatchOption, Decides, refl};
ghost use Rattle.std.specs.Cmp.{unsigned_Decides, signed_Decides};
ghost use Rattle.codec.specs.declared.parse.fault.NumberFault.{NumberFault};
ghost use Rattle.codec.specs.Leb128.{unsigned, signed, uleb, sleb, fits_u64, fits_i64, read_unsigned, read_signed, number_at};
ghost use Rattle.codec.specs.Frames.{number_of, plain_number};
ghost use Rattle.codec.specs.Laws.Codes.{Coding};
ghost use Rattle.codec.specs.Laws.Spelling.{Spelling, unsigned_spelling, signed_spelling};
ghost use Rattle.codec.specs.Laws.Numbers.{unsigned_coding, signed_coding, unsigned_reads, signed_reads};

// An integer by its sign and its bits, which are inverted where it is negative: -1 - n is n with
// every bit inverted.
#[derive(Clone, Copy)]
pub struct Bits {
    pub negative: bool,
    pub magnitude: u64,
}

// An integer that has a code. The code's groups are those of its bits, for every kind of integer.
pub trait Integer: Copy + PartialEq {
    // which number a value is
    ghost Means: { Type 0 };

    ghost means: { Self → Means };

    // what bytes are worth, which numbers fit the type, the code of each, and what reading gives
    ghost value: { List ℕ → Means };

    ghost fits: { Means → Bool };

    ghost code: { Means → List ℕ };

    ghost reads: { List ℕ → Result (Means × ℕ) NumberFault };

    // the number of a sign and bits
    ghost number: { Bool → ℕ → Means };

    const ZERO: Self;

    ghost ZERO: { Self };

    // The last group of a code is below this: seven bits, or six where the highest is the sign.
    const TOP: u8;

    ghost TOP: { ℕ };

    // The laws are data, so that a kind of elements can cite them.
    ghost zero: { fits (means ZERO) ≡ true };

    ghost coding: { Coding value fits code };

    ghost reading: { (bytes : List ℕ) → reads bytes ≡ number_at value fits code bytes };

    ghost spelling: { Spelling TOP value fits code number };

    // Its sign and bits.
    fn to_bits(self) -> Bits
        ensures is { number result.negative result.magnitude ≡ means self }
        ensures fits { fits (means self) ≡ true }
        ensures sign { result.negative ≡ true → TOP ≡ 64 };

    // The integer of a sign and bits, where it fits.
    fn from_bits(bits: Bits) -> Option<Self>
        ensures { MatchOption result (fits (number bits.negative bits.magnitude) ≡ false) (λ x. (means x ≡ number bits.negative bits.magnitude) × (fits (number bits.negative bits.magnitude) ≡ true)) };

    ghost same: { (x y : Self) → Decides (Self.PartialEq.eq x y) (means x ≡ means y) };
}

impl Integer for u64 {
    ghost Means = { ℕ };

    ghost means = { λ n. n };

    ghost value = { unsigned };

    ghost fits = { fits_u64 };

    ghost code = { uleb };

    ghost reads = { read_unsigned };

    ghost number = { plain_number };

    const ZERO: u64 = 0;

    ghost ZERO = { 0 };

    const TOP: u8 = 128;

    ghost TOP = { 128 };

    ghost zero = { refl };

    ghost coding = { unsigned_coding };

    ghost reading = { unsigned_reads };

    ghost spelling = { unsigned_spelling };

    fn to_bits(self) -> Bits {
        Bits {
            negative: false,
            magnitude: self,
        }
    }

    fn from_bits(bits: Bits) -> Option<u64> {
        Some(bits.magnitude)
    }

    ghost same = { unsigned_Decides };
}

impl Integer for i64 {
    ghost Means = { ℤ };

    ghost means = { λ z. z };

    ghost value = { signed };

    ghost fits = { fits_i64 };

    ghost code = { sleb };

    ghost reads = { read_signed };

    ghost number = { number_of };

    const ZERO: i64 = 0;

    ghost ZERO = { pos 0 };

    const TOP: u8 = 64;

    ghost TOP = { 64 };

    ghost zero = { refl };

    ghost coding = { signed_coding };

    ghost reading = { signed_reads };

    ghost spelling = { signed_spelling };

    fn to_bits(self) -> Bits {
        let negative = self < 0;
        let magnitude = if negative { -1 - self } else { self };
        Bits {
            negative,
            magnitude: magnitude as u64,
        }
    }

    fn from_bits(bits: Bits) -> Option<i64> {
        let magnitude = i64::try_from(bits.magnitude).ok()?;
        if bits.negative {
            Some(-1 - magnitude)
        } else {
            Some(magnitude)
        }
    }

    ghost same = { signed_Decides };
}
