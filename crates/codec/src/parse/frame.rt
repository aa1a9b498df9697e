// The bytes of one number as groups of seven bits: where they end, and what they are worth.
ghost use Rattle.std.specs.Prelude.{◌≡◌, ℕ, ◌+◌, ◌-◌, ◌*◌, ◌^◌, ◌<◌, ◌≤◌, Bool, Err, MatchResult, MatchOption};
ghost use Rattle.codec.specs.Leb128.{frame_at};
ghost use Rattle.codec.specs.Frames.{worth, Found, Split};

use crate::integer::Bits;
use crate::parse::fault::NumberFault;

// The most bytes that the code of a 64-bit number takes.
const LONGEST: usize = 10;

// A byte's high bit: another byte follows.
const MORE: u8 = 0x80;

// The groups of a number: what those before the last are worth, the last one, and how many bytes
// they take.
#[derive(Clone, Copy)]
pub(crate) struct Frame {
    pub(crate) low: u64,
    pub(crate) last: u8,
    pub(crate) used: usize,
    ghost some: { 0 < used },
    ghost few: { used ≤ 10 },
    ghost group: { last < 128 },
    ghost below: { low < 128 ^ (used - 1) },
}

// Bits of a byte behind `i` groups.
pub(crate) fn at_place(bits: u8, i: usize) -> u64
    requires { (bits * 128 ^ i < 2 ^ 64) × (i < 10) }
    ensures { result ≡ bits * 128 ^ i }
{
    u64::from(bits) << (7 * i)
}

impl Frame {
    // What the groups are worth, where that fits 64 bits: nine groups have 63 of them.
    fn value(&self) -> Option<u64>
        ensures { MatchOption result (2 ^ 64 ≤ worth self.now.low self.now.last self.now.used) (λ n. n ≡ worth self.now.low self.now.last self.now.used) }
    {
        if self.used == LONGEST && self.last > 1 {
            return None;
        }
        Some(self.low + at_place(self.last, self.used - 1))
    }

    // The same number of groups, with every bit inverted.
    fn inverted(self) -> Frame
        ensures low { result.low + self.low + 1 ≡ 128 ^ (self.used - 1) }
        ensures last { result.last + self.last ≡ 127 }
        ensures used { result.used ≡ self.used }
    {
        let ones = at_place(1, self.used - 1) - 1;
        Frame {
            low: ones - self.low,
            last: 127 - self.last,
            used: self.used,
        }
    }

    // The sign and bits of the number that the groups make, where they fit 64 bits. From `top` on
    // the last group has a sign, and all bits are inverted.
    pub(crate) fn bits(self, top: u8) -> Option<Bits>
        requires { (64 ≤ top) × (top ≤ 128) }
        ensures { MatchOption result ((negative : Bool) × (m : ℕ) × Split top (worth self.low self.last self.used) self.used negative m × (2 ^ 64 ≤ m)) (λ b. Split top (worth self.low self.last self.used) self.used b.negative b.magnitude) }
    {
        let negative = self.last >= top;
        let frame = if negative { self.inverted() } else { self };
        let magnitude = frame.value()?;
        Some(Bits {
            negative,
            magnitude,
        })
    }
}

// The number that the bytes start with: up to the first byte with a clear high bit.
pub(crate) fn frame_at(bytes: &[u8]) -> Result<Frame, NumberFault>
    ensures { MatchResult result (λ f. Found bytes.now f.low f.last f.used) (λ e. frame_at bytes.now ≡ Err e) }
{
    let mut low = 0;
    for (i, byte) in bytes.iter().enumerate() {
        if *byte < MORE {
            return Ok(Frame {
                low,
                last: *byte,
                used: i + 1,
            });
        }
        if i + 1 == LONGEST {
            return Err(NumberFault::TooLarge);
        }
        low += at_place(*byte & 0x7f, i);
    }
    Err(NumberFault::CutShort)
}
