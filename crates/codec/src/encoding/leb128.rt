// How numbers are written: LEB128 as DWARF defines it, in its shortest form.
ghost use Rattle.std.specs.Prelude.{◌≡◌, ◌<◌, ◌≤◌, length, is_ok};
ghost use Rattle.codec.specs.Feed.{Fed};
ghost use Rattle.codec.specs.Sinks.{Told};
ghost use Rattle.codec.specs.Leb128.{group, groups, Returns};

use crate::encoding::{Output, Sink, SinkRefused};
use crate::integer::{Bits, Integer};

impl Bits {
    // Seven of the bits as a group, all inverted for a negative number.
    fn group(self, seven: u8) -> u8
        requires { seven < 128 }
        ensures { result ≡ group self.negative seven }
    {
        if self.negative { 127 - seven } else { seven }
    }
}

// The groups of a number, the lowest first, up to the first that is below `top` and has none behind
// it.
fn write_groups<O: Output>(out: &mut O, bits: Bits, top: u64) -> Result<(), SinkRefused>
    requires { (0 < top) × (top ≤ 128) }
    ensures { Fed O.takes O.step (O.state out.old) (groups top bits.negative bits.magnitude) (is_ok result) (O.state out.new) }
{
    let mut rest = bits.magnitude;
    while rest >= top {
        out.tell(128 + bits.group((rest % 128) as u8))?;
        rest /= 128;
    }
    out.tell(bits.group(rest as u8))
}

// The number in its shortest form.
pub fn write_leb128<N: Integer, O: Output>(out: &mut O, val: N) -> Result<(), SinkRefused>
    ensures wrote { Fed O.takes O.step (O.state out.old) (N.code (N.means val)) (is_ok result) (O.state out.new) }
    ensures code { Returns N.value N.reads (N.means val) (N.code (N.means val)) }
{
    write_groups(out, val.to_bits(), u64::from(N::TOP))
}

// The number to a sink, by what it then holds: the whole code, or the longest beginning that it
// took.
pub fn put_leb128<N: Integer, S: Sink>(sink: &mut S, val: N) -> Result<(), SinkRefused>
    ensures told { Told S.rule (S.holds sink.old) (N.code (N.means val)) (is_ok result) (S.holds sink.new) }
    ensures code { Returns N.value N.reads (N.means val) (N.code (N.means val)) }
{
    write_leb128(sink, val)
}

// How many bytes the number takes: seven bits of it in each, of which the last leaves one for the
// sign if there is one.
pub fn lebsize<N: Integer>(val: N) -> u64
    ensures size { result ≡ length (N.code (N.means val)) }
    ensures some { 1 ≤ result }
    ensures few { result ≤ 10 }
{
    let bits = val.to_bits().magnitude * (128 / u64::from(N::TOP));
    if bits == 0 {
        return 1;
    }
    (64 - bits.leading_zeros() as u64).div_ceil(7)
}
