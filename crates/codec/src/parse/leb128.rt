// How numbers are read: LEB128 as DWARF defines it, in its shortest form only.
ghost use Rattle.std.specs.Prelude.{◌≡◌, IfOk};
ghost use Rattle.codec.specs.Leb128.{Exact, Used, read_as};

use crate::integer::Integer;
use crate::parse::fault::NumberFault;
use crate::parse::frame::{at_place, frame_at};

// The number that the bytes start with, and how many bytes it takes.
pub fn read_leb128<N: Integer>(bytes: &[u8]) -> Result<(N, usize), NumberFault>
    ensures answer { read_as N.means result ≡ N.reads bytes.now }
    ensures exact { Exact N.value N.fits bytes.now (read_as N.means result) }
    ensures used { IfOk result (λ p. Used bytes.now p.1) }
{
    let frame = frame_at(bytes)?;
    let Some(bits) = frame.bits(N::TOP) else {
        return Err(NumberFault::TooLarge);
    };
    let Some(number) = N::from_bits(bits) else {
        return Err(NumberFault::TooLarge);
    };
    // one byte fewer would hold all bits below this
    if frame.used > 1 && bits.magnitude < at_place(N::TOP, frame.used - 2) {
        return Err(NumberFault::Overlong);
    }
    Ok((number, frame.used))
}
