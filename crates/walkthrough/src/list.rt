// A list of numbers, one code behind the other.
ghost use Rattle.std.specs.Prelude.{◌≡◌, is_ok};
ghost use Rattle.std.specs.List.{flat_map};
ghost use Rattle.codec.specs.Feed.{Fed};
ghost use Rattle.codec.specs.Leb128.{uleb};

use codec::encoding::leb128::write_leb128;
use codec::encoding::{Output, SinkRefused};
use codec::parse::leb128::read_leb128;
use std::alloc::{AllocError, Global};

// Writes the numbers in order, up to the first byte that is refused.
pub(crate) fn write_list<O: Output>(out: &mut O, numbers: &[u64]) -> Result<(), SinkRefused>
    ensures { Fed O.takes O.step (O.state out.old) (flat_map uleb numbers.now) (is_ok result) (O.state out.new) }
{
    for number in numbers {
        write_leb128(out, *number)?;
    }
    Ok(())
}

// The numbers that the bytes hold, in print; a fault ends the list.
pub(crate) fn read_list(heap: Global, bytes: &[u8]) -> Result<String, AllocError> {
    let mut text = String::new(heap);
    let mut rest = bytes;
    while !rest.is_empty() {
        if !text.is_empty() {
            text.push_str(", ")?;
        }
        match read_leb128::<u64>(rest) {
            Ok((number, used)) => {
                write!(text, "{number}")?;
                rest = &rest[used..];
            }
            Err(fault) => {
                write!(text, "{fault}")?;
                break;
            }
        }
    }
    Ok(text)
}
