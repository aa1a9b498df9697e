// Writing one run.
ghost use Rattle.std.specs.Prelude.{◌≡◌, ℕ, ◌-◌, ◌^◌, ◌<◌, ◌++◌, take, pos, negsuc, is_ok};
ghost use Rattle.codec.specs.Feed.{Fed};
ghost use Rattle.codec.specs.Leb128.{uleb, sleb};
ghost use Rattle.columns.specs.Came.{coming};
ghost use Rattle.columns.specs.Spelled.{spelled};

use crate::rle::source::{Entry, Source};
use codec::element::{Decodable, Encodable};
use codec::encoding::leb128::write_leb128;
use codec::encoding::{Output, SinkRefused};

pub(crate) fn flush_null_run<O: Output>(out: &mut O, len: u64) -> Result<(), SinkRefused>
    ensures { Fed O.takes O.step (O.state out.old) (sleb (pos 0) ++ uleb len) (is_ok result) (O.state out.new) }
{
    write_leb128(out, 0_i64)?;
    write_leb128(out, len)
}

pub(crate) fn flush_run<'a, E: Encodable<'a>, O: Output>(
    out: &mut O,
    value: &E,
    len: u64,
) -> Result<(), SinkRefused>
    requires { len < 2 ^ 63 }
    ensures { Fed O.takes O.step (O.state out.old) (sleb (pos len) ++ E.Decodable.code (E.Decodable.means value.now)) (is_ok result) (O.state out.new) }
{
    write_leb128(out, len as i64)?;
    value.encode(out)
}

// The elements among the next entries, asked for again.
fn write_each<'a, E: Encodable<'a>, C: Source, O: Output>(
    mut source: C,
    out: &mut O,
    count: u64,
) -> Result<(), SinkRefused>
where
    C::Entry: Entry<'a, E>,
    ensures { Fed O.takes O.step (O.state out.old) (spelled (take count (coming C.Entry.code C.list source))) (is_ok result) (O.state out.new) }
{
    for _ in 0..count {
        let Some(entry) = source.next() else {
            return Ok(());
        };
        if let Some(element) = entry.element() {
            element.encode(out)?;
        }
    }
    Ok(())
}

pub(crate) fn flush_lit_run<'a, E: Encodable<'a>, C: Source, O: Output>(
    from: C,
    out: &mut O,
    count: u64,
) -> Result<(), SinkRefused>
where
    C::Entry: Entry<'a, E>,
    requires { (0 < count) × (count < 2 ^ 63) }
    ensures { Fed O.takes O.step (O.state out.old) (sleb (negsuc (count - 1)) ++ spelled (take count (coming C.Entry.code C.list from))) (is_ok result) (O.state out.new) }
{
    write_leb128(out, -(count as i64))?;
    write_each(from, out, count)
}
