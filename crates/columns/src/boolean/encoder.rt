// Writing a boolean column.
ghost use Rattle.std.specs.Prelude.{◌≡◌, ◌+◌, ◌^◌, ◌<◌, ◌++◌, length, replicate, is_ok, OnOk};
ghost use Rattle.std.specs.List.{flat_map};
ghost use Rattle.codec.specs.Feed.{Fed};
ghost use Rattle.codec.specs.Leb128.{uleb};
ghost use Rattle.codec.specs.Sinks.{Told};
ghost use Rattle.columns.specs.Flags.{flag_runs, flag_column, maybe_flag_column, FlagCut, FlagsAt, MaybeFlagsAt, FlagsBack, MaybeFlagsBack};

use crate::rle::source::Source;
use codec::encoding::leb128::write_leb128;
use codec::encoding::{Output, Sink, SinkRefused};

// Writes the runs of a list, behind so many booleans of a value that are counted and not written.
fn write_behind<C: Source<Entry = bool>, O: Output>(
    mut count: u64,
    mut value: bool,
    mut flags: C,
    out: &mut O,
) -> Result<(), SinkRefused>
    requires { count + length (C.list flags) < 2 ^ 63 }
    ensures { Fed O.takes O.step (O.state out.old) (flat_map uleb (flag_runs value (replicate count value ++ C.list flags))) (is_ok result) (O.state out.new) }
{
    while let Some(flag) = flags.next() {
        if flag == value {
            count += 1;
        } else {
            write_leb128(out, count)?;
            value = flag;
            count = 1;
        }
    }
    if count == 0 {
        return Ok(());
    }
    write_leb128(out, count)
}

// Writes booleans as a boolean column, to every output.
pub fn write_booleans<C: Source<Entry = bool>, O: Output>(
    flags: C,
    out: &mut O,
) -> Result<(), SinkRefused>
    ensures wrote { Fed O.takes O.step (O.state out.old) (flag_column (C.list flags)) (is_ok result) (O.state out.new) }
    ensures back { OnOk result (FlagsBack (C.list flags)) }
{
    write_behind(0, false, flags, out)
}

// The same, where false alone takes no bytes: a first run of false is held back until a true comes.
pub fn write_maybe_booleans<C: Source<Entry = bool>, O: Output>(
    mut flags: C,
    out: &mut O,
) -> Result<(), SinkRefused>
    ensures wrote { Fed O.takes O.step (O.state out.old) (maybe_flag_column (C.list flags)) (is_ok result) (O.state out.new) }
    ensures back { OnOk result (MaybeFlagsBack (C.list flags)) }
{
    let mut count = 0;
    'first: loop {
        let at = flags;
        let Some(flag) = flags.next() else {
            return Ok(());
        };
        if flag {
            return write_behind(count, false, at, out);
        }
        count += 1;
    }
}

// A boolean column at a sink. The bytes are those of the one cut of the list into runs that are as
// large as they can be. Where nothing was refused, what the sink holds beyond what it held is read
// back as the list: every boolean in order, and then the end.
pub fn put_booleans<C: Source<Entry = bool>, S: Sink>(
    flags: C,
    sink: &mut S,
) -> Result<(), SinkRefused>
    ensures told { Told S.rule (S.holds sink.old) (flag_column (C.list flags)) (is_ok result) (S.holds sink.new) }
    ensures cut { FlagCut (C.list flags) }
    ensures back { OnOk result (FlagsAt (C.list flags) (S.holds sink.new).held (length (S.holds sink.old).held)) }
{
    write_booleans(flags, sink)
}

// The same, where false alone takes no bytes, and is read as ended.
pub fn put_maybe_booleans<C: Source<Entry = bool>, S: Sink>(
    flags: C,
    sink: &mut S,
) -> Result<(), SinkRefused>
    ensures told { Told S.rule (S.holds sink.old) (maybe_flag_column (C.list flags)) (is_ok result) (S.holds sink.new) }
    ensures cut { FlagCut (C.list flags) }
    ensures back { OnOk result (MaybeFlagsAt (C.list flags) (S.holds sink.new).held (length (S.holds sink.old).held)) }
{
    write_maybe_booleans(flags, sink)
}
