// A run column at a sink, and how long it is.
ghost use Rattle.std.specs.Prelude.{◌≡◌, ℕ, ◌^◌, ◌≤◌, length, is_ok, MatchResult, OnOk};
ghost use Rattle.codec.specs.Sinks.{Told};
ghost use Rattle.columns.specs.Came.{coming};
ghost use Rattle.columns.specs.Cut.{written};
ghost use Rattle.columns.specs.Law.{ColumnAt, TheCut, most};

use crate::rle::encoder::write_runs;
use crate::rle::source::{Entry, Source};
use codec::element::{Decodable, Encodable};
use codec::encoding::counter::Counter;
use codec::encoding::{Output, Sink, SinkRefused};

// Writes a list as a run column to a sink. The bytes are those of the one cut of the list into
// runs, literal runs and null runs that are as large as they can be. Where nothing was refused, what the sink
// holds beyond what it held is read back as the list: every entry in order, and then the end; nulls
// alone take no bytes, and are read as ended.
pub fn put_runs<'a, E: Encodable<'a>, C: Source, S: Sink>(
    source: C,
    sink: &mut S,
) -> Result<(), SinkRefused>
where
    C::Entry: Entry<'a, E>,
    ensures told { Told S.rule (S.holds sink.old) (written (coming C.Entry.code C.list source)) (is_ok result) (S.holds sink.new) }
    ensures cut { TheCut (coming C.Entry.code C.list source) }
    ensures back { OnOk result (ColumnAt E.Decodable.Element E.Decodable.code E.Decodable.reads (coming C.Entry.code C.list source) (S.holds sink.new).held (length (S.holds sink.old).held)) }
{
    write_runs(source, sink)
}

// How many bytes the column takes: at most two for a null, and one more than its code for an element.
// Refused if no count can say it.
pub fn runs_len<'a, E: Encodable<'a>, C: Source>(source: C) -> Result<usize, SinkRefused>
where
    C::Entry: Entry<'a, E>,
    ensures { MatchResult result (λ n. (n ≡ length (written (coming C.Entry.code C.list source))) × (n ≤ most (coming C.Entry.code C.list source))) (λ _. 2 ^ 64 ≤ length (written (coming C.Entry.code C.list source))) }
{
    let mut counter = Counter::new();
    write_runs(source, &mut counter)?;
    Ok(counter.told())
}
