// Writing a delta column.
ghost use Rattle.std.specs.Prelude.{◌≡◌, ℕ, ◌^◌, ◌≤◌, length, pos, is_ok, OnOk};
ghost use Rattle.codec.specs.Feed.{Fed};
ghost use Rattle.codec.specs.Sinks.{Told};
ghost use Rattle.columns.specs.Deltas.{differences, differences_few, delta_column, DeltaAt, DeltaBack};

use crate::delta::Differences;
use crate::rle::encoder::write_runs;
use crate::rle::source::Source;
use codec::element::Decodable;
use codec::element::number::Signed;
use codec::encoding::{Output, Sink, SinkRefused};

impl<N: Source<Entry = Option<i64>>> Source for Differences<N> {
    type Entry = Option<i64>;

    ghost list = { λ s. differences s.last (N.list s.numbers) };

    ghost few = { λ s. differences_few s.last (N.list s.numbers) (N.few s.numbers) };

    fn next(&mut self) -> Option<Option<i64>> {
        let Some(number) = self.numbers.next()? else {
            return Some(None);
        };
        let difference = number.saturating_sub(self.last);
        self.last = number;
        Some(Some(difference))
    }
}

// Writes numbers as a delta column, to every output.
pub fn write_deltas<N: Source<Entry = Option<i64>>, O: Output>(
    numbers: N,
    out: &mut O,
) -> Result<(), SinkRefused>
    ensures wrote { Fed O.takes O.step (O.state out.old) (delta_column (N.list numbers)) (is_ok result) (O.state out.new) }
    ensures back { OnOk result (DeltaBack (N.list numbers)) }
{
    write_runs::<Signed, _, _>(Differences { numbers, last: 0 }, out)
}

// The same at a sink. Where nothing was refused and the differences fit 64 bits, what the sink holds
// beyond what it held is read back as the numbers.
pub fn put_deltas<N: Source<Entry = Option<i64>>, S: Sink>(
    numbers: N,
    sink: &mut S,
) -> Result<(), SinkRefused>
    ensures told { Told S.rule (S.holds sink.old) (delta_column (N.list numbers)) (is_ok result) (S.holds sink.new) }
    ensures back { OnOk result (DeltaAt (N.list numbers) (S.holds sink.new).held (length (S.holds sink.old).held)) }
{
    write_deltas(numbers, sink)
}
