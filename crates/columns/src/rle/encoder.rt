// Writing a run column.
ghost use Rattle.std.specs.Prelude.{◌≡◌, ℕ, false, List, [], drop, is_ok, MatchResult, OnOk};
ghost use Rattle.codec.specs.Feed.{Fed, fed};
ghost use Rattle.columns.specs.Came.{coming};
ghost use Rattle.columns.specs.Cut.{written};
ghost use Rattle.columns.specs.Law.{ReadBack};
ghost use Rattle.columns.specs.Machine.{Turn, Sound, to_come};

use crate::rle::flush::{flush_lit_run, flush_null_run, flush_run};
use crate::rle::source::{Entry, Source};
use crate::rle::state::RleState;
use codec::element::{Decodable, Encodable};
use codec::encoding::{Output, SinkRefused};

impl<'a, E: Encodable<'a>, C: Source> RleState<E, C>
where
    C::Entry: Entry<'a, E>,
{
    // To the next state, by the entry that stands at a place. What can grow no more is written. The
    // place is passed with its entry, since to ask there once more would check a text twice.
    fn next<O: Output>(
        self,
        at: C,
        entry: Option<E>,
        out: &mut O,
    ) -> Result<RleState<E, C>, SinkRefused>
        requires { Turn E.Decodable.code E.Decodable.means (coming C.Entry.code C.list) at self entry }
        ensures { let list = coming C.Entry.code C.list in
            let rest = drop 1 (list at) in
            let come = to_come E.Decodable.code E.Decodable.means list in
            let all = fed O.takes O.step (O.state out.old) (come self (list at)) in
            MatchResult result
            (λ s. Sound E.Decodable.code E.Decodable.means list rest s × (fed O.takes O.step (O.state out.new) (come s rest) ≡ all))
            (λ _. all ≡ (false, O.state out.new)) }
    {
        match (self, entry) {
            (RleState::Empty, None) => Ok(RleState::InitialNullRun(1)),
            (RleState::Empty, Some(x)) => Ok(RleState::LoneVal { from: at, last: x }),
            (RleState::InitialNullRun(n), None) => Ok(RleState::InitialNullRun(n + 1)),
            // Not one arm with that of a later null run: tried, and the proof did not close.
            (RleState::InitialNullRun(n), Some(x)) => {
                flush_null_run(out, n)?;
                Ok(RleState::LoneVal { from: at, last: x })
            }
            (RleState::NullRun(n), None) => Ok(RleState::NullRun(n + 1)),
            (RleState::NullRun(n), Some(x)) => {
                flush_null_run(out, n)?;
                Ok(RleState::LoneVal { from: at, last: x })
            }
            (RleState::LoneVal { from, .. }, None) => {
                flush_lit_run(from, out, 1)?;
                Ok(RleState::NullRun(1))
            }
            (RleState::LoneVal { from, last }, Some(x)) => {
                if last.same(&x) {
                    Ok(RleState::Run(x, 2))
                } else {
                    Ok(RleState::LiteralRun {
                        from,
                        count: 2,
                        last: x,
                    })
                }
            }
            (RleState::Run(value, n), None) => {
                flush_run(out, &value, n)?;
                Ok(RleState::NullRun(1))
            }
            (RleState::Run(value, n), Some(x)) => {
                if value.same(&x) {
                    Ok(RleState::Run(value, n + 1))
                } else {
                    flush_run(out, &value, n)?;
                    Ok(RleState::LoneVal { from: at, last: x })
                }
            }
            (RleState::LiteralRun { from, count, .. }, None) => {
                flush_lit_run(from, out, count)?;
                Ok(RleState::NullRun(1))
            }
            (RleState::LiteralRun { from, count, last }, Some(x)) => {
                if last.same(&x) {
                    flush_lit_run(from, out, count - 1)?;
                    Ok(RleState::Run(x, 2))
                } else {
                    Ok(RleState::LiteralRun {
                        from,
                        count: count + 1,
                        last: x,
                    })
                }
            }
        }
    }

    // What is left at the end.
    fn finish<O: Output>(self, out: &mut O) -> Result<(), SinkRefused>
        requires { Sound E.Decodable.code E.Decodable.means (coming C.Entry.code C.list) [] self }
        ensures { Fed O.takes O.step (O.state out.old) (to_come E.Decodable.code E.Decodable.means (coming C.Entry.code C.list) self []) (is_ok result) (O.state out.new) }
    {
        match self {
            RleState::Empty | RleState::InitialNullRun(_) => Ok(()),
            RleState::NullRun(n) => flush_null_run(out, n),
            RleState::LoneVal { from, .. } => flush_lit_run(from, out, 1),
            RleState::Run(value, n) => flush_run(out, &value, n),
            RleState::LiteralRun { from, count, .. } => flush_lit_run(from, out, count),
        }
    }
}

// Writes a list as a run column: one text for every kind, every list and every output. Where nothing
// was refused, what was written is read back as the list.
pub fn write_runs<'a, E: Encodable<'a>, C: Source, O: Output>(
    mut source: C,
    out: &mut O,
) -> Result<(), SinkRefused>
where
    C::Entry: Entry<'a, E>,
    ensures wrote { Fed O.takes O.step (O.state out.old) (written (coming C.Entry.code C.list source)) (is_ok result) (O.state out.new) }
    ensures back { OnOk result (ReadBack E.Decodable.Element E.Decodable.code E.Decodable.reads (coming C.Entry.code C.list source)) }
{
    let mut state = RleState::Empty;
    'turns: loop {
        let at = source;
        let Some(entry) = source.next() else {
            return state.finish(out);
        };
        state = state.next(at, entry.element(), out)?;
    }
}
