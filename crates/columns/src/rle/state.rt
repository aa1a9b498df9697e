// What the writer of a run column has been told and has not written yet.

// A literal run keeps no copy of its elements: they are asked for again, from where it began.
#[derive(Clone, Copy)]
pub(crate) enum RleState<E, C> {
    Empty,
    // Nulls with nothing before them: if no element follows, they take no bytes.
    InitialNullRun(u64),
    NullRun(u64),
    LoneVal { from: C, last: E },
    Run(E, u64),
    LiteralRun { from: C, count: u64, last: E },
}
