// What a run is, and what a reader answers.
ghost use Rattle.std.specs.Prelude.{◌≡◌, ◌-◌, ◌<◌, IfSome, IfNone};

// What a run holds: nulls, one element again and again, or elements that are written out.
#[derive(Clone, Copy)]
pub(crate) enum Run<E> {
    Null,
    Same(E),
    Literal,
}

// What the number of a header says, with the run's length where it has it.
#[derive(Clone, Copy)]
pub(crate) enum Shape {
    Nulls,
    Same(u64),
    Literal(u64),
}

// A run: how long it is, and what it holds.
#[derive(Clone, Copy)]
pub(crate) struct Head<E> {
    pub(crate) count: u64,
    pub(crate) run: Run<E>,
}

// An element of a column, and where in the data its code ends.
#[derive(Clone, Copy, Debug, PartialEq, Eq)]
pub struct Placed<E> {
    pub element: E,
    pub end: usize,
}

impl<E: Copy> Head<E> {
    // No run.
    pub(crate) fn empty() -> Head<E>
        ensures { result.count ≡ 0 }
    {
        Head {
            count: 0,
            run: Run::Null,
        }
    }

    // What the next entry of the run is. Nothing where none is left.
    pub(crate) fn take(&mut self) -> Option<Run<E>>
        ensures none { IfNone result (self.old.count ≡ 0) }
        ensures some { IfSome result (λ run. (run ≡ self.old.run) × (0 < self.old.count)) }
        ensures after { (self.new.count ≡ self.old.count - 1) × (self.new.run ≡ self.old.run) }
    {
        self.count = self.count.checked_sub(1)?;
        Some(self.run)
    }
}
