// Where bytes are written to.
//
// A sink holds bytes. A writer is generic over an output, which is any sink or a counter, so that
// one text writes to every sink and also just counts.
ghost use Rattle.std.specs.Prelude.{◌≡◌, ℕ, ◌+◌, Bool, List, [], ◌∷◌, length, is_ok, Some, codes};
ghost use Rattle.std.specs.Fmt.{styled_text};
ghost use Rattle.codec.specs.Feed.{Fed};
ghost use Rattle.codec.specs.Sinks.{Rule, Holding, says, more, Offered, Told};
ghost use Rattle.std.proofs.lemmas.List.{length_push};

// a sink over lent memory
pub mod buffer;
// a sink that takes expected bytes only
pub mod check;
// an output that only counts
pub mod counter;
// numbers
pub mod leb128;

use std::fmt;

// A byte was refused.
#[derive(Clone, Copy, Debug, PartialEq, Eq)]
pub struct SinkRefused;

impl fmt::Display for SinkRefused {
    ghost output = { λ _. Some (codes "a byte was refused") };

    ghost styled_output = { λ _ s. Some (styled_text s (codes "a byte was refused")) };

    fn fmt<W: fmt::Write>(&self, f: &mut fmt::Formatter<W>) -> fmt::Result {
        f.pad("a byte was refused")
    }
}

impl std::error::Error for SinkRefused {}

// Where a writer writes: a state, whether a byte is taken in it, and the next state. Every sink is
// one, and so is a counter. Each writer's clause names all three: the laws of feeding speak of them
// apart, and one name for them would have to be handed the output before and after just the same.
pub trait Output {
    ghost State: { Type 0 };

    ghost state: { Self → State };

    ghost takes: { State → ℕ → Bool };

    ghost step: { State → ℕ → State };

    // how many bytes it has taken
    ghost size: { State → ℕ };

    // One byte more, or a refusal that changes nothing.
    fn tell(&mut self, byte: u8) -> Result<(), SinkRefused>
        ensures { Fed takes step (state self.old) (byte ∷ []) (is_ok result) (state self.new) };

    // How many bytes it has taken.
    fn told(&self) -> usize
        ensures { result ≡ size (state self.now) };

    ghost grows: { (s : State) (b : ℕ) → size (step s b) ≡ size s + 1 };
}

// A sink means the bytes that it holds and, for each next byte, a yes or no by a rule on what it
// holds that no call changes.
pub trait Sink {
    // what no call changes: the size of its memory and where that is, the bytes it expects
    ghost Kept: { Type 0 };

    // the bytes that it holds, its memory that holds none of them yet, and what no call changes
    ghost holds: { Self → Holding Kept };

    // on what it holds, whether it takes a next byte
    ghost rule: { Kept → Rule };

    // Told a byte that it says yes to, it holds that byte last. Told any other, it refuses and is
    // unchanged.
    fn put(&mut self, byte: u8) -> Result<(), SinkRefused>
        ensures { Offered rule (holds self.old) byte (is_ok result) (holds self.new) };

    // How many bytes it holds.
    fn count(&self) -> usize
        ensures { result ≡ length (holds self.now).held };

    // The question alone: whether it would take the byte.
    fn accepts(&self, byte: u8) -> bool
        ensures { result ≡ says rule (holds self.now) byte };
}

impl<S: Sink> Output for S {
    ghost State = { Holding S.Kept };

    ghost state = { S.holds };

    ghost takes = { says S.rule };

    ghost step = { more };

    ghost size = { λ s. length s.held };

    ghost grows = { λ s b. length_push s.held b };

    fn tell(&mut self, byte: u8) -> Result<(), SinkRefused> {
        self.put(byte)
    }

    fn told(&self) -> usize {
        self.count()
    }
}

// All bytes, one after the other, up to the first that is refused.
pub fn append<O: Output>(out: &mut O, bytes: &[u8]) -> Result<(), SinkRefused>
    ensures { Fed O.takes O.step (O.state out.old) bytes.now (is_ok result) (O.state out.new) }
{
    for byte in bytes {
        out.tell(*byte)?;
    }
    Ok(())
}

// The same at a sink, by what it holds: all bytes, or the longest beginning that it took.
pub fn put_bytes<S: Sink>(sink: &mut S, bytes: &[u8]) -> Result<(), SinkRefused>
    ensures { Told S.rule (S.holds sink.old) bytes.now (is_ok result) (S.holds sink.new) }
{
    append(sink, bytes)
}
