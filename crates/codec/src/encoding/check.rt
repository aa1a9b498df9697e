// A sink that takes expected bytes only: what is written to it is compared, and stored nowhere.
ghost use Rattle.std.specs.Prelude.{◌≡◌, ℕ, ◌≤◌, List, [], length, take};
ghost use Rattle.codec.specs.Sinks.{holding, expecting};

use crate::encoding::{Sink, SinkRefused};

// It holds the first `len` of the expected bytes, and says yes exactly to the next expected one. Two
// slices in place of the length would need an invariant that they are parts of one.
#[derive(Drop)]
pub struct CheckSink<'a> {
    expected: &'a [u8],
    len: usize,
    ghost inside: { len ≤ length expected.now },
}

impl<'a> CheckSink<'a> {
    // A sink that holds nothing yet.
    pub fn new(expected: &'a [u8]) -> CheckSink<'a>
        ensures empty { result.len ≡ 0 }
        ensures over { result.expected.now ≡ expected.now }
    {
        CheckSink { expected, len: 0 }
    }
}

impl Sink for CheckSink<'_> {
    ghost Kept = { List ℕ };

    ghost holds = { λ s. holding (take s.len s.expected.now) [] s.expected.now };

    ghost rule = { expecting };

    // In the form of the buffer sink, which stores the byte besides.
    fn put(&mut self, byte: u8) -> Result<(), SinkRefused> {
        if self.accepts(byte) {
            self.len += 1;
            Ok(())
        } else {
            Err(SinkRefused)
        }
    }

    fn count(&self) -> usize {
        self.len
    }

    fn accepts(&self, byte: u8) -> bool {
        self.expected.get(self.len) == Some(&byte)
    }
}
