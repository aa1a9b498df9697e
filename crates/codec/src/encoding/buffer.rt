// A sink over lent memory.
ghost use Rattle.std.specs.Prelude.{◌≡◌, ℕ, ◌≤◌, length, take, drop};
ghost use Rattle.codec.specs.Sinks.{holding, roomy};

use crate::encoding::{Sink, SinkRefused};

// It holds the first `len` bytes of the buffer, and says yes exactly while there is a free place. The
// memory is lent, so that it is a slice with a length beside it and no vector.
#[derive(Drop)]
pub struct BufferSink<'a> {
    buf: &'a mut [u8],
    len: usize,
    ghost inside: { len ≤ length buf.now },
}

impl<'a> BufferSink<'a> {
    // A sink that holds nothing yet. The buffer is as it was.
    pub fn new(buf: &'a mut [u8]) -> BufferSink<'a>
        ensures empty { result.len ≡ 0 }
        ensures memory { result.buf.now ≡ buf.old }
        ensures place { result.buf.ghost_name ≡ buf.entry.ghost_name }
    {
        BufferSink { buf, len: 0 }
    }

    // The bytes that it holds.
    pub fn filled(&self) -> &[u8]
        ensures { result.now ≡ take self.now.len self.now.buf.now }
    {
        &self.buf[0..self.len]
    }
}

impl Sink for BufferSink<'_> {
    ghost Kept = { ℕ × ℕ };

    ghost holds = { λ s. holding (take s.len s.buf.now) (drop s.len s.buf.now) (length s.buf.now, s.buf.ghost_name) };

    ghost rule = { λ k. roomy k.0 };

    fn put(&mut self, byte: u8) -> Result<(), SinkRefused> {
        if self.accepts(byte) {
            self.buf[self.len] = byte;
            self.len += 1;
            Ok(())
        } else {
            Err(SinkRefused)
        }
    }

    fn count(&self) -> usize {
        self.len
    }

    fn accepts(&self, _byte: u8) -> bool {
        self.len < self.buf.len()
    }
}
