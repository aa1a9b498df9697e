// An output that only counts: the same writers, told to it, measure.
ghost use Rattle.std.specs.Prelude.{◌≡◌, ℕ, refl};
ghost use Rattle.codec.specs.Feed.{countable, counted};

use crate::encoding::{Output, SinkRefused};

#[derive(Drop)]
pub struct Counter {
    count: usize,
}

impl Counter {
    // Nothing counted yet.
    pub fn new() -> Counter
        ensures { result.count ≡ 0 }
    {
        Counter { count: 0 }
    }
}

impl Output for Counter {
    ghost State = { ℕ };

    ghost state = { λ s. s.count };

    ghost takes = { countable };

    ghost step = { counted };

    ghost size = { λ s. s };

    ghost grows = { λ _ _. refl };

    fn tell(&mut self, _byte: u8) -> Result<(), SinkRefused> {
        self.count = self.count.checked_add(1).ok_or(SinkRefused)?;
        Ok(())
    }

    fn told(&self) -> usize {
        self.count
    }
}
