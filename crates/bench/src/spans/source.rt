// Texts as a list to be written. What is no text of the pool is a null.
ghost use Rattle.std.specs.Prelude.{◌≡◌, ℕ, ◌^◌};
ghost use Rattle.std.specs.Option.{option_map};
ghost use Rattle.codec.specs.Elements.{text_code};
ghost use Rattle.bench.specs.Lists.{text_at, spanned, spanned_few};

use crate::spans::{Span, Spans};
use codec::element::text::Text;
use columns::rle::source::{Entry, Source};

impl<'a> Spans<'a> {
    pub(crate) fn new(pool: &'a [u8], spans: &'a [u64]) -> Spans<'a>
        ensures { (result.pool.now ≡ pool.now) × (result.spans.now ≡ spans.now) }
    {
        Spans { pool, spans }
    }
}

impl<'a> Entry<'a, Text<'a>> for Span<'a> {
    ghost code = { λ s. option_map text_code (text_at s.pool.now s.start s.end) };

    fn element(self) -> Option<Text<'a>> {
        let part = self.pool.get(self.start as usize..self.end as usize)?;
        Text::try_from(part).ok()
    }
}

impl<'a> Source for Spans<'a> {
    type Entry = Span<'a>;

    ghost list = { λ s. spanned (λ start end. record { pool = s.pool; start = start; end = end }) s.spans.now };

    ghost few = { λ s. spanned_few (λ start end. record { pool = s.pool; start = start; end = end }) s.spans.now s.short };

    fn next(&mut self) -> Option<Span<'a>> {
        let [start, end, spans @ ..] = self.spans else {
            return None;
        };
        let pool = self.pool;
        *self = Spans { pool, spans };
        Some(Span {
            pool,
            start: *start,
            end: *end,
        })
    }
}
