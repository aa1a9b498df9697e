// Texts that come from Rust: one pool of bytes, and where in it each text starts and ends.
ghost use Rattle.std.specs.Prelude.{◌^◌, ◌<◌, length};

// the same as a list to be written
pub(crate) mod source;

// A place in such a list. Both slices are those that an exported function is lent.
#[derive(Clone, Copy)]
pub(crate) struct Spans<'a> {
    pool: &'a [u8],
    spans: &'a [u64],
    ghost short: { length spans.now < 2 ^ 63 },
}

// Where one text starts and ends.
#[derive(Clone, Copy)]
pub(crate) struct Span<'a> {
    pool: &'a [u8],
    start: u64,
    end: u64,
}
