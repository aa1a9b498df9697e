// Numbers that come from Rust, and beside them a mask of nulls.
ghost use Rattle.std.specs.Prelude.{◌^◌, ◌<◌, length};

// the same as a list to be written
pub(crate) mod source;

// A place in such a list. The two slices are those that the exported functions are lent.
#[derive(Clone, Copy)]
pub(crate) struct Masked<'t> {
    values: &'t [u64],
    nulls: &'t [u8],
    ghost short: { length nulls.now < 2 ^ 63 },
}
