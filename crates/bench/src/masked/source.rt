// Numbers and nulls as a list to be written.
ghost use Rattle.std.specs.Prelude.{◌≡◌, ℕ, ◌^◌};
ghost use Rattle.bench.specs.Lists.{masked, masked_few};

use crate::masked::Masked;
use columns::rle::source::Source;

impl<'t> Masked<'t> {
    pub(crate) fn new(values: &'t [u64], nulls: &'t [u8]) -> Masked<'t>
        ensures { (result.values.now ≡ values.now) × (result.nulls.now ≡ nulls.now) }
    {
        Masked { values, nulls }
    }
}

impl<'t> Source for Masked<'t> {
    type Entry = Option<u64>;

    ghost list = { λ s. masked s.values.now s.nulls.now };

    ghost few = { λ s. masked_few s.values.now s.nulls.now s.short };

    fn next(&mut self) -> Option<Option<u64>> {
        let (value, values) = self.values.split_first()?;
        let (null, nulls) = self.nulls.split_first()?;
        *self = Masked { values, nulls };
        Some(if *null == 1 { None } else { Some(*value) })
    }
}
