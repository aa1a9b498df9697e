// Values in memory as elements.
ghost use Rattle.std.specs.Prelude.{◌≡◌, ℕ, ◌-◌, ◌^◌, List, length, take};
ghost use Rattle.std.specs.Option.{option_map};
ghost use Rattle.codec.specs.Elements.{text_code};

use crate::list::Listed;
use crate::rle::source::{Entry, Source};
use codec::element::number::Number;
use codec::element::text::Text;
use codec::element::{Decodable, Encodable};
use codec::integer::Integer;

// The most entries of a list that is written.
const MOST: usize = (1 << 63) - 1;

// A value that stands for an element of a kind.
pub trait Item<'a, E: Encodable<'a>>: Copy {
    // the code of the element
    ghost code: { Self → List ℕ };

    // The element.
    fn element(self) -> E
        ensures { E.Decodable.code (E.Decodable.means result) ≡ code self };
}

// An element stands for itself.
impl<'a, E: Encodable<'a>> Item<'a, E> for E {
    ghost code = { λ x. E.Decodable.code (E.Decodable.means x) };

    fn element(self) -> E {
        self
    }
}

impl<'a, N: Integer> Item<'a, Number<N>> for N {
    ghost code = { λ n. N.code (N.means n) };

    fn element(self) -> Number<N> {
        Number::from(self)
    }
}

impl<'a> Item<'a, Text<'a>> for &'a str {
    ghost code = { λ s. text_code s.now };

    fn element(self) -> Text<'a> {
        Text::from(self)
    }
}

// A value or nothing stands for an element or a null.
impl<'a, E: Encodable<'a>, T: Item<'a, E>> Entry<'a, E> for Option<T> {
    ghost code = { option_map T.Item.code };

    fn element(self) -> Option<E> {
        // not by `map`: no closure is passed on yet whose bound names a lifetime
        match self {
            Some(item) => Some(item.element()),
            None => None,
        }
    }
}

impl<'t, T> Listed<'t, T> {
    // The start of a list, which has at most 2^63 - 1 entries: what is beyond them is left out.
    pub fn new(items: &'t [T]) -> Listed<'t, T>
        ensures { result.items.now ≡ take (2 ^ 63 - 1) items.now }
    {
        let len = items.len().min(MOST);
        Listed {
            items: &items[0..len],
        }
    }
}

impl<'t, T: Copy> Source for Listed<'t, T> {
    type Entry = T;

    ghost list = { λ s. s.items.now };

    ghost few = { λ s. s.short };

    fn next(&mut self) -> Option<T> {
        let (first, items) = self.items.split_first()?;
        *self = Listed { items };
        Some(*first)
    }
}
