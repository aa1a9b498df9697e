// Lists to be written.
ghost use Rattle.std.specs.Prelude.{◌≡◌, ℕ, ◌^◌, ◌<◌, List, length, Option};
ghost use Rattle.std.specs.Option.{option_map};
ghost use Rattle.columns.specs.Came.{came};

use codec::element::{Decodable, Encodable};

// A place in a list. A copy of it goes through the same entries again, which is how the elements of
// a literal run are asked for once more: its length stands before them.
//
// It is no `Iterator`, whose `next` says a step by a relation: here the list itself has to be named.
pub trait Source: Copy {
    // an element or a null, as the list has it
    type Entry;

    // the entries still to come
    ghost list: { Self → List Self.Entry };

    // they are few enough for the number of a header
    ghost few: { (s : Self) → length (list s) < 2 ^ 63 };

    // The next entry. Nothing at the end.
    fn next(&mut self) -> Option<Self::Entry>
        ensures { list self.old ≡ came result (list self.new) };
}

// What stands for an element of a kind, or for a null. A list by the codes of its entries is `coming`: this
// trait and that of lists meet only where a writer is bound by both.
pub trait Entry<'a, E: Encodable<'a>>: Copy {
    // the code of the element
    ghost code: { Self → Option (List ℕ) };

    // The element, if it is no null.
    fn element(self) -> Option<E>
        ensures { option_map E.Decodable.code (option_map E.Decodable.means result) ≡ code self };
}
