// Lists in places that are lent.
ghost use Rattle.std.specs.Prelude.{◌≡◌, ◌<◌, ◌≤◌, List, [], ◌++◌, length, take};
ghost use Rattle.cabinet.specs.Tables.{as_list};

use std::marker::Model;

// A list of at most N items, in places that its owner lends. (With places of its own, as a list of the kit's `arrayvec`, it would be copied with all
// of them where it is made and where it is given back; and the project takes no crate beside std.)
#[derive(Drop)]
pub(crate) struct Listed<'a, T: Copy, const N: usize> {
    // at least N (a slice: the checker does not know the length of an array behind a field's reference)
    places: &'a mut [T],
    used: usize,
}

impl<'a, T: Copy, const N: usize> Model for Listed<'a, T, N> {
    ghost Value = { List T };

    ghost view = { λ l. take l.used l.places.now };

    ghost invariant = { λ l. (l.used ≤ N) × (N ≤ length l.places.now) };
}

impl<'a, T: Copy, const N: usize> Listed<'a, T, N> {
    // A list without items, over these places; what they hold does not count.
    pub(crate) fn over(places: &'a mut [T; N]) -> Listed<'a, T, N>
        ensures { result ≡ [] }
    {
        Listed { places, used: 0 }
    }

    // Puts an item, if there is one, behind the others.
    pub(crate) fn append(&mut self, item: Option<T>)
        requires { length self.old < N }
        ensures { self.new ≡ self.old ++ as_list item }
    {
        if let Some(item) = item {
            self.places[self.used] = item;
            self.used += 1;
        }
    }

    // The items, in their order.
    pub(crate) fn as_slice(&self) -> &[T]
        ensures { result.now ≡ self.now }
    {
        &self.places[..self.used]
    }
}
