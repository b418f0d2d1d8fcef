// Reading and extending a short list.

ghost use Rattle.std.specs.Prelude.{◌≡◌, ◌≤◌, [], length, nat_lt};
ghost use Rattle.short_list.specs.Listed.{listed, pushed};

use crate::lists::Short;
use std::alloc::AllocError;

// By hand, as `Copy`.
impl<T: Copy, const N: usize> Clone for Short<T, N> {
    ghost is_clone = { λ x y. y ≡ x };

    ghost is_infallible = { λ _. Unit {0} };

    fn clone(&self) -> Result<Self, AllocError> {
        Ok(*self)
    }
}

impl<T: Copy, const N: usize> Short<T, N> {
    // No values; the filler stands in the places that hold none.
    pub fn new(filler: T) -> Self
        ensures { listed result ≡ [] }
    {
        Short {
            items: [filler; N],
            count: 0,
        }
    }

    // Adds a value behind the others, if there is room, and says whether there was, as a set's `insert` does: there is nothing else to say.
    pub fn push(&mut self, item: T) -> bool
        ensures room { result ≡ nat_lt (length (listed self.old)) N }
        ensures after { listed self.new ≡ pushed result (listed self.old) item }
    {
        if self.count >= N {
            return false;
        }
        self.items[self.count] = item;
        self.count += 1;
        true
    }

    pub fn as_slice(&self) -> &[T]
        ensures items { result.now ≡ listed self.now }
        ensures most { length result.now ≤ N }
    {
        &self.items[..self.count]
    }
}
