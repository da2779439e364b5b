// A list of at most `N` values, which lies in the value itself and is copied with it.
#![tactic(auto)]

ghost use Rattle.std.specs.Prelude.{⊤, ◌≡◌, ◌+◌, ◌<◌, ◌≤◌, [], ◌∷◌, ◌++◌, length};

use std::alloc::AllocError;
use std::fmt;

// Types that are `Copy` hold this list, since the kit's `ArrayVec` is not. It has no model: a function that
// copies a value in which a struct with a model lies, by using it twice, is not proved. The fields are
// public, so that a constant can hold a list.
pub struct ShortList<T, const N: usize> {
    pub places: [T; N],
    pub len: usize,
    ghost fits: { len ≤ N },
}

// By hand: a derive is refused over the ghost field of a type with a parameter.
impl<T: Copy, const N: usize> Copy for ShortList<T, N> {}

impl<T: Copy, const N: usize> Clone for ShortList<T, N> {
    ghost is_clone = { λ s t. t ≡ s };

    ghost is_infallible = { λ _. ⊤ };

    fn clone(&self) -> Result<ShortList<T, N>, AllocError> {
        Ok(*self)
    }
}

impl<T: Copy + Default, const N: usize> ShortList<T, N> {
    ghost use Rattle.shortlist.specs.Items.{items};

    // An empty list.
    pub fn new() -> ShortList<T, N>
        ensures { items result ≡ [] }
    {
        ShortList {
            places: [T::default(); N],
            len: 0,
        }
    }
}

impl<T: Copy, const N: usize> ShortList<T, N> {
    ghost use Rattle.shortlist.specs.Items.{items};

    // One value more. A full list has no place for it, and stays.
    pub fn push(&mut self, value: T)
        ensures room { length (items self.old) < N → items self.new ≡ items self.old ++ value ∷ [] }
        ensures len { length (items self.old) < N → length (items self.new) ≡ length (items self.old) + 1 }
        ensures full { N ≤ length (items self.old) → items self.new ≡ items self.old }
    {
        if self.len < N {
            self.places[self.len] = value;
            self.len += 1;
        }
    }

    // All of these more. Where there are too few places for them, the list stays.
    pub fn push_all(&mut self, values: &[T])
        ensures room { length (items self.old) + length values.now ≤ N → items self.new ≡ items self.old ++ values.now }
        ensures full { N < length (items self.old) + length values.now → items self.new ≡ items self.old }
    {
        if values.len() <= N - self.len {
            let len = self.len + values.len();
            let places = &mut self.places[..];
            places[self.len..len].copy_from_slice(values);
            self.len = len;
        }
    }

    // How many values it has.
    pub fn len(&self) -> usize
        ensures value { result ≡ length (items self.now) }
        ensures fits { result ≤ N }
    {
        self.as_slice().len()
    }

    // Its values.
    pub fn as_slice(&self) -> &[T]
        ensures value { result.now ≡ items self.now }
        ensures fits { length result.now ≤ N }
    {
        &self.places[..self.len]
    }
}

impl<T: Copy + fmt::Debug, const N: usize> fmt::Debug for ShortList<T, N> {
    fn fmt<W: fmt::Write>(&self, f: &mut fmt::Formatter<W>) -> fmt::Result {
        f.debug_list().entries(self.as_slice()).finish()
    }
}
