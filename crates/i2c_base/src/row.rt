//! A list of some room in place, whose clear and pop cost nothing: no blank is written over what is left out.
ghost use Rattle.std.specs.Prelude.{◌≡◌, ◌+◌, ◌<◌, ◌≤◌, ◌-◌, [], ◌∷◌, ◌++◌, length, set, take};

use std::marker::Model;

/// Up to `N` items, which lie in the value itself. A contract sees the list.
#[derive(Drop)]
pub struct Row<T, const N: usize> {
    items: [T; N],
    len: usize,
}

impl<T, const N: usize> Model for Row<T, N> {
    ghost use Rattle.std.specs.Prelude.{◌≡◌, ◌≤◌, List, length, take};

    ghost Value = { List T };

    ghost view = { λ r. take r.len r.items };

    ghost invariant = { λ r. (r.len ≤ N) × (length r.items ≡ N) };
}

impl<T: Copy + Default, const N: usize> Row<T, N> {
    /// Nothing yet.
    pub fn new() -> Self
        ensures { result ≡ [] }
    {
        Row {
            items: Default::default(),
            len: 0,
        }
    }

    /// Puts an item at the end.
    pub fn push(&mut self, item: T)
        requires { length self.old < N }
        ensures { self.new ≡ self.old ++ item ∷ [] }
    {
        let len = self.len;
        self.items[len] = item;
        self.len = len + 1;
    }

    /// Puts an item in place of another.
    pub fn put(&mut self, place: usize, item: T)
        requires { place < length self.old }
        ensures { self.new ≡ set self.old place item }
    {
        let items = &mut self.items[..self.len];
        items[place] = item;
    }

    /// Empties it.
    pub fn clear(&mut self)
        ensures { self.new ≡ [] }
    {
        self.len = 0;
    }

    /// Takes the last item off, which isn't looked at.
    pub fn drop_last(&mut self)
        ensures { self.new ≡ take (length self.old - 1) self.old }
    {
        if self.len > 0 {
            self.len -= 1;
        }
    }

    /// Puts these items at the end.
    #[inline(always)]
    pub fn extend(&mut self, items: &[T])
        requires { length self.old + length items.now ≤ N }
        ensures { self.new ≡ self.old ++ items.now }
    {
        let len = self.len;
        let all = &mut self.items[..];
        let room = &mut all[len..len + items.len()];
        room.copy_from_slice(items);
        self.len = len + items.len();
    }

    /// The items.
    pub fn as_slice(&self) -> &[T]
        ensures value { result.now ≡ self.now }
        ensures fits { length self.now ≤ N }
    {
        &self.items[..self.len]
    }
}
