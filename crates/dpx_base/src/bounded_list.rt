ghost use Rattle.std.specs.Prelude.{◌≡◌, ◌<◌, ◌≤◌, length, slice_index_or};

use arrayvec::ArrayVec;
use std::marker::Model;

/// `LEAST` to `MOST` items, seen as their list.
#[derive(Drop)]
pub struct BoundedList<T: Copy + Drop + Default, const LEAST: usize, const MOST: usize> {
    items: ArrayVec<T, MOST>,
}

/// The bytes of an AUX request or of its reply.
pub type Bytes20 = BoundedList<u8, 0, 20>;

impl<T: Copy + Drop + Default, const LEAST: usize, const MOST: usize> Model
    for BoundedList<T, LEAST, MOST> {
    ghost use Rattle.std.specs.Prelude.{◌≤◌, List, length};

    ghost Value = { List T };

    ghost view = { λ l. l.items.items };

    ghost invariant = { λ l. (LEAST ≤ length l.items.items) × (length l.items.items ≤ MOST) };
}

impl<T: Copy + Drop + Default, const LEAST: usize, const MOST: usize> BoundedList<T, LEAST, MOST> {
    /// Takes all of the items, `LEAST` to `MOST`.
    pub fn from_slice(items: &[T]) -> Self
        requires least { LEAST ≤ length items.now }
        requires most { length items.now ≤ MOST }
        ensures { result ≡ items.now }
    {
        let mut list = ArrayVec::new();
        list.try_extend_from_slice(items).unwrap();
        BoundedList { items: list }
    }

    /// The items, first to last.
    pub fn as_slice(&self) -> &[T]
        ensures value { result.now ≡ self.now }
        ensures least { LEAST ≤ length result.now }
        ensures most { length result.now ≤ MOST }
    {
        self.items.as_slice()
    }

    /// How many items there are, `LEAST` to `MOST`.
    pub fn len(&self) -> usize
        ensures value { result ≡ length self.now }
        ensures least { LEAST ≤ result }
        ensures most { result ≤ MOST }
    {
        self.items.len()
    }

    /// The item at a place, counted from 0.
    pub fn get(&self, place: usize) -> T
        requires { place < length self.now }
        ensures { result ≡ slice_index_or self.now place result }
    {
        self.items.as_slice()[place]
    }
}
