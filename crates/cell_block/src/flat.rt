//! A list of plain values, one behind the other.
ghost use Rattle.std.specs.Prelude.{◌≡◌, [], ◌∷◌, ◌++◌, length, slice_get, option_copied, OnOk};

use std::alloc::AllocError;
use std::marker::Model;

/// A `Vec` that contracts see as the list of its elements.
#[derive(Debug, Drop)]
pub struct Flat<T> {
    items: Vec<T>,
}

impl<T> Model for Flat<T> {
    ghost use Rattle.std.specs.Prelude.{List};
    ghost use Rattle.std.specs.Coded.{coded_list};

    ghost Value = { List T };

    ghost coded = { coded_list T.code };

    ghost view = { λ it. it.items.items };
}

impl<T> Flat<T> {
    /// The list of these elements, in their order.
    pub fn from_vec(items: Vec<T>) -> Flat<T>
        ensures { result ≡ items.items }
    {
        Flat { items }
    }

    /// The elements as a slice.
    #[inline]
    pub fn as_slice(&self) -> &[T]
        ensures { result.now ≡ self.now }
    {
        self.items.as_slice()
    }

    /// How many elements there are.
    #[inline]
    pub fn len(&self) -> usize
        ensures { result ≡ length self.now }
    {
        self.items.len()
    }

    /// The element at an index from 0, if there is one.
    #[inline]
    pub fn get(&self, i: usize) -> Option<&T>
        ensures { option_copied result ≡ slice_get self.now i }
    {
        self.items.get(i)
    }
}

impl<T: Drop> Flat<T> {
    /// Adds an element, the last.
    pub(crate) fn push(&mut self, item: T) -> Result<(), AllocError>
        ensures { OnOk result (self.new ≡ self.old ++ item ∷ []) }
    {
        self.items.push(item)?;
        Ok(())
    }
}
