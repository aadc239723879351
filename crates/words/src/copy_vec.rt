// A list of at most CAP items in the value itself, as arrayvec's; but it is Copy, so that a record of such lists is.
ghost use Rattle.std.specs.Prelude.{◌≡◌, ◌<◌, ◌≤◌, ◌+◌, ◌==◌, ◌++◌, ◌∷◌, [], length};

use std::marker::Model;
use std::ops::DerefSlice;

#[derive(Clone, Copy)]
pub struct CopyVec<T, const CAP: usize> {
    cells: [T; CAP],
    count: usize,
}

impl<T, const CAP: usize> Model for CopyVec<T, CAP> {
    ghost use Rattle.std.specs.Prelude.{◌≡◌, ◌≤◌, ◌++◌, length, take, drop};
    ghost use Rattle.std.proofs.lemmas.List.{take-append-drop, length-take-le};
    ghost use native.Mathlib.Omega.{arith};
    ghost use Rattle.words.specs.CopyVec.{CopyVec as Lists, copy_vec_code};

    ghost Value = { Lists T };

    ghost coded = { copy_vec_code T.code };

    ghost view = { λ v. record { items = take v.count v.cells; unused = drop v.count v.cells } };

    ghost invariant = { λ v. (v.count ≤ CAP) × (length v.cells ≡ CAP) };

    ghost inverse = { λ d. record { cells = d.items ++ d.unused; count = length d.items } };

    ghost inverse_ok = { λ v fits i. record { cells = take-append-drop v.count v.cells i; count = length-take-le v.count v.cells (omega (arith, fits)) i } };
}

impl<T: Default, const CAP: usize> CopyVec<T, CAP> {
    // An empty list.
    pub fn new() -> Self
        ensures { result.items ≡ [] }
    {
        CopyVec {
            cells: Default::default(),
            count: 0,
        }
    }
}

impl<T: Default, const CAP: usize> Default for CopyVec<T, CAP> {
    ghost is_default = { λ v. v.items ≡ [] };

    fn default() -> Self {
        Self::new()
    }
}

impl<T: Copy, const CAP: usize> CopyVec<T, CAP> {
    // Whether there is no room left.
    pub fn is_full(&self) -> bool
        ensures value { result ≡ (length self.now.items == CAP) }
        ensures fits { length self.now.items ≤ CAP }
    {
        self.count == CAP
    }

    // One item more. There must be room.
    pub fn push(&mut self, item: T)
        requires { length self.old.items < CAP }
        ensures items { self.new.items ≡ self.old.items ++ item ∷ [] }
        ensures len { length self.new.items ≡ length self.old.items + 1 }
    {
        self.cells[self.count] = item;
        self.count += 1;
    }
}

impl<T, const CAP: usize> CopyVec<T, CAP> {
    // How many items it has.
    pub fn len(&self) -> usize
        ensures is { result ≡ length self.now.items }
        ensures fits { result ≤ CAP }
    {
        self.as_slice().len()
    }

    pub fn as_slice(&self) -> &[T]
        ensures items { result.now ≡ self.now.items }
        ensures fits { length result.now ≤ CAP }
    {
        &self.cells[..self.count]
    }
}

impl<T, const CAP: usize> DerefSlice for CopyVec<T, CAP> {
    type Elem = T;

    ghost deref_gives = { λ v xs. (xs ≡ v.items) × (length xs ≤ CAP) };

    fn deref(&self) -> &[T] {
        self.as_slice()
    }
}
