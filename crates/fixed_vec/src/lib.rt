// A vector of at most N elements that is Copy, which an ArrayVec is not. Contracts see it as they see an ArrayVec.
#![tactic(auto)]

ghost use Rattle.std.specs.Prelude.{◌≡◌, ◌<◌, ◌≤◌, ◌==◌, ◌++◌, ◌∷◌, [], ⊤, length};
ghost use Rattle.std.specs.Cmp.{on_equiv, on_per};
ghost use Rattle.std.specs.Cmp.Lexicographic.{pointwise, lists_equiv, lists_per};

use std::alloc::AllocError;
use std::fmt;
use std::marker::Model;

// A type with one value that stands in the places that are not used. (A Default may give any of several.)
pub trait Blank: Copy {
    ghost blank: { Self };

    fn blank() -> Self
        ensures { result ≡ blank };
}

// The invariant: at most N places are used, and the others are blank, so that equal elements are equal values.
pub struct FixedVec<T: Blank, const N: usize> {
    cells: [T; N],
    len: usize,
}

impl<T: Blank, const N: usize> Model for FixedVec<T, N> {
    ghost use Rattle.std.specs.Prelude.{◌≡◌, ◌≤◌, ◌-◌, length, take, drop, replicate};
    ghost use Rattle.arrayvec.specs.ArrayVec.{ArrayVec as Items, array_vec_code};
    ghost use Rattle.fixed_vec.specs.Cells.{cells_of, whole};

    ghost Value = { Items T };

    ghost coded = { array_vec_code T.code };

    ghost view = { λ v. record { items = take v.len v.cells } };

    ghost invariant = { λ v. (v.len ≤ N) × (length v.cells ≡ N) × (drop v.len v.cells ≡ replicate (N - v.len) T.blank) };

    ghost inverse = { λ v. record { cells = cells_of T.blank N v.items; len = length v.items } };

    ghost inverse_ok = { λ a h. whole a.len N a.cells T.blank h.0 h.1 h.2 (λ cells len. record { cells = cells; len = len }) };
}

impl<T: Blank, const N: usize> Clone for FixedVec<T, N> {
    ghost is_clone = { λ v w. w ≡ v };

    ghost is_infallible = { λ _. ⊤ };

    fn clone(&self) -> Result<Self, AllocError> {
        Ok(*self)
    }
}

impl<T: Blank, const N: usize> Copy for FixedVec<T, N> {}

impl<T: Blank + PartialEq, const N: usize> PartialEq for FixedVec<T, N> {
    ghost eq = { λ v w. pointwise T.eq v.items w.items };

    ghost laws = { on_per (λ v. v.items) (lists_per T.laws) };

    fn eq(&self, other: &Self) -> bool {
        self.as_slice() == other.as_slice()
    }
}

impl<T: Blank + Eq, const N: usize> Eq for FixedVec<T, N> {
    ghost laws = { on_equiv (λ v. v.items) (lists_equiv T.Eq.laws) };
}

impl<T: Blank + fmt::Debug, const N: usize> fmt::Debug for FixedVec<T, N> {
    fn fmt<W: fmt::Write>(&self, f: &mut fmt::Formatter<W>) -> fmt::Result {
        f.debug_list().entries(self.as_slice()).finish()
    }
}

impl<T: Blank, const N: usize> Default for FixedVec<T, N> {
    ghost is_default = { λ v. v.items ≡ [] };

    fn default() -> Self {
        Self::new()
    }
}

impl<T: Blank, const N: usize> FixedVec<T, N> {
    // No element yet.
    pub fn new() -> Self
        ensures { result.items ≡ [] }
    {
        FixedVec {
            cells: [T::blank(); N],
            len: 0,
        }
    }

    pub fn len(&self) -> usize
        ensures value { result ≡ length self.now.items }
        ensures fits { result ≤ N }
    {
        self.len
    }

    pub fn is_empty(&self) -> bool
        ensures { result ≡ length self.now.items == 0 }
    {
        self.len == 0
    }

    pub fn as_slice(&self) -> &[T]
        ensures value { result.now ≡ self.now.items }
        ensures fits { length result.now ≤ N }
    {
        &self.cells[..self.len]
    }

    // One element more, for which there is room.
    pub fn push(&mut self, x: T)
        requires { length self.old.items < N }
        ensures { self.new.items ≡ self.old.items ++ x ∷ [] }
    {
        self.cells[self.len] = x;
        self.len += 1;
    }
}
