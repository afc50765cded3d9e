// Short rows: paths and bytes of a line.
ghost use Rattle.std.specs.Prelude.{◌≡◌, ◌≤◌, ◌<◌, [], ◌∷◌, ◌++◌, true, false, length, slice_index_or, nat_lt};
ghost use Rattle.std.specs.Cmp.Lexicographic.{pointwise, lists_equiv, lists_per};

use arrayvec::ArrayVec;
use std::marker::Model;

/// A row of at most `MOST` items.
#[derive(Clone, Debug, Drop)]
pub struct Short<T: Copy + Default, const MOST: usize> {
    items: ArrayVec<T, MOST>,
}

/// A way down from a layer: at most eight numbers of children, each counted from 0.
pub type Path = Short<u32, 8>;

/// At most 64 bytes.
pub type Octets = Short<u8, 64>;

impl<T: Copy + Default, const MOST: usize> Model for Short<T, MOST> {
    ghost use Rattle.std.specs.Prelude.{ℕ, List};
    ghost use Rattle.layer_core.specs.ShortRows.{IsShort};

    ghost Value = { List T };

    ghost view = { λ a. a.items.items };

    ghost invariant = { λ a. IsShort MOST a.items.items };
}

impl<T: Copy + Default, const MOST: usize> Short<T, MOST> {
    /// The empty row.
    pub fn new() -> Short<T, MOST>
        ensures { result ≡ [] }
    {
        Short {
            items: ArrayVec::new(),
        }
    }

    /// How many items there are.
    pub fn len(&self) -> usize
        ensures len { result ≡ length self.now }
        ensures most { result ≤ MOST }
    {
        self.items.len()
    }

    /// The item with the number `k`, from 0.
    pub fn at(&self, k: usize) -> T
        requires { k < length self.now }
        ensures { result ≡ slice_index_or self.now k result }
    {
        self.items[k]
    }

    /// Puts one more item at the end, or answers `false` where there are `MOST` already.
    pub fn add(&mut self, x: T) -> bool
        ensures room { result ≡ nat_lt (length self.old) MOST }
        ensures added { result ≡ true → self.new ≡ self.old ++ x ∷ [] }
        ensures full { result ≡ false → self.new ≡ self.old }
    {
        if self.items.is_full() {
            return false;
        }
        self.items.push(x);
        true
    }
}

impl<T: Copy + Default + PartialEq, const MOST: usize> PartialEq for Short<T, MOST> {
    ghost eq = { λ v w. pointwise T.eq v w };

    ghost laws = { lists_per T.laws };

    fn eq(&self, other: &Self) -> bool {
        self.items == other.items
    }
}

impl<T: Copy + Default + Eq, const MOST: usize> Eq for Short<T, MOST> {
    ghost laws = { lists_equiv T.Eq.laws };
}
