//! A list that only proofs read. It takes no memory, and its calls do nothing at run time.
#![tactic(auto)]

ghost use Rattle.std.specs.Prelude.{◌≡◌, List, [], ◌∷◌, map};
ghost use Rattle.std.specs.Borrow.{ftrue};

use std::marker::{Model, PhantomData};

/// A list of values, the newest first, which clauses read as `items`.
///
/// Nothing ties it to the program: that is up to the invariant of the struct that keeps it.
#[derive(Drop)]
pub struct Log<A> {
    of: PhantomData<A>,
    pub ghost items: { List A },
}

impl<A> Model for Log<A> {
    ghost also_owns = { λ _. ftrue };
}

impl<A> Log<A> {
    /// An empty list.
    pub fn new() -> Log<A>
        ensures { result.items ≡ [] }
    {
        Log { of: PhantomData }
    }

    /// A list of which nothing is known.
    ///
    /// It has no clause, and must get none: what stands on it holds whatever the list is.
    pub fn unknown() -> Log<A> {
        Log::new()
    }

    /// The same value, as many times as another list is long.
    pub fn filled(count: &Log<()>, value: &A) -> Log<A>
        ensures { result.items ≡ map (λ _. value.now) count.now.items }
    {
        Log { of: PhantomData }
    }

    /// The list with one more value.
    pub fn and(&self, newest: &A) -> Log<A>
        ensures { result.items ≡ newest.now ∷ self.now.items }
    {
        Log { of: PhantomData }
    }

    /// The same list.
    pub fn again(&self) -> Log<A>
        ensures { result.items ≡ self.now.items }
    {
        Log { of: PhantomData }
    }
}
