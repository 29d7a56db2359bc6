//! Allocation that can be refused, in a form that a contract can name.

ghost use Rattle.std.specs.Prelude.{◌≡◌, ℕ, ◌≤◌, [], IfOk, OnErr, vec_capacity};

use std::alloc::{AllocError, Allocator};

/// An allocator that may refuse room, as every allocator may. `Refuses` says of which number of elements room was
/// refused. Code that is generic in the allocator does not know `Refuses`. It can show `Refuses` only for a number that
/// it requested and was refused. So a contract that ends in `Refuses` allows no other cause for an error.
///
/// Not said: how large a refused element was; nor that ample memory is never refused, since no clause of std says when
/// `Vec::with_capacity` fails. Tests show the latter.
pub trait Memory: Allocator {
    /// An allocation for this number of elements was refused.
    ghost Refuses: { ℕ → Type 0 };

    /// Returns an empty vector with room for this number of elements.
    fn with_capacity<T>(self, capacity: usize) -> Result<Vec<T, Self>, AllocError>
        ensures items { IfOk result (λ v. v.items ≡ []) }
        ensures capacity { IfOk result (λ v. capacity ≤ vec_capacity v) }
        ensures refused { OnErr result (Refuses capacity) };
}

impl<A: Allocator> Memory for A {
    ghost Refuses = { λ _. Unit {0} };

    fn with_capacity<T>(self, capacity: usize) -> Result<Vec<T, A>, AllocError> {
        Vec::with_capacity(self, capacity)
    }
}
