//! A place of a slab.

ghost use Rattle.std.specs.Prelude.{◌≡◌, true};
ghost use Rattle.daide_driver.specs.Slab.{is_free_place, is_kept, is_held};
ghost use Rattle.std.specs.Borrow.{Lends, sem};

/// A place.
#[derive(Drop)]
pub enum SlabPlace<T> {
    /// It has nothing.
    Free,
    /// It is kept for what is to come.
    Kept,
    /// It has this.
    Held(T),
}

impl<T> SlabPlace<T> {
    ghost use Rattle.daide_driver.specs.contracts.place.SlabPlace.{the_row};

    /// Returns whether it is free.
    pub fn is_free(&self) -> bool
        ensures { result ≡ is_free_place self.now }
    {
        matches!(self, SlabPlace::Free)
    }

    /// Returns whether it is kept for what is to come.
    pub fn is_kept(&self) -> bool
        ensures { result ≡ is_kept self.now }
    {
        matches!(self, SlabPlace::Kept)
    }

    /// Returns whether it has something.
    #[inline(always)]
    pub fn is_held(&self) -> bool
        ensures { result ≡ is_held self.now }
    {
        matches!(self, SlabPlace::Held(_))
    }

    /// Returns what it has.
    #[inline(always)]
    pub fn item(&self) -> &T
        requires { is_held self.now ≡ true }
        ensures { self.now ≡ SlabPlace.Held result.now }
    {
        match self {
            SlabPlace::Held(item) => item,
            _ => unreachable!(),
        }
    }

    /// Lends what it has. When the loan ends, it has that as it was left.
    #[inline(always)]
    pub fn item_mut(&mut self) -> &mut T
        requires { is_held self.old ≡ true }
        ensures* writes_back { sem 𝓛 (Lends (the_row T.row) T.row self.entry result SlabPlace.Held) }
        ensures value { self.old ≡ SlabPlace.Held result.now }
    {
        match self {
            SlabPlace::Held(item) => item,
            _ => unreachable!(),
        }
    }
}
