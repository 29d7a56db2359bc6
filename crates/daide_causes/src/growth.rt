//! Lists whose growth an allocator may refuse.

ghost use Rattle.std.specs.Prelude.{◌≡◌, ◌++◌, IfSome, OnOk, OnErr};
ghost use Rattle.daide_causes.specs.Causes.{WasRefused};

use daide_frame::Memory;
use std::alloc::{AllocError, Allocator};
use std::fmt::Display;
use std::io::Write;

/// An allocator that may refuse to let a list grow, as every allocator may. A contract that ends in `WasRefused` allows
/// no other cause for an error, as `Memory` says.
///
/// Not said: that ample memory is never refused. Tests show it.
pub trait Growth: Memory {
    /// Appends some values.
    fn append<T: Copy>(list: &mut Vec<T, Self>, values: &[T]) -> Result<(), AllocError>
        ensures appended { OnOk result (list.new.items ≡ list.old.items ++ values.now) }
        ensures refused { OnErr result (WasRefused Self.Refuses) };

    /// Appends what is displayed.
    fn append_text<D: Display + Drop>(text: &mut Vec<u8, Self>, shown: D) -> Result<(), AllocError>
        ensures appended { OnOk result (IfSome (D.output shown) (λ bytes.
            text.new.items ≡ text.old.items ++ bytes)) }
        ensures refused { OnErr result (WasRefused Self.Refuses) };
}

impl<A: Allocator> Growth for A {
    fn append<T: Copy>(list: &mut Vec<T, A>, values: &[T]) -> Result<(), AllocError> {
        list.extend_from_slice(values)
    }

    fn append_text<D: Display + Drop>(text: &mut Vec<u8, A>, shown: D) -> Result<(), AllocError> {
        match text.write_fmt(shown) {
            Ok(()) => Ok(()),
            Err(_) => Err(AllocError),
        }
    }
}
