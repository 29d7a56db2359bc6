//! The comparisons of a test's rows.
//!
//! Tests are proved too. They call `holds` and `same` instead of `assert!` and `assert_eq!`: a call is proved in a
//! fraction of the time that the expanded macros take.

ghost use Rattle.std.specs.Prelude.{◌≡◌, true, false, IfOk, IfErr};

use std::fmt::Debug;
use std::test::Fail;

/// Fails with this text exactly if the condition is false.
pub fn holds(is_so: bool, text: &str) -> Result<(), Fail>
    ensures passed { IfOk result (λ _. is_so ≡ true) }
    ensures failed { IfErr result (λ _. is_so ≡ false) }
{
    if is_so { Ok(()) } else { Err(Fail::new(text)) }
}

/// Fails exactly if the values differ, with the row and both values.
pub fn same<T: PartialEq + Debug, W: Debug>(found: &T, wanted: &T, row: &W) -> Result<(), Fail>
    ensures passed { IfOk result (λ _. T.eq found.now wanted.now ≡ true) }
    ensures failed { IfErr result (λ _. T.eq found.now wanted.now ≡ false) }
{
    if found == wanted {
        return Ok(());
    }
    Err(Fail::new(format_args!("{row:?}: {found:?}, and not {wanted:?}")))
}
