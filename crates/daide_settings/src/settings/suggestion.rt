//! The known key that a misspelt key resembles.

ghost use Rattle.std.specs.Prelude.{OnErr};
ghost use Rattle.daide_causes.specs.Causes.{WasRefused};

use super::key::Key;
use super::memory::SettingsMemory;
use std::alloc::AllocError;

/// Returns the known key that is nearest to a text: the first of those with the fewest characters inserted, deleted or
/// changed, of which there are two at most, or a third of the text's if that is more.
pub(super) fn nearest_key<A: SettingsMemory>(
    alloc: A,
    text: &str,
) -> Result<Option<Key>, AllocError>
    ensures { OnErr result (WasRefused A.Memory.Refuses) }
{
    let mut nearest = None;
    let mut limit = (text.chars().count() / 3).max(2).saturating_add(1);
    for key in Key::ALL {
        let distance = alloc.distance(text, key.text())?;
        if distance < limit {
            nearest = Some(key);
            limit = distance;
        }
    }
    Ok(nearest)
}
