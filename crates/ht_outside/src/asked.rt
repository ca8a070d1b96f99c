ghost use Rattle.std.specs.Prelude.{◌≡◌, ◌∷◌, [], ◌++◌, MatchResult};

use ht_base::{Memory, Txt};
use std::alloc::Global;

/// One read of a text.
#[derive(Drop)]
pub struct Asked {
    /// The name that was asked for.
    pub name: Txt,
    /// How many reads had failed before.
    pub before: u64,
}

/// Notes a read behind the others.
pub(crate) fn note(
    alloc: Global,
    asked: &mut Vec<Asked>,
    name: &str,
    before: u64,
) -> Result<(), Memory>
    ensures { MatchResult result
        (λ _. asked.new.items ≡ asked.old.items ++ record { name = name.now; before = before } ∷ [])
        (λ _. asked.new.items ≡ asked.old.items) }
{
    let name = Txt::of(alloc, name)?;
    asked.push(Asked { name, before })?;
    Ok(())
}
