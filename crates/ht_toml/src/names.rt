ghost use Rattle.std.specs.Prelude.{◌≡◌, ℕ, List, IfOk, map};

use ht_base::Name;
use std::alloc::{AllocError, Global};

/// What has a name.
pub trait Named {
    ghost name_of: { Self → List ℕ };

    fn name(&self) -> Name
        ensures { result ≡ name_of self.now };
}

/// The names of these, in order.
pub fn names_of<T: Named>(alloc: Global, items: &[T]) -> Result<Vec<Name>, AllocError>
    ensures { IfOk result (λ names. names.items ≡ map T.name_of items.now) }
{
    let mut names = Vec::with_capacity(alloc, items.len())?;
    for item in items {
        names.push(item.name())?;
    }
    Ok(names)
}
