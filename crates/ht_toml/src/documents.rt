ghost use Rattle.std.specs.Prelude.{◌≡◌, ℕ, List, IfOk, IfErr};
ghost use Rattle.toml.specs.Data.{Members};
ghost use Rattle.toml.specs.View.{table_view};
ghost use Rattle.ht_toml.specs.Documents.{IsDocument};

use std::alloc::Global;
use std::str;
use thiserror::Error;
use toml::Table;

/// Why there is no document.
#[derive(Clone, Copy, Debug, PartialEq, Eq, Error)]
pub enum DocumentFault {
    #[error("not a TOML document")]
    Syntax,
    #[error("out of memory")]
    Memory,
}

/// The document of a TOML text: UTF-8 that `toml` reads.
pub fn document(alloc: Global, text: &[u8]) -> Result<Table, DocumentFault>
    ensures ok { IfOk result (λ table. IsDocument text.now (table_view table)) }
    ensures syntax { IfErr result
        (λ fault. fault ≡ DocumentFault.Syntax → (ms : Members) → IsDocument text.now ms → ⊥) }
{
    let Ok(text) = str::from_utf8(text) else {
        return Err(DocumentFault::Syntax);
    };
    match toml::table_from_str(alloc, text) {
        Ok(table) => Ok(table),
        Err(error) => {
            if error.is_memory() {
                return Err(DocumentFault::Memory);
            }
            Err(DocumentFault::Syntax)
        }
    }
}
