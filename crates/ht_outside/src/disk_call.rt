ghost use Rattle.std.specs.Prelude.{◌≡◌, IfOk};

use ht_base::{Bytes, Memory};
use std::alloc::Global;
use std::marker::Model;

/// A write that was made.
#[derive(Drop)]
pub struct Patch {
    at: u64,
    piece: Bytes,
}

impl Model for Patch {
    ghost use Rattle.ht_outside.specs.Patches.{PatchOf};

    ghost Value = { PatchOf };

    ghost view = { λ p. record { at = p.at; piece = p.piece.items } };
}

impl Patch {
    pub(crate) fn of(alloc: Global, at: u64, piece: &[u8]) -> Result<Patch, Memory>
        ensures { IfOk result (λ p. p ≡ record { at = at; piece = piece.now }) }
    {
        Ok(Patch {
            at,
            piece: Bytes::of(alloc, piece)?,
        })
    }

    pub(crate) fn at(&self) -> u64
        ensures { result ≡ self.now.at }
    {
        self.at
    }

    pub(crate) fn piece(&self) -> &[u8]
        ensures { result.now ≡ self.now.piece }
    {
        self.piece.as_slice()
    }
}

/// A call of a disk that was done and that changes what a crash leaves.
#[derive(Drop)]
pub enum DiskCall {
    Write(Patch),
    Sync,
}
