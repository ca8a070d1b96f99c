ghost use Rattle.std.specs.Prelude.{◌≡◌, IfOk};

use crate::{Memory, Sheet};
use std::alloc::Global;
use std::marker::Model;

/// A sheet in memory of its own, so that an answer that is none is small. A contract sees the sheet.
#[derive(Drop)]
pub struct BoxedSheet {
    sheet: Box<Sheet>,
}

impl Model for BoxedSheet {
    ghost use Rattle.ht_base.specs.declared.sheet.Sheet.{Sheet};

    ghost Value = { Sheet };

    ghost view = { λ b. b.sheet.value };
}

impl BoxedSheet {
    pub fn new(alloc: Global, sheet: Sheet) -> Result<BoxedSheet, Memory>
        ensures { IfOk result (λ b. b ≡ sheet) }
    {
        Ok(BoxedSheet {
            sheet: Box::new(alloc, sheet)?,
        })
    }

    pub fn as_sheet(&self) -> &Sheet
        ensures { result.now ≡ self.now }
    {
        &self.sheet
    }
}
