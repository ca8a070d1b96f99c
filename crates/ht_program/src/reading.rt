ghost use Rattle.std.specs.Prelude.{◌≡◌, Err, IfNone, IfOk, option_map};
ghost use Rattle.ht_outside.specs.Causes.{RoseWhere};
ghost use Rattle.ht_outside.specs.Texts.{IsNoted};
ghost use Rattle.ht_program.specs.Named.{pair_of};
ghost use Rattle.ht_program.specs.OfficeTexts.{AreShort, are_seen, texts_seen};
ghost use Rattle.ht_program.specs.Reading.{AsksFor, IsUnread, Reads, ReadsText};

use crate::command::Named;
use crate::office_texts::OfficeTexts;
use ht_base::{Bytes, LONGEST_OFFICE_TEXT};
use ht_outside::{TextFault, Texts};
use std::alloc::Global;
use thiserror::Error;

/// One of the two texts of an office.
#[derive(Clone, Copy, Debug)]
pub enum Which {
    Models,
    People,
}

/// Why the two texts of an office are missing.
#[derive(Clone, Copy, Debug, Error)]
pub enum TextsFault {
    #[error("a text can't be read")]
    Unread(Which),
    /// A text has more than 262,144 bytes.
    #[error("a text is too long")]
    TooLong(Which),
    #[error("out of memory")]
    Memory,
}

/// The texts of these names, or else the built-in ones. The models text is read first.
pub fn read_texts<X: Texts>(
    alloc: Global,
    named: Option<Named<'_>>,
    texts: &mut X,
) -> Result<OfficeTexts, TextsFault>
    ensures reads { Reads (option_map pair_of named.entry) (X.texts_state texts.old).texts
        (are_seen result) }
    ensures asks { AsksFor (option_map pair_of named.entry) (X.texts_state texts.old)
        (X.texts_state texts.new) (are_seen result) }
    ensures short { IfOk result (λ read. AreShort (texts_seen read)) }
    ensures built_in { IfNone named.entry (texts.new ≡ texts.old) }
    ensures cause { RoseWhere (IsUnread result) (X.texts_state texts.old).faults
        (X.texts_state texts.new).faults }
{
    let Some(named) = named else {
        return Ok(OfficeTexts::BuiltIn);
    };
    let models = text_of(alloc, texts, Which::Models, named.models)?;
    let people = text_of(alloc, texts, Which::People, named.people)?;
    Ok(OfficeTexts::Read { models, people })
}

// The text of this name.
fn text_of<X: Texts>(
    alloc: Global,
    texts: &mut X,
    which: Which,
    name: &str,
) -> Result<Bytes, TextsFault>
    ensures text { ReadsText which (X.texts_state texts.old).texts name.now result }
    ensures kept { (X.texts_state texts.new).texts ≡ (X.texts_state texts.old).texts }
    ensures asked { IsNoted (result ≡ Err TextsFault.Memory) name.now (X.texts_state texts.old)
        (X.texts_state texts.new) }
    ensures cause { RoseWhere (IsUnread result) (X.texts_state texts.old).faults
        (X.texts_state texts.new).faults }
{
    match texts.read(alloc, name, LONGEST_OFFICE_TEXT) {
        Ok(bytes) => Ok(bytes),
        Err(TextFault::Failed) => Err(TextsFault::Unread(which)),
        Err(TextFault::TooLong) => Err(TextsFault::TooLong(which)),
        Err(TextFault::Memory) => Err(TextsFault::Memory),
    }
}
