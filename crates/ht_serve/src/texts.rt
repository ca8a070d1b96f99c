ghost use Rattle.std.specs.Prelude.{◌≡◌};
ghost use Rattle.ht_base.specs.declared.reply.Refusal.TheVariants as refusal;
ghost use Rattle.ht_serve.specs.Texts as spec;
ghost use Rattle.ht_serve.specs.Texts.{refusal_text};

/// The room that the text of an answer takes at most, but for a sheet's.
pub(crate) const TEXT_ROOM: u32 = 1024;

/// The text of a reply where there is no memory to act on a request, or to show a sheet.
pub(crate) fn memory_text() -> &'static [u8]
    ensures { result.now ≡ spec.memory_text }
{
    b"{\"fault\":\"Memory\"}"
}

/// The text of the reply to a connection that is refused with this status. It takes no memory.
pub(crate) fn refused_text(code: u16) -> &'static [u8]
    ensures { result.now ≡ spec.refused_text code }
{
    match code {
        431 => b"{\"fault\":\"Fields\"}",
        501 => b"{\"fault\":\"Coding\"}",
        413 => b"{\"fault\":\"Body\"}",
        _ => head_text(),
    }
}

fn head_text() -> &'static [u8]
    ensures { result.now ≡ refusal_text refusal.Head }
{
    b"{\"fault\":\"Head\"}"
}
