ghost use Rattle.std.specs.Prelude.{◌≡◌, ◌<◌, ◌≤◌, [], length, None, IfOk, IfSome};
ghost use Rattle.ht_outside.specs.Texts.{ReadsWhole};

use crate::asked::note;
use crate::{Asked, TextFault, Texts};
use ht_base::Bytes;
use std::alloc::Global;
use std::fs::File;
use std::io::Read;
use std::rt::Files;

// How many bytes are asked of a file at once.
const PIECE: usize = 65_536;

/// Texts that are files, each named by its path. It tells no bytes, but which names were asked for. A file that is missing or
/// can't be read is Failed.
#[derive(Drop)]
pub struct FileTexts<R: Files + Drop> {
    files: R,
    faults: u64,
    asked: Vec<Asked>,
}

impl<R: Files + Drop> FileTexts<R> {
    /// The files of this runtime, of which a reference, as `&rt`, is one too.
    pub fn new(alloc: Global, files: R) -> FileTexts<R>
        ensures faults { result.faults ≡ 0 }
        ensures asked { result.asked.items ≡ [] }
    {
        FileTexts {
            files,
            faults: 0,
            asked: Vec::new(alloc),
        }
    }
}

impl<R: Files + Drop> Texts for FileTexts<R> {
    ghost texts_state = { λ t. record { texts = None; faults = t.faults; asked = t.asked.items } };

    fn read(&mut self, alloc: Global, name: &str, limit: u32) -> Result<Bytes, TextFault> {
        note(alloc, &mut self.asked, name, self.faults)?;
        let result = match File::open(&self.files, name) {
            Ok(mut file) => read_whole(alloc, &mut file, limit),
            Err(_) => Err(TextFault::Failed),
        };
        if let Err(TextFault::Failed) = result {
            self.faults = self.faults.saturating_add(1);
        }
        result
    }
}

// Reads a file to its end, by large pieces.
fn read_whole<F: Read>(alloc: Global, file: &mut F, limit: u32) -> Result<Bytes, TextFault>
    ensures text { IfSome (F.remaining file.old) (λ text. ReadsWhole limit text result) }
    ensures limit { IfOk result (λ bytes. length bytes.items ≤ limit) }
{
    match vec![in alloc; 0u8; PIECE] {
        Ok(mut piece) => read_by(alloc, file, limit, &mut piece),
        Err(_) => Err(TextFault::Memory),
    }
}

// Reads at most one byte beyond the limit, which shows that the text is longer.
fn read_by<F: Read>(
    alloc: Global,
    file: &mut F,
    limit: u32,
    piece: &mut [u8],
) -> Result<Bytes, TextFault>
    requires { 0 < length piece.old }
    ensures text { IfSome (F.remaining file.old) (λ text. ReadsWhole limit text result) }
    ensures limit { IfOk result (λ bytes. length bytes.items ≤ limit) }
{
    let most = limit as usize;
    let mut bytes = Bytes::new(alloc);
    while bytes.as_slice().len() <= most {
        let asked = (most - bytes.as_slice().len())
            .saturating_add(1)
            .min(piece.len());
        let Ok(count) = file.read(&mut piece[..asked]) else {
            return Err(TextFault::Failed);
        };
        if count == 0 {
            return Ok(bytes);
        }
        if bytes.extend(&piece[..count]).is_err() {
            return Err(TextFault::Memory);
        }
    }
    Err(TextFault::TooLong)
}
