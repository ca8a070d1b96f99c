ghost use Rattle.std.specs.Prelude.{◌≡◌, ◌≤◌, false, length, None, IfOk, ⊤};
ghost use Rattle.ht_outside.specs.Causes.{Rose};

use crate::{Disk, Failed};
use std::fs::{File, OpenOptions};
use std::io;
use std::os::fd::AsRawFd;
use std::os::unix::fs::FileExt;
use std::path::Path;
use std::rt::Files;

/// A file as a disk, named by its path. It tells no bytes. Before a file is attached each call
/// fails.
#[derive(Drop)]
pub struct FileDisk<R: Files<File = File> + Drop> {
    files: R,
    file: Option<File>,
    shown: u64,
    // Whether a sync has failed. What the system holds then may never reach the disk, though a
    // later sync succeeds.
    lost: bool,
    faults: u64,
}

impl<R: Files<File = File> + Drop> FileDisk<R> {
    /// A disk over the files of this runtime, of which a reference, as `&rt`, is one too.
    pub fn new(files: R) -> FileDisk<R>
        ensures shown { result.shown ≡ 0 }
        ensures faults { result.faults ≡ 0 }
    {
        FileDisk {
            files,
            file: None,
            shown: 0,
            lost: false,
            faults: 0,
        }
    }
}

impl<R: Files<File = File> + Drop> Disk for FileDisk<R> {
    ghost use Rattle.ht_outside.specs.Untold.{untold};

    ghost gives = { λ _. None };

    ghost shown = { λ d. d.shown };

    ghost room = { λ _. None };

    ghost tells_images = { λ _. false };

    ghost may_leave = { λ _ _. ⊤ };

    ghost moment = { λ _. 0 };

    ghost left_since = { λ _ _ _. ⊤ };

    ghost faults = { λ d. d.faults };

    ghost now_is = { λ _ told. untold told };

    ghost counts_now = { λ _ _ _ _ _ _. tt };

    ghost only_now = { λ _ _ _ _. tt };

    ghost images_are_bytes = { λ _ _ told _. untold told };

    ghost past_are_bytes = { λ _ _ _ told _. untold told };

    fn attach(&mut self, name: &str) -> Result<(), Failed> {
        self.shown = 0;
        match open(&self.files, self.file.as_ref(), name) {
            Ok(file) => {
                self.file = Some(file);
                Ok(())
            }
            Err(_) => Err(count(&mut self.faults)),
        }
    }

    fn len(&mut self) -> Result<u64, Failed> {
        match self.file.as_ref().map(length) {
            Some(Ok(length)) => {
                self.shown = length;
                Ok(length)
            }
            _ => Err(count(&mut self.faults)),
        }
    }

    fn read(&mut self, at: u64, into: &mut [u8]) -> Result<usize, Failed> {
        let owed = self.shown.saturating_sub(at).min(into.len() as u64) as usize;
        let Some(file) = &self.file else {
            return Err(count(&mut self.faults));
        };
        match read_owed(file, at, into, owed) {
            Ok(given) if given >= owed => Ok(given),
            _ => Err(count(&mut self.faults)),
        }
    }

    fn write_at(&mut self, at: u64, piece: &[u8]) -> Result<(), Failed> {
        let Some(end) = at.checked_add(piece.len() as u64) else {
            return Err(count(&mut self.faults));
        };
        let Some(file) = &self.file else {
            return Err(count(&mut self.faults));
        };
        if write_whole(file, at, piece).is_err() {
            return Err(count(&mut self.faults));
        }
        self.shown = self.shown.max(end);
        Ok(())
    }

    fn sync(&mut self) -> Result<(), Failed> {
        if self.lost {
            return Err(count(&mut self.faults));
        }
        let Some(file) = &self.file else {
            return Err(count(&mut self.faults));
        };
        if file.sync_data().is_err() {
            self.lost = true;
            return Err(count(&mut self.faults));
        }
        Ok(())
    }
}

// Counts a fault.
fn count(faults: &mut u64) -> Failed
    ensures later { faults.old ≤ faults.new }
    ensures rose { Rose faults.old faults.new }
{
    *faults = faults.saturating_add(1);
    Failed
}

// Opens a file, or makes it, and asks that no other object has it. The folder is synced, so that a
// crash leaves a file that was made.
fn open<R: Files<File = File>>(files: &R, held: Option<&File>, name: &str) -> io::Result<File> {
    let mut how = OpenOptions::new();
    how.read(true).write(true).create(true);
    let file = how.open(files, name)?;
    sync_folder(files, name)?;
    go_over(&file, held)?;
    Ok(file)
}

// Takes the file. The object's own one is given back before, since it may be the same file, and asked
// for again where the new one isn't given.
fn go_over(file: &File, held: Option<&File>) -> io::Result<()> {
    let Some(held) = held else {
        return take(file);
    };
    held.unlock()?;
    let taken = take(file);
    if taken.is_err() {
        let _ = held.try_lock();
    }
    taken
}

// Asks for an exclusive lock. What the system holds of the file is dropped, as far as it takes it for
// written: where a write to the device failed in an earlier run, it isn't what the device has.
fn take(file: &File) -> io::Result<()> {
    file.try_lock()?;
    let advised = libc::posix_fadvise(file.as_raw_fd(), 0, 0, libc::POSIX_FADV_DONTNEED);
    if advised != 0 {
        return Err(io::Error::from_raw_os_error(advised));
    }
    Ok(())
}

fn sync_folder<R: Files<File = File>>(files: &R, name: &str) -> io::Result<()> {
    let folder = match Path::new(name).parent() {
        Some(parent) if !parent.as_str().is_empty() => parent.as_str(),
        _ => ".",
    };
    File::open(files, folder)?.sync_all()
}

fn length(file: &File) -> io::Result<u64> {
    Ok(file.metadata()?.len())
}

// Reads until as many bytes came as are owed, or the file ends.
fn read_owed(file: &File, at: u64, into: &mut [u8], owed: usize) -> io::Result<usize>
    requires { owed ≤ length into.old }
    ensures { IfOk result (λ n. n ≤ length into.new) }
{
    let mut given = file.read_at(into, at)?;
    while given < owed {
        let more = file.read_at(&mut into[given..], at.saturating_add(given as u64))?;
        if more == 0 {
            return Ok(given);
        }
        given += more;
    }
    Ok(given)
}

// Writes the whole piece. One without bytes past the end lengthens the file, as others do.
fn write_whole(file: &File, at: u64, piece: &[u8]) -> io::Result<()> {
    if piece.is_empty() && length(file)? < at {
        return file.set_len(at);
    }
    file.write_all_at(piece, at)
}
