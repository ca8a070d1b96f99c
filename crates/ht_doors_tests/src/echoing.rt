use ht_doors::Door;
use ht_outside::{Failed, Sink, Source};

// Takes a link, writes back what it reads of it at once, up to eight bytes, and hands it back.
pub(crate) fn echo<D: Door + Send>(door: &mut D) -> Result<(), Failed> {
    let mut link = door.accept()?;
    let mut piece = [0; 8];
    let count = link.read(&mut piece)?;
    link.write(&piece[..count])?;
    door.leave(link)
}
