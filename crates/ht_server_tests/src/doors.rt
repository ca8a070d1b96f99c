//! A door whose connections wait for what other threads do, and a clock that counts its rests.
ghost use Rattle.std.specs.Prelude.{None, refl};

use ht_base::{Bytes, Memory, Moment};
use ht_doors::{Door, MemoryDoor, MemoryLink};
use ht_outside::{Clock, Failed, Link, Sink, Source};
use std::alloc::Global;
use std::sync::Wait;
use std::sync::atomic::{AtomicU64, Ordering};
use std::thread;

const LOOKS: u32 = 1_000_000;

/// What was seen so far of all threads.
#[derive(Drop)]
pub(crate) struct Seen {
    /// How often a clock was asked to rest.
    rests: AtomicU64,
    /// How many links were taken.
    taken: AtomicU64,
    /// How many links, without the first one, were handed back.
    left: AtomicU64,
    /// 1 where a wait was in vain.
    in_vain: AtomicU64,
}

impl Seen {
    pub(crate) fn nothing() -> Seen {
        Seen {
            rests: AtomicU64::new(0),
            taken: AtomicU64::new(0),
            left: AtomicU64::new(0),
            in_vain: AtomicU64::new(0),
        }
    }

    pub(crate) fn waited_in_vain(&self) -> bool {
        self.in_vain.load(Ordering::SeqCst) > 0
    }

    // Looks at a count until it is so great.
    fn wait_for(&self, count: &AtomicU64, least: u64) {
        for _ in 0..LOOKS {
            if count.load(Ordering::SeqCst) >= least {
                return;
            }
            thread::yield_now();
        }
        self.in_vain.store(1, Ordering::SeqCst);
    }
}

/// A clock that stands still, and doesn't wait where it is asked to rest.
#[derive(Drop)]
pub(crate) struct StillClock<'a> {
    pub(crate) seen: &'a Seen,
}

impl<'a> Clock for StillClock<'a> {
    ghost moments = { λ _. None };

    fn now(&mut self) -> Moment {
        Moment(9000)
    }

    fn rest(&mut self, _milliseconds: u32) {
        self.seen.rests.fetch_add(1, Ordering::SeqCst);
    }

    fn fork(&self) -> StillClock<'a> {
        StillClock { seen: self.seen }
    }
}

/// What a door has, and what is waited for at it.
#[derive(Clone, Copy)]
pub(crate) struct Script<'a> {
    /// The bytes that its links have to read.
    pub(crate) links: &'a [&'a str],
    /// The numbers of its calls that fail.
    pub(crate) failing: &'a [u32],
    /// How many rests there are to be before a link is taken.
    pub(crate) rests: u64,
    /// How many other links are to be handed back before the first one is read.
    pub(crate) left: u64,
}

/// A door without links.
pub(crate) const NO_LINKS: Script = Script {
    links: &[],
    failing: &[],
    rests: 0,
    left: 0,
};

/// A door in memory at which threads wait. It tells no links.
#[derive(Drop)]
pub(crate) struct WaitingDoor<'a, R: Wait> {
    door: MemoryDoor<'a, R>,
    rests: u64,
    left: u64,
    seen: &'a Seen,
}

impl<'a, R: Wait> WaitingDoor<'a, R> {
    pub(crate) fn make(
        rt: &'a R,
        alloc: Global,
        script: &Script<'_>,
        seen: &'a Seen,
    ) -> Result<WaitingDoor<'a, R>, Memory> {
        let mut links = Vec::new(alloc);
        for link in script.links {
            links.push(Bytes::of(alloc, link.as_bytes())?)?;
        }
        let failing = Vec::from_slice(alloc, script.failing)?;
        Ok(WaitingDoor {
            door: MemoryDoor::make(rt, alloc, links, failing)?,
            rests: script.rests,
            left: script.left,
            seen,
        })
    }

    pub(crate) fn written(&self, place: u32) -> Result<Bytes, Memory> {
        self.door.written(place)
    }
}

impl<'a, R: Wait> Door for WaitingDoor<'a, R> {
    type L = WaitingLink<'a>;

    ghost door_state = { λ d. record { links = d.door.links; faults = d.door.faults; back = None } };

    fn listen(&mut self, port: u16) -> Result<(), Failed> {
        self.door.listen(port)
    }

    fn fork(&mut self) -> Result<WaitingDoor<'a, R>, Failed> {
        match self.door.fork() {
            Ok(door) => Ok(WaitingDoor {
                door,
                rests: self.rests,
                left: self.left,
                seen: self.seen,
            }),
            Err(Failed) => Err(Failed),
        }
    }

    fn accept(&mut self) -> Result<WaitingLink<'a>, Failed> {
        self.seen.wait_for(&self.seen.rests, self.rests);
        match self.door.accept() {
            Ok(link) => Ok(WaitingLink {
                link,
                is_first: self.seen.taken.fetch_add(1, Ordering::SeqCst) == 0,
                left: self.left,
                seen: self.seen,
            }),
            Err(Failed) => Err(Failed),
        }
    }

    fn leave(&mut self, link: WaitingLink<'a>) -> Result<(), Failed> {
        let WaitingLink {
            link,
            is_first,
            left: _,
            seen: _,
        } = link;
        if !is_first {
            self.seen.left.fetch_add(1, Ordering::SeqCst);
        }
        self.door.leave(link)
    }

    fn join(&mut self, fork: WaitingDoor<'a, R>) {
        let WaitingDoor {
            door,
            rests: _,
            left: _,
            seen: _,
        } = fork;
        self.door.join(door);
    }
}

/// A link of such a door. It tells no bytes.
#[derive(Drop)]
pub(crate) struct WaitingLink<'a> {
    link: MemoryLink,
    is_first: bool,
    left: u64,
    seen: &'a Seen,
}

impl<'a> Source for WaitingLink<'a> {
    ghost source_state = { λ l. record { flow = None; faults = l.link.source.faults } };

    ghost beside_source = { λ l. record { written = None; faults = l.link.sink.faults } };

    fn read(&mut self, into: &mut [u8]) -> Result<usize, Failed> {
        if self.is_first {
            self.seen.wait_for(&self.seen.left, self.left);
        }
        self.link.read(into)
    }
}

impl<'a> Sink for WaitingLink<'a> {
    ghost sink_state = { λ l. record { written = None; faults = l.link.sink.faults } };

    ghost beside_sink = { λ l. record { flow = None; faults = l.link.source.faults } };

    fn write(&mut self, piece: &[u8]) -> Result<(), Failed> {
        self.link.write(piece)
    }
}

impl<'a> Link for WaitingLink<'a> {
    ghost reads_alone = { λ x. refl };

    ghost writes_alone = { λ x. refl };

    ghost same_self = { λ x. tt };

    ghost read_same = { λ x y kept. tt };

    ghost write_same = { λ x y kept. tt };

    ghost same_on = { λ x y z first then_on. tt };
}
