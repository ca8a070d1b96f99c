ghost use Rattle.std.specs.List.{list_any};
ghost use Rattle.std.specs.Prelude.{◌≡◌, ◌==◌, ◌≤◌, ◌+◌, ◌^◌, ◌<◌, ◌++◌, ◌∷◌, [], List, ℕ, length, true, IfOk, IfSome, IsErr, OnErr, OnOk, is_err};
ghost use Rattle.ht_doors.specs.Doors.{count_on, fresh};
ghost use Rattle.ht_doors.specs.MemoryDoors.{IsCounted, door_of, is_to_fail, state_of, told_by, written_at};
ghost use Rattle.ht_outside.specs.Causes.{HasCause, Rose, next_count};

use crate::{Door, MemoryLink};
use ht_base::{Bytes, Memory};
use ht_outside::{Failed, MemorySink, MemorySource};
use std::alloc::Global;
use std::collections::LinkedList;
use std::marker::Model;
use std::sync::{Arc, Mutex, Wait};

/// The bytes of a link that is still to be taken, and its place among the links of the door.
#[derive(Drop)]
struct Waiting {
    bytes: Bytes,
    place: u32,
}

/// A door in memory, whose calls fail where a test asks for it, where there is no memory, and where no
/// link is left. It and its forks take their links from one list.
#[derive(Drop)]
pub struct MemoryDoor<'a, R: Wait> {
    rt: &'a R,
    alloc: Global,
    waiting: Arc<Mutex<LinkedList<Waiting>>, Global>,
    returned: LinkedList<MemoryLink>,
    failing: Vec<u32>,
    calls: u64,
    links: u64,
    faults: u64,
}

impl<'a, R: Wait> Model for MemoryDoor<'a, R> {
    ghost use Rattle.ht_doors.specs.MemoryDoors.{ScriptedDoor};

    ghost Value = { ScriptedDoor };

    ghost view = { λ d. record { returned = d.returned; failing = d.failing.items; calls = d.calls; links = d.links; faults = d.faults } };
}

impl<'a, R: Wait> MemoryDoor<'a, R> {
    /// A door with a link for each of these, whose bytes it has to read. Its calls of `listen`, `fork`,
    /// `accept` and `leave` are counted from 1, those of a fork anew, and `failing` has the numbers of
    /// those that fail.
    pub fn make(
        rt: &'a R,
        alloc: Global,
        links: Vec<Bytes>,
        failing: Vec<u32>,
    ) -> Result<MemoryDoor<'a, R>, Memory>
        ensures { IfOk result (λ d. d ≡ door_of failing.items) }
    {
        let waiting = Arc::new(alloc, Mutex::new(links_of(alloc, links)?))?;
        Ok(at_list(rt, alloc, waiting, failing))
    }

    /// What was written to the link of this place, counted from 0, of the list that the door was made
    /// of. No bytes where the link wasn't handed back to this door, or to a fork that was joined.
    pub fn written(&self, place: u32) -> Result<Bytes, Memory>
        ensures { IfOk result (λ b. b.items ≡ written_at place self.now.returned) }
    {
        for link in &self.returned {
            if link.place == place {
                return Bytes::of(self.alloc, link.sink.written());
            }
        }
        Ok(Bytes::new(self.alloc))
    }

    // Counts a call, and says whether it is one that is to fail.
    fn fails(&mut self) -> bool
        ensures fails { result ≡ is_to_fail self.old }
        ensures counted { IsCounted self.old self.new }
        ensures same { (self.new.links ≡ self.old.links) × (self.new.faults ≡ self.old.faults)
            × (self.new.returned ≡ self.old.returned) }
    {
        self.calls = self.calls.saturating_add(1);
        is_among(self.calls, &self.failing)
    }

    // Counts a fault.
    fn fail(&mut self) -> Failed
        ensures later { self.old.faults ≤ self.new.faults }
        ensures rose { Rose self.old.faults self.new.faults }
        ensures same { (self.new.links ≡ self.old.links) × (self.new.calls ≡ self.old.calls)
            × (self.new.failing ≡ self.old.failing) × (self.new.returned ≡ self.old.returned) }
    {
        self.faults = self.faults.saturating_add(1);
        Failed
    }
}

impl<'a, R: Wait> Door for MemoryDoor<'a, R> {
    type L = MemoryLink;

    ghost door_state = { told_by };

    fn listen(&mut self, _port: u16) -> Result<(), Failed>
        ensures links { self.new.links ≡ self.old.links }
        ensures returned { self.new.returned ≡ self.old.returned }
        ensures cause { HasCause self.old.faults self.new.faults result }
        ensures fails { is_err result ≡ is_to_fail self.old }
        ensures counted { IsCounted self.old self.new }
    {
        if self.fails() {
            return Err(self.fail());
        }
        Ok(())
    }

    fn fork(&mut self) -> Result<MemoryDoor<'a, R>, Failed>
        ensures links { self.new.links ≡ self.old.links }
        ensures returned { self.new.returned ≡ self.old.returned }
        ensures fork { IfOk result (λ d. d ≡ door_of self.old.failing) }
        ensures cause { HasCause self.old.faults self.new.faults result }
        ensures fails { is_to_fail self.old ≡ true → IsErr result }
        ensures counted { IsCounted self.old self.new }
    {
        if self.fails() {
            return Err(self.fail());
        }
        let Ok(waiting) = Arc::try_clone(&self.waiting) else {
            return Err(self.fail());
        };
        let Ok(failing) = self.failing.clone() else {
            return Err(self.fail());
        };
        Ok(at_list(self.rt, self.alloc, waiting, failing))
    }

    fn accept(&mut self) -> Result<MemoryLink, Failed>
        ensures taken { OnOk result (self.new.links ≡ next_count self.old.links) }
        ensures links { OnErr result (self.new.links ≡ self.old.links) }
        ensures returned { self.new.returned ≡ self.old.returned }
        ensures fresh { IfOk result (λ l. (bytes : List ℕ) × (state_of l ≡ fresh bytes)) }
        ensures cause { HasCause self.old.faults self.new.faults result }
        ensures fails { is_to_fail self.old ≡ true → IsErr result }
        ensures counted { IsCounted self.old self.new }
    {
        if self.fails() {
            return Err(self.fail());
        }
        match next_link(self.rt, self.alloc, &self.waiting) {
            Some(link) => {
                self.links = self.links.saturating_add(1);
                Ok(link)
            }
            None => Err(self.fail()),
        }
    }

    fn leave(&mut self, link: MemoryLink) -> Result<(), Failed>
        ensures links { self.new.links ≡ self.old.links }
        ensures added { OnOk result (self.new.returned ≡ self.old.returned ++ link ∷ []) }
        ensures returned { OnErr result (self.new.returned ≡ self.old.returned) }
        ensures cause { HasCause self.old.faults self.new.faults result }
        ensures fails { is_to_fail self.old ≡ true → IsErr result }
        ensures counted { IsCounted self.old self.new }
    {
        if self.fails() {
            return Err(self.fail());
        }
        if self.returned.push_back(link).is_err() {
            return Err(self.fail());
        }
        Ok(())
    }

    fn join(&mut self, fork: MemoryDoor<'a, R>)
        ensures links { self.new.links ≡ count_on self.old.links fork.entry.links }
        ensures faults { self.new.faults ≡ count_on self.old.faults fork.entry.faults }
        ensures returned { length self.old.returned + length fork.entry.returned < 2 ^ 63
            → self.new.returned ≡ self.old.returned ++ fork.entry.returned }
        ensures same { (self.new.calls ≡ self.old.calls) × (self.new.failing ≡ self.old.failing) }
    {
        let mut fork = fork;
        self.links = self.links.saturating_add(fork.links);
        self.faults = self.faults.saturating_add(fork.faults);
        let _ = self.returned.append(&mut fork.returned);
    }
}

// A door at which nothing was done yet, whose links come from this list.
fn at_list<'a, R: Wait>(
    rt: &'a R,
    alloc: Global,
    waiting: Arc<Mutex<LinkedList<Waiting>>, Global>,
    failing: Vec<u32>,
) -> MemoryDoor<'a, R>
    ensures { result ≡ door_of failing.items }
{
    MemoryDoor {
        rt,
        alloc,
        waiting,
        returned: LinkedList::new(alloc),
        failing,
        calls: 0,
        links: 0,
        faults: 0,
    }
}

// Links that are still to be taken, with these bytes.
fn links_of(alloc: Global, links: Vec<Bytes>) -> Result<LinkedList<Waiting>, Memory> {
    let mut waiting = LinkedList::new(alloc);
    let mut place: u32 = 0;
    for bytes in links {
        waiting.push_back(Waiting { bytes, place })?;
        place = place.saturating_add(1);
    }
    Ok(waiting)
}

// Takes the next link of the list, if there is one, and memory for it.
fn next_link<R: Wait>(
    rt: &R,
    alloc: Global,
    waiting: &Mutex<LinkedList<Waiting>>,
) -> Option<MemoryLink>
    ensures { IfSome result (λ l. (bytes : List ℕ) × (state_of l ≡ fresh bytes)) }
{
    let Waiting { bytes, place } = next_of(rt, waiting)?;
    let Ok(source) = MemorySource::make(alloc, bytes, Vec::new(alloc)) else {
        return None;
    };
    let Ok(sink) = MemorySink::make(alloc, Vec::new(alloc)) else {
        return None;
    };
    Some(MemoryLink {
        source,
        sink,
        place,
    })
}

fn next_of<R: Wait>(rt: &R, waiting: &Mutex<LinkedList<Waiting>>) -> Option<Waiting> {
    waiting.lock(rt).pop_front()
}

// Whether a number is in a list.
fn is_among(number: u64, numbers: &[u32]) -> bool
    ensures { result ≡ list_any (λ n. n == number) numbers.now }
{
    numbers.iter().any(|n| u64::from(*n) == number)
}
