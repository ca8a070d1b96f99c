ghost use Rattle.std.specs.Prelude.{◌≡◌, ◌-◌, ◌<◌, ◌≤◌, [], length, take, drop, Err, IfOk, OnOk};
ghost use Rattle.ht_outside.specs.Causes.{HasCause, RoseWhere};
ghost use Rattle.ht_outside.specs.Tells.{IsLastRead, ReadTakes};
ghost use Rattle.ht_wire.specs.declared.buffer.FillFault.TheVariants as fault;
ghost use Rattle.ht_wire.specs.Buffer.{Fills, IsReadOrNone, MakesRoom};
ghost use Rattle.ht_wire.specs.Window.{front};

use crate::limits::{LONGEST_HEAD, MOST_FIELDS};
use ht_base::Memory;
use ht_outside::{Failed, Link};
use httparse::spans::{EMPTY_HEADER_SPAN, HeaderSpan};
use std::alloc::Global;
use std::marker::Model;

/// The bytes that were read from a source and not given out yet. It has room for the longest head, and grows
/// while a longer body is read. A contract sees them as a list.
#[derive(Drop)]
pub struct Buffer {
    bytes: Vec<u8>,
    start: usize,
    end: usize,
    // It is cleared once, and not for each head.
    room: Option<Box<[HeaderSpan; MOST_FIELDS]>>,
}

impl Model for Buffer {
    ghost use Rattle.std.specs.Prelude.{ℕ, List};

    ghost Value = { List ℕ };

    ghost use Rattle.ht_wire.specs.BufferBytes.{pending_of, IsKept};

    ghost view = { pending_of };

    ghost invariant = { IsKept };
}

impl Buffer {
    /// An empty buffer.
    pub fn new(alloc: Global) -> Result<Buffer, Memory>
        ensures { IfOk result (λ b. b ≡ []) }
    {
        let bytes = vec![in alloc; 0; LONGEST_HEAD]?;
        Ok(Buffer {
            bytes,
            start: 0,
            end: 0,
            room: None,
        })
    }

    /// Takes out the room for the fields of a head, and makes it where there is none.
    pub(crate) fn take_room(
        &mut self,
        alloc: Global,
    ) -> Result<Box<[HeaderSpan; MOST_FIELDS]>, Memory>
        ensures { self.new ≡ self.old }
    {
        match self.room.take() {
            Some(room) => Ok(room),
            None => new_room(alloc),
        }
    }

    /// Puts the room for the fields of a head back.
    pub(crate) fn put_room(&mut self, room: Box<[HeaderSpan; MOST_FIELDS]>)
        ensures { self.new ≡ self.old }
    {
        self.room = Some(room);
    }

    /// The bytes.
    pub(crate) fn pending(&self) -> &[u8]
        ensures { result.now ≡ self.now }
    {
        &self.bytes[self.start..self.end]
    }

    /// The first of them, as many as a head has at most.
    pub(crate) fn front(&self) -> &[u8]
        ensures value { result.now ≡ front self.now }
        ensures short { length result.now ≤ LONGEST_HEAD }
    {
        let pending = self.pending();
        if pending.len() > LONGEST_HEAD {
            return &pending[..LONGEST_HEAD];
        }
        pending
    }

    /// Gives out the first bytes.
    pub(crate) fn consume(&mut self, count: usize)
        requires { count ≤ length self.old }
        ensures { self.new ≡ drop count self.old }
    {
        self.start += count;
        if self.start == self.end {
            self.start = 0;
            self.end = 0;
        }
    }

    /// Reads once, as many bytes as there is room for. Where there is none, it makes some, for `most`
    /// bytes at most. 0 is the end.
    pub(crate) fn fill<L: Link>(&mut self, link: &mut L, most: usize) -> Result<usize, FillFault>
        requires { length self.old < most }
        ensures bytes { Fills (L.Source.source_state link.old).flow
            (L.Source.source_state link.new).flow self.old self.new result }
        ensures last { IsReadOrNone (L.Source.source_state link.old).flow
            (L.Source.source_state link.new).flow }
        ensures beside { L.Sink.sink_state link.new ≡ L.Sink.sink_state link.old }
        ensures same { L.same link.old link.new }
        ensures cause { RoseWhere (result ≡ Err fault.Failed)
            (L.Source.source_state link.old).faults (L.Source.source_state link.new).faults }
    {
        make_room(&mut self.bytes, &mut self.start, &mut self.end, most)?;
        let count = read_behind(link, &mut self.bytes, self.end)?;
        self.end += count;
        Ok(count)
    }
}

#[inline(never)]
fn new_room(alloc: Global) -> Result<Box<[HeaderSpan; MOST_FIELDS]>, Memory> {
    Ok(Box::new(alloc, [EMPTY_HEADER_SPAN; MOST_FIELDS])?)
}

/// Why a read puts nothing into a buffer.
#[derive(Clone, Copy)]
pub(crate) enum FillFault {
    /// The source failed.
    Failed,
    Memory,
}

impl From<Failed> for FillFault {
    ghost from_gives = { λ e r. r ≡ fault.Failed };

    fn from(_failed: Failed) -> FillFault {
        FillFault::Failed
    }
}

impl From<Memory> for FillFault {
    ghost from_gives = { λ e r. r ≡ fault.Memory };

    fn from(_memory: Memory) -> FillFault {
        FillFault::Memory
    }
}

// Makes room behind the bytes where there is none: it moves them to the front, or takes memory for
// twice as many, and at most for `most`.
fn make_room(
    bytes: &mut Vec<u8>,
    start: &mut usize,
    end: &mut usize,
    most: usize,
) -> Result<(), Memory>
    requires order { (start.old ≤ end.old) × (end.old ≤ length bytes.old.items) }
    requires some { 0 < length bytes.old.items }
    requires short { end.old - start.old < most }
    ensures moved { MakesRoom bytes.old.items start.old end.old bytes.new.items start.new end.new }
    ensures room { OnOk result (end.new < length bytes.new.items) }
{
    if *end < bytes.len() {
        return Ok(());
    }
    if *start > 0 {
        bytes.rotate_left(*start);
        *end -= *start;
        *start = 0;
        return Ok(());
    }
    let wider = bytes.len().saturating_mul(2).min(most);
    bytes.resize(wider, 0)?;
    Ok(())
}

// Reads to the bytes behind `at`.
fn read_behind<L: Link>(link: &mut L, bytes: &mut Vec<u8>, at: usize) -> Result<usize, Failed>
    requires { at ≤ length bytes.old.items }
    ensures bytes { ReadTakes (L.Source.source_state link.old).flow
        (L.Source.source_state link.new).flow result (drop at bytes.new.items) }
    ensures last { IsLastRead (L.Source.source_state link.old).flow
        (L.Source.source_state link.new).flow }
    ensures before { take at bytes.new.items ≡ take at bytes.old.items }
    ensures size { length bytes.new.items ≡ length bytes.old.items }
    ensures beside { L.Sink.sink_state link.new ≡ L.Sink.sink_state link.old }
    ensures same { L.same link.old link.new }
    ensures cause { HasCause (L.Source.source_state link.old).faults
        (L.Source.source_state link.new).faults result }
{
    link.read(&mut bytes[at..])
}
