ghost use Rattle.std.specs.Prelude.{◌≡◌, ◌+◌, ◌-◌, ◌^◌, ◌==◌, ◌≤◌, [], min, take, drop, length, Some, IfOk, IsErr, IsTrue, is_err};
ghost use Rattle.std.specs.List.{list_any};
ghost use Rattle.ht_outside.specs.Causes.{HasCause, next_count};
ghost use Rattle.ht_outside.specs.Tells.{ReadTakes};

use crate::{Failed, Source};
use ht_base::{Bytes, Memory};
use std::alloc::Global;
use std::marker::Model;

/// A source in memory, whose reads fail where a test asks for it. It takes no memory.
#[derive(Drop)]
pub struct MemorySource {
    bytes: Bytes,
    at: usize,
    // Where the last read began.
    last: usize,
    failing: Vec<u32>,
    calls: u64,
    faults: u64,
}

impl Model for MemorySource {
    ghost use Rattle.std.specs.Prelude.{◌≤◌, length};
    ghost use Rattle.ht_outside.specs.Scripted.{ScriptedSource, flow_at};

    ghost Value = { ScriptedSource };

    ghost view = { λ s. record { flow = flow_at s.at s.last s.bytes.items; failing = s.failing.items; calls = s.calls; faults = s.faults } };

    ghost invariant = { λ s. s.at ≤ length s.bytes.items };
}

impl MemorySource {
    /// A source of these bytes. `failing` has the numbers, counted from 1, of the reads that fail.
    pub fn make(_alloc: Global, bytes: Bytes, failing: Vec<u32>) -> Result<MemorySource, Memory>
        ensures { IfOk result (λ s.
            s ≡ record {
              flow = record { left = bytes.items; taken = []; before = [] };
              failing = failing.items;
              calls = 0;
              faults = 0;
            }) }
    {
        Ok(MemorySource {
            bytes,
            at: 0,
            last: 0,
            failing,
            calls: 0,
            faults: 0,
        })
    }

    /// The bytes that were not taken yet.
    pub fn left(&self) -> &[u8]
        ensures { result.now ≡ self.now.flow.left }
    {
        &self.bytes.as_slice()[self.at..]
    }
}

impl Source for MemorySource {
    ghost source_state = { λ s. record { flow = Some s.flow; faults = s.faults } };

    fn read(&mut self, into: &mut [u8]) -> Result<usize, Failed>
        ensures bytes { ReadTakes (Some self.old.flow) (Some self.new.flow) result into.new }
        ensures last { self.new.flow.before ≡ self.old.flow.taken }
        ensures cause { HasCause self.old.faults self.new.faults result }
        ensures fails { is_err result ≡ list_any (λ n. n == next_count self.old.calls)
            self.old.failing }
        ensures counted { self.new.calls ≡ next_count self.old.calls }
    {
        self.calls = self.calls.saturating_add(1);
        self.last = self.at;
        if is_among(self.calls, &self.failing) {
            self.faults = self.faults.saturating_add(1);
            return Err(Failed);
        }
        let count = copy_from(self.bytes.as_slice(), self.at, into);
        self.at += count;
        Ok(count)
    }
}

/// Whether a number is in a list.
pub(crate) fn is_among(number: u64, numbers: &[u32]) -> bool
    ensures { result ≡ list_any (λ n. n == number) numbers.now }
{
    numbers.iter().any(|n| u64::from(*n) == number)
}

// Copies as many bytes as there are, from `at` on.
fn copy_from(bytes: &[u8], at: usize, into: &mut [u8]) -> usize
    requires { at ≤ length bytes.now }
    ensures count { result ≡ min (length into.old) (length bytes.now - at) }
    ensures copied { take result into.new ≡ take result (drop at bytes.now) }
{
    let count = into.len().min(bytes.len() - at);
    into[..count].copy_from_slice(&bytes[at..at + count]);
    count
}
