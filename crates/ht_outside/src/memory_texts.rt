ghost use Rattle.std.specs.Prelude.{◌≡◌, ◌≢◌, ◌==◌, ◌≤◌, [], true, length, Some, IfOk, IsTrue, IsErr};
ghost use Rattle.std.specs.List.{list_any};
ghost use Rattle.ht_outside.specs.Causes.{RoseWhere, next_count};
ghost use Rattle.ht_outside.specs.Scripted.{bytes_named, told_by};
ghost use Rattle.ht_outside.specs.Texts.{IsNoted, ReadsWhole, is_failed};

use crate::asked::note;
use crate::memory_source::is_among;
use crate::{Asked, TextFault, Texts};
use ht_base::{Bytes, Memory, Txt};
use std::alloc::Global;
use std::marker::Model;

/// Texts in memory, whose reads fail where a test asks for it.
#[derive(Drop)]
pub struct MemoryTexts {
    texts: Vec<(Txt, Bytes)>,
    asked: Vec<Asked>,
    failing: Vec<u32>,
    calls: u64,
    faults: u64,
}

impl Model for MemoryTexts {
    ghost use Rattle.ht_outside.specs.Scripted.{ScriptedTexts};

    ghost Value = { ScriptedTexts };

    ghost view = { λ t. record { texts = t.texts.items; asked = t.asked.items; failing = t.failing.items; calls = t.calls; faults = t.faults } };
}

impl MemoryTexts {
    /// These texts, each behind its name. Of a name that stands twice the first counts, and a name
    /// that doesn't stand here has no bytes. `failing` has the numbers, counted from 1, of the
    /// reads that fail.
    pub fn make(
        alloc: Global,
        texts: Vec<(Txt, Bytes)>,
        failing: Vec<u32>,
    ) -> Result<MemoryTexts, Memory>
        ensures { IfOk result (λ t.
            t ≡ record {
              texts = texts.items;
              asked = [];
              failing = failing.items;
              calls = 0;
              faults = 0;
            }) }
    {
        Ok(MemoryTexts {
            texts,
            asked: Vec::new(alloc),
            failing,
            calls: 0,
            faults: 0,
        })
    }

    /// The reads so far, in order.
    pub fn asked(&self) -> &[Asked]
        ensures { result.now ≡ self.now.asked }
    {
        self.asked.as_slice()
    }
}

impl Texts for MemoryTexts {
    ghost texts_state = { told_by };

    fn read(&mut self, alloc: Global, name: &str, limit: u32) -> Result<Bytes, TextFault>
        ensures text { ReadsWhole limit (bytes_named self.old.texts name.now) result }
        ensures limit { IfOk result (λ bytes. length bytes.items ≤ limit) }
        ensures kept { (self.new.texts ≡ self.old.texts) × (self.new.failing ≡ self.old.failing) }
        ensures noted { IsNoted (result ≡ Err TextFault.Memory) name.now (told_by self.old)
            (told_by self.new) }
        ensures cause { RoseWhere (IsTrue (is_failed result)) self.old.faults self.new.faults }
        ensures asked { IsTrue (is_failed result)
            → list_any (λ n. n == next_count self.old.calls) self.old.failing ≡ true }
        ensures fails { result ≢ Err TextFault.Memory
            → is_failed result ≡ list_any (λ n. n == next_count self.old.calls) self.old.failing }
        ensures counted { self.new.calls ≡ next_count self.old.calls }
    {
        self.calls = self.calls.saturating_add(1);
        note(alloc, &mut self.asked, name, self.faults)?;
        if is_among(self.calls, &self.failing) {
            self.faults = self.faults.saturating_add(1);
            return Err(TextFault::Failed);
        }
        let text = text_named(&self.texts, name);
        if text.len() > limit as usize {
            return Err(TextFault::TooLong);
        }
        Ok(Bytes::of(alloc, text)?)
    }
}

// The bytes of the first text with this name.
fn text_named<'a>(texts: &'a [(Txt, Bytes)], name: &str) -> &'a [u8]
    ensures { result.now ≡ bytes_named texts.now name.now }
{
    for (known, bytes) in texts {
        if known.as_str() == name {
            return bytes.as_slice();
        }
    }
    &[]
}
