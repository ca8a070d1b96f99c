ghost use Rattle.std.specs.Prelude.{◌≡◌, ◌≤◌, length, IfOk, IfSome, IsTrue};
ghost use Rattle.ht_outside.specs.Causes.{RoseWhere};
ghost use Rattle.ht_outside.specs.Texts.{IsNoted, ReadsWhole, TextsState, is_failed};

use crate::TextFault;
use ht_base::Bytes;
use std::alloc::Global;

/// Where a text is read by its name.
pub trait Texts {
    /// The bytes of each name, where the object tells them, how many reads failed, and the reads
    /// so far, in order. No call makes an object begin or cease to tell bytes, and those that it
    /// tells stay. The count stops at 18446744073709551615.
    ghost texts_state: { Self → TextsState };

    /// The whole text of this name, of at most `limit` bytes. The read is noted behind the others,
    /// which takes memory.
    fn read(&mut self, alloc: Global, name: &str, limit: u32) -> Result<Bytes, TextFault>
        ensures text { IfSome (texts_state self.old).texts
            (λ text. ReadsWhole limit (text name.now) result) }
        ensures limit { IfOk result (λ bytes. length bytes.items ≤ limit) }
        ensures kept { (texts_state self.new).texts ≡ (texts_state self.old).texts }
        ensures noted { IsNoted (result ≡ Err TextFault.Memory) name.now (texts_state self.old)
            (texts_state self.new) }
        ensures cause { RoseWhere (IsTrue (is_failed result)) (texts_state self.old).faults
            (texts_state self.new).faults };
}
