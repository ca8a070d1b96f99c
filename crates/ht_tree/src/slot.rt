ghost use Rattle.std.specs.Prelude.{◌≡◌, ◌+◌, ◌≤◌, ◌<◌, IfErr, IfOk, length, slice_get, vec_capacity, vec_len};
ghost use Rattle.ht_base.specs.Ordered.{AscendBy};
ghost use Rattle.ht_tree.specs.Slots.{IsAbsent, IsPresent, slot_cmp, slot_in, slot_order, slots_with};

use ht_base::{Name, Op, Person, State, TaskId};
use std::cmp::Ordering;

/// The reply that is kept for a command, to be given again where the command is repeated.
#[derive(Clone, Copy, Debug, PartialEq, Eq)]
pub enum Kept {
    Done {
        task: TaskId,
        state: State,
        owner: Option<Name>,
    },
}

/// The last numbered command of a person's device. `task` is 0 exactly for a create.
#[derive(Clone, Copy, Debug, PartialEq, Eq)]
pub struct Slot {
    pub person: Person,
    /// 0 to `LAST_DEVICE`.
    pub device: u8,
    /// At least 1.
    pub number: u32,
    pub op: Op,
    pub task: TaskId,
    pub kept: Kept,
}

/// The slot of a person's device, in slots in order.
pub(crate) fn slot_of(slots: &[Slot], person: Person, device: u8) -> Option<Slot>
    requires { AscendBy slot_cmp slots.now }
    ensures { result ≡ slot_in person device slots.now }
{
    match place_of(slots, person, device) {
        Ok(place) => slots.get(place).copied(),
        Err(_) => None,
    }
}

/// Puts a slot as that of its device. It takes no memory.
pub(crate) fn put_slot(slots: &mut Vec<Slot>, slot: Slot)
    requires ascend { AscendBy slot_cmp slots.old.items }
    requires room { vec_len slots.old < vec_capacity slots.old }
    ensures { slots.new.items ≡ slots_with slots.old.items slot }
{
    match place_of(slots, slot.person, slot.device) {
        Ok(place) => slots[place] = slot,
        Err(place) => {
            let _ = slots.insert(place, slot);
        }
    }
}

// The place of the slot of a person's device, or else where it would stand.
fn place_of(slots: &[Slot], person: Person, device: u8) -> Result<usize, usize>
    requires { AscendBy slot_cmp slots.now }
    ensures found { IfOk result (IsPresent person device slots.now) }
    ensures missed { IfErr result (IsAbsent person device slots.now) }
{
    let person = person.0;
    slots.binary_search_by(
        |slot: &Slot| -> Ordering
            ensures { result ≡ slot_order person device slot.now }
        { slot.person.0.cmp(&person).then(slot.device.cmp(&device)) },
    )
}
