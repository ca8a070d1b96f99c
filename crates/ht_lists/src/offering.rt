ghost use Rattle.std.specs.Prelude.{ℕ, ◌≡◌, ◌+◌, ◌-◌, ◌^◌, ◌<◌, ◌≤◌, [], ◌∷◌, IfNone, IfSome, OnOk, false, filter, fold, length, map, take, true};
ghost use Rattle.ht_lists.specs.Best.{Bounds, told, with_key};
ghost use Rattle.ht_lists.specs.Keys as key;
ghost use Rattle.ht_lists.specs.Lists.{is_listed};
ghost use Rattle.ht_lists.specs.Offering as spec;
ghost use Rattle.ht_lists.specs.Offering.{asked_keys};
ghost use Rattle.ht_tree.specs.Soundness.{IsSound};

use crate::asking::{asked_of_live, is_asked, is_live, is_operator, is_owner};
use crate::best::{Best, Offers};
use ht_base::{Memory, Person, Role, TaskId, Which};
use ht_index::{Rest, Tasks};
use ht_tree::Tables;

// What is at hand from one task to the next: also where the person stood among those of a role.
#[derive(Clone, Copy)]
struct Walk {
    offers: Offers,
    place: usize,
}

// What is seen of a task by itself.
#[derive(Clone, Copy)]
enum Sight {
    /// It is asked for, and isn't one of the first.
    Behind,
    /// It isn't asked for.
    Unasked,
    /// It is asked for, and may be one of the first.
    Open,
}

/// Offers the keys of the tasks that are listed, in the order of their numbers.
pub(crate) fn offer_listed(
    tables: &Tables,
    person: Person,
    role: Option<Role>,
    which: Which,
    best: &mut Best,
) -> Result<(), Memory>
    requires person { person < length tables.now.tables.people.persons }
    requires none_yet { best.old.total ≡ 0 }
    ensures offered { OnOk result (best.new ≡ fold with_key best.old (map key.key_of
        (filter (is_listed tables.now.tables person role which) tables.now.tables.rows))) }
    ensures sound { IsSound tables.now.tables }
{
    // Says that they are sound and can be counted.
    let _tasks = tables.rows();
    if is_operator(role) {
        return offer_each(tables, person, role, which, best);
    }
    if is_owner(role) {
        let tasks = tables.owned_by(person);
        return offer_asked(tables, tasks, person, role, which, best);
    }
    if is_live(which) {
        return offer_open(tables, person, role, which, best);
    }
    let tasks = tables.rows_of(person);
    offer_asked(tables, tasks, person, role, which, best)
}

// Where no task that is final is asked for.
fn offer_open(
    tables: &Tables,
    person: Person,
    role: Option<Role>,
    which: Which,
    best: &mut Best,
) -> Result<(), Memory>
    requires person { person < length tables.now.tables.people.persons }
    requires none_yet { best.old.total ≡ 0 }
    requires given { spec.is_operator role ≡ false }
    requires live { spec.is_live which ≡ true }
    ensures { OnOk result (best.new ≡ fold with_key best.old (map key.key_of
        (filter (is_listed tables.now.tables person role which) tables.now.tables.rows))) }
{
    // Says that they can be counted.
    let _tasks = tables.rows();
    let tasks = tables.live_rows_of(person);
    offer_asked(tables, tasks, person, role, asked_of_live(which), best)
}

// Of these tasks, in each of which the person has a role, those of which more is true that is asked.
// Each role has a loop of its own, so that none asks of each task which one is asked.
fn offer_asked(
    tables: &Tables,
    tasks: &Tasks,
    person: Person,
    role: Option<Role>,
    which: Which,
    best: &mut Best,
) -> Result<(), Memory>
    requires person { person < length tables.now.tables.people.persons }
    requires few { best.old.total + length tasks.now.tasks < 2 ^ 32 }
    ensures { OnOk result (best.new ≡ fold with_key best.old
        (asked_keys tables.now.tables person role which tasks.now.tasks)) }
{
    let Some(role) = role else {
        return offer_by(tables, tasks, person, None, which, best);
    };
    match role {
        Role::Initiator => offer_by(tables, tasks, person, Some(Role::Initiator), which, best),
        Role::Stakeholder => offer_by(tables, tasks, person, Some(Role::Stakeholder), which, best),
        Role::PotentialOwner => {
            offer_by(
                tables,
                tasks,
                person,
                Some(Role::PotentialOwner),
                which,
                best,
            )
        }
        Role::ActualOwner => offer_by(tables, tasks, person, Some(Role::ActualOwner), which, best),
        Role::Administrator => {
            offer_by(
                tables,
                tasks,
                person,
                Some(Role::Administrator),
                which,
                best,
            )
        }
        Role::Operator => offer_by(tables, tasks, person, Some(Role::Operator), which, best),
    }
}

// By a role that is known where it is called: then each state that is asked has a loop of its own too.
#[inline(always)]
fn offer_by(
    tables: &Tables,
    tasks: &Tasks,
    person: Person,
    role: Option<Role>,
    which: Which,
    best: &mut Best,
) -> Result<(), Memory>
    requires person { person < length tables.now.tables.people.persons }
    requires few { best.old.total + length tasks.now.tasks < 2 ^ 32 }
    ensures { OnOk result (best.new ≡ fold with_key best.old
        (asked_keys tables.now.tables person role which tasks.now.tasks)) }
{
    match which {
        Which::Live => offer_these(tables, tasks, person, role, Which::Live, best),
        Which::All => offer_these(tables, tasks, person, role, Which::All, best),
        Which::Only(one) => offer_these(tables, tasks, person, role, Which::Only(one), best),
    }
}

#[inline(always)]
fn offer_these(
    tables: &Tables,
    tasks: &Tasks,
    person: Person,
    role: Option<Role>,
    which: Which,
    best: &mut Best,
) -> Result<(), Memory>
    requires person { person < length tables.now.tables.people.persons }
    requires few { best.old.total + length tasks.now.tasks < 2 ^ 32 }
    ensures { OnOk result (best.new ≡ fold with_key best.old
        (asked_keys tables.now.tables person role which tasks.now.tasks)) }
{
    let mut walk = walk_of(best);
    let mut rest = tasks.rest();
    'found: loop {
        let Some(id) = pass(tables, &mut rest, person, role, which, best, &mut walk) else {
            best.tell(walk.offers);
            return Ok(());
        };
        offer_one(tables, id, person, role, which, best, &mut walk)?;
    }
}

// Passes the tasks before one that may be one of the first, which is answered. They are counted.
#[inline(always)]
fn pass(
    tables: &Tables,
    rest: &mut Rest<'_>,
    person: Person,
    role: Option<Role>,
    which: Which,
    best: &Best,
    walk: &mut Walk,
) -> Option<TaskId>
    requires person { person < length tables.now.tables.people.persons }
    requires few { walk.old.offers.total + length rest.old < 2 ^ 32 }
    requires bounds { Bounds best.now.limit best.now.keys walk.old.offers.bound }
    ensures none { IfNone result (rest.new ≡ []) }
    ensures less { IfSome result (λ _. length rest.new < length rest.old) }
    ensures offered { fold with_key (told best.now walk.new.offers.total)
        (asked_keys tables.now.tables person role which (spec.left result rest.new))
        ≡ fold with_key (told best.now walk.old.offers.total)
        (asked_keys tables.now.tables person role which rest.old) }
    ensures few { walk.new.offers.total + length (spec.left result rest.new)
        ≤ walk.old.offers.total + length rest.old }
    ensures bound { walk.new.offers.bound ≡ walk.old.offers.bound }
{
    'parts: loop {
        let first = rest.next()?;
        let found = pass_near(tables, first, rest, person, role, which, best, walk);
        if found.is_some() {
            return found;
        }
    }
}

// The same of a task and those near it. A loop that makes no call keeps in registers what it needs.
#[inline(always)]
fn pass_near(
    tables: &Tables,
    first: TaskId,
    rest: &mut Rest<'_>,
    person: Person,
    role: Option<Role>,
    which: Which,
    best: &Best,
    walk: &mut Walk,
) -> Option<TaskId>
    requires person { person < length tables.now.tables.people.persons }
    requires few { walk.old.offers.total + 1 + length rest.old < 2 ^ 32 }
    requires bounds { Bounds best.now.limit best.now.keys walk.old.offers.bound }
    ensures less { length rest.new ≤ length rest.old }
    ensures offered { fold with_key (told best.now walk.new.offers.total)
        (asked_keys tables.now.tables person role which (spec.left result rest.new))
        ≡ fold with_key (told best.now walk.old.offers.total)
        (asked_keys tables.now.tables person role which (first ∷ rest.old)) }
    ensures few { walk.new.offers.total + length (spec.left result rest.new)
        ≤ walk.old.offers.total + 1 + length rest.old }
    ensures bound { walk.new.offers.bound ≡ walk.old.offers.bound }
{
    let mut id = first;
    let mut behind = 0;
    'near: loop {
        match look(tables, id, person, role, which, best, walk) {
            Sight::Behind => behind += 1,
            Sight::Unasked => {}
            Sight::Open => {
                walk.offers.count(behind);
                return Some(id);
            }
        }
        let Some(next) = rest.next_near() else {
            walk.offers.count(behind);
            return None;
        };
        id = next;
    }
}

// Whether a task is seen not to be one of the first. It isn't counted.
#[inline(always)]
fn look(
    tables: &Tables,
    id: TaskId,
    person: Person,
    role: Option<Role>,
    which: Which,
    best: &Best,
    walk: &mut Walk,
) -> Sight
    requires person { person < length tables.now.tables.people.persons }
    requires bounds { Bounds best.now.limit best.now.keys walk.old.offers.bound }
    ensures behind { result ≡ Sight.Behind → (total : ℕ) → told best.now (total + 1)
        ≡ fold with_key (told best.now total)
        (asked_keys tables.now.tables person role which (id ∷ [])) }
    ensures unasked { result ≡ Sight.Unasked
        → asked_keys tables.now.tables person role which (id ∷ []) ≡ [] }
    ensures offers { walk.new.offers ≡ walk.old.offers }
{
    let Some(row) = tables.row(id) else {
        return Sight::Unasked;
    };
    if !is_asked(tables, row, person, role, which, &mut walk.place) {
        return Sight::Unasked;
    }
    if best.passes(row, &walk.offers) {
        Sight::Behind
    } else {
        Sight::Open
    }
}

// Of all tasks.
fn offer_each(
    tables: &Tables,
    person: Person,
    role: Option<Role>,
    which: Which,
    best: &mut Best,
) -> Result<(), Memory>
    requires person { person < length tables.now.tables.people.persons }
    requires none_yet { best.old.total ≡ 0 }
    ensures { OnOk result (best.new ≡ fold with_key best.old (map key.key_of
        (filter (spec.is_asked tables.now.tables person role which) tables.now.tables.rows))) }
{
    let mut walk = walk_of(best);
    for before in 0..tables.rows() {
        offer_one(
            tables,
            TaskId(before + 1),
            person,
            role,
            which,
            best,
            &mut walk,
        )?;
    }
    best.tell(walk.offers);
    Ok(())
}

#[inline(always)]
fn walk_of(best: &Best) -> Walk
    ensures total { result.offers.total ≡ best.now.total }
    ensures bounds { Bounds best.now.limit best.now.keys result.offers.bound }
{
    Walk {
        offers: best.offers(),
        place: 0,
    }
}

// It stands alone, so that the loops above stay small.
#[inline(never)]
fn offer_one(
    tables: &Tables,
    id: TaskId,
    person: Person,
    role: Option<Role>,
    which: Which,
    best: &mut Best,
    walk: &mut Walk,
) -> Result<(), Memory>
    requires person { person < length tables.now.tables.people.persons }
    requires few { walk.old.offers.total < 2 ^ 32 - 1 }
    requires bounds { Bounds best.old.limit best.old.keys walk.old.offers.bound }
    ensures offered { OnOk result (told best.new walk.new.offers.total
        ≡ fold with_key (told best.old walk.old.offers.total)
        (asked_keys tables.now.tables person role which (id ∷ []))) }
    ensures few { OnOk result (walk.new.offers.total ≤ walk.old.offers.total + 1) }
    ensures bounds { OnOk result (Bounds best.new.limit best.new.keys walk.new.offers.bound) }
{
    let Some(row) = tables.row(id) else {
        return Ok(());
    };
    if is_asked(tables, row, person, role, which, &mut walk.place) {
        best.offer(tables, id, row, &mut walk.offers)
    } else {
        Ok(())
    }
}
