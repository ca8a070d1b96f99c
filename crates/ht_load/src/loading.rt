ghost use Rattle.std.specs.Prelude.{◌≡◌, ◌-◌, ◌^◌, ◌<◌};
ghost use Rattle.ht_desk.specs.Stepping.{Stands};
ghost use Rattle.ht_load.specs.Loads.{LoadsOver, Makes};
ghost use Rattle.ht_load.specs.Requests.{thrice};

use crate::answered::Answered;
use crate::requests::next_request;
use crate::{Draws, Sums};
use ht_desk::{
    DeskState, a_step_of_a_desk_fails_with_its_disk_alone, a_step_of_a_desk_is_made_of_the_machines,
};
use ht_outside::Disk;
use std::alloc::Global;

/// Makes so many requests from a seed, one after another, of an office that has a model `unit` and persons
/// `p0` to `p15`, as the built-in one has. Request k, counted from 0, is at the moment k, in milliseconds
/// since 1970-01-01T00:00:00Z.
///
/// It goes on whatever a request is answered: a request that a disk or want of memory refuses is one of the
/// refused.
pub fn load<D: Disk>(
    alloc: Global,
    desk: &mut DeskState,
    disk: &mut D,
    seed: u64,
    count: u32,
) -> Sums
    requires at { Stands D.Disk desk.old disk.old }
    ensures loads { LoadsOver D.Disk seed count desk.old desk.new disk.old disk.new result }
    ensures goes_on { Stands D.Disk desk.new disk.new }
{
    a_step_of_a_desk_is_made_of_the_machines();
    a_step_of_a_desk_fails_with_its_disk_alone();
    let mut draws = Draws { x: seed };
    let mut answered = Answered {
        accepted: 0,
        refused: 0,
    };
    for k in 0..count {
        answered = make_one(alloc, desk, disk, &mut draws, k, answered);
    }
    Sums {
        requests: count,
        accepted: answered.accepted,
        refused: answered.refused,
        tasks: desk.tables().rows(),
    }
}

// Makes request number k.
fn make_one<D: Disk>(
    alloc: Global,
    desk: &mut DeskState,
    disk: &mut D,
    draws: &mut Draws,
    k: u32,
    answered: Answered,
) -> Answered
    requires at { Stands D.Disk desk.old disk.old }
    requires accepted { answered.accepted < 2 ^ 32 - 1 }
    requires refused { answered.refused < 2 ^ 32 - 1 }
    ensures makes { Makes D.Disk draws.old.x k desk.old desk.new disk.old disk.new answered result }
    ensures draws { draws.new.x ≡ thrice draws.old.x }
    ensures goes_on { Stands D.Disk desk.new disk.new }
{
    let event = next_request(alloc, draws, k, desk.tables().rows());
    let reply = desk.step(disk, &event);
    answered.with(&reply.answer)
}
