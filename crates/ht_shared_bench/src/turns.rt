ghost use Rattle.std.specs.Prelude.{◌≡◌, IfSome};
ghost use Rattle.ht_shared.specs.Passes.{IsOf};

use ht_base::Stepper;
use ht_shared::{Pass, Shared};
use std::alloc::Global;
use std::sync::Wait;
use std::thread::{Threads, join};

// A number. A step adds to it, and answers the sum.
#[derive(Drop)]
struct Sum {
    total: u64,
}

impl Stepper for Sum {
    type Event = u64;

    type Reply = u64;

    ghost use Rattle.std.specs.Prelude.{◌≡◌, ◌+◌, ◌%◌, ◌^◌, ⊤};

    ghost takes = { λ _. ⊤ };

    ghost stands = { λ _. ⊤ };

    ghost relates = { λ old event reply new. (new.total ≡ (old.total + event) % 2 ^ 64)
        × (reply ≡ new.total) };

    fn step(&mut self, _seat: u32, event: &u64) -> u64 {
        self.total = self.total.wrapping_add(*event);
        self.total
    }
}

// Adds one so often.
fn add<R: Wait>(rt: &R, shared: &Shared<Sum>, mut pass: Pass<Sum>, calls: u32)
    requires pass { IsOf shared.now pass }
{
    for _ in 0..calls {
        let _ = shared.call(rt, &mut pass, &1);
    }
}

fn add_in_two<R: Threads + Wait + Sync>(
    rt: &R,
    shared: &Shared<Sum>,
    first: Pass<Sum>,
    second: Pass<Sum>,
    calls: u32,
)
    requires first { IsOf shared.now first }
    requires second { IsOf shared.now second }
{
    join(
        rt,
        move ||
            requires first { IsOf shared.now first }
        { add(rt, shared, first, calls) },
        move ||
            requires second { IsOf shared.now second }
        { add(rt, shared, second, calls) },
    );
}

fn add_in_four<R: Threads + Wait + Sync>(
    rt: &R,
    shared: &Shared<Sum>,
    first: Pass<Sum>,
    second: Pass<Sum>,
    third: Pass<Sum>,
    fourth: Pass<Sum>,
    calls: u32,
)
    requires first { IsOf shared.now first }
    requires second { IsOf shared.now second }
    requires third { IsOf shared.now third }
    requires fourth { IsOf shared.now fourth }
{
    join(
        rt,
        move ||
            requires first { IsOf shared.now first }
            requires second { IsOf shared.now second }
        { add_in_two(rt, shared, first, second, calls) },
        move ||
            requires third { IsOf shared.now third }
            requires fourth { IsOf shared.now fourth }
        { add_in_two(rt, shared, third, fourth, calls) },
    );
}

fn add_in_eight<R: Threads + Wait + Sync>(
    rt: &R,
    shared: &Shared<Sum>,
    first: Pass<Sum>,
    second: Pass<Sum>,
    third: Pass<Sum>,
    fourth: Pass<Sum>,
    fifth: Pass<Sum>,
    sixth: Pass<Sum>,
    seventh: Pass<Sum>,
    eighth: Pass<Sum>,
    calls: u32,
)
    requires first { IsOf shared.now first }
    requires second { IsOf shared.now second }
    requires third { IsOf shared.now third }
    requires fourth { IsOf shared.now fourth }
    requires fifth { IsOf shared.now fifth }
    requires sixth { IsOf shared.now sixth }
    requires seventh { IsOf shared.now seventh }
    requires eighth { IsOf shared.now eighth }
{
    join(
        rt,
        move ||
            requires first { IsOf shared.now first }
            requires second { IsOf shared.now second }
            requires third { IsOf shared.now third }
            requires fourth { IsOf shared.now fourth }
        { add_in_four(rt, shared, first, second, third, fourth, calls) },
        move ||
            requires fifth { IsOf shared.now fifth }
            requires sixth { IsOf shared.now sixth }
            requires seventh { IsOf shared.now seventh }
            requires eighth { IsOf shared.now eighth }
        { add_in_four(rt, shared, fifth, sixth, seventh, eighth, calls) },
    );
}

// The next pass.
fn given(shared: &Shared<Sum>, first: &mut Pass<Sum>) -> Option<Pass<Sum>>
    requires of { IsOf shared.now first.old }
    requires first { first.old.number ≡ 0 }
    ensures of { IsOf shared.now first.new }
    ensures first { first.new.number ≡ 0 }
    ensures given { IfSome result (λ pass. IsOf shared.now pass) }
{
    shared.split(first).ok()
}

// Has as many threads add one so often each.
fn add_in<R: Threads + Wait + Sync>(
    rt: &R,
    shared: &Shared<Sum>,
    first: &mut Pass<Sum>,
    threads: u32,
    calls: u32,
) -> Option<()>
    requires of { IsOf shared.now first.old }
    requires first { first.old.number ≡ 0 }
    ensures of { IsOf shared.now first.new }
{
    let one = given(shared, first)?;
    if threads == 1 {
        add(rt, shared, one, calls);
        return Some(());
    }
    let two = given(shared, first)?;
    if threads == 2 {
        add_in_two(rt, shared, one, two, calls);
        return Some(());
    }
    let three = given(shared, first)?;
    let four = given(shared, first)?;
    if threads == 4 {
        add_in_four(rt, shared, one, two, three, four, calls);
        return Some(());
    }
    let five = given(shared, first)?;
    let six = given(shared, first)?;
    let seven = given(shared, first)?;
    let eight = given(shared, first)?;
    add_in_eight(
        rt, shared, one, two, three, four, five, six, seven, eight, calls,
    );
    Some(())
}

/// The number to which 1, 2, 4 or 8 threads add one so often each. None where there is no memory.
pub(crate) fn by_turns<R: Threads + Wait + Sync>(
    rt: &R,
    alloc: Global,
    threads: u32,
    calls: u32,
) -> Option<u64> {
    let Ok((shared, first)) = Shared::make(alloc, Sum { total: 0 }) else {
        return None;
    };
    let mut first = first;
    add_in(rt, &shared, &mut first, threads, calls)?;
    shared.call(rt, &mut first, &0).ok()
}
