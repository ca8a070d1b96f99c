ghost use Rattle.std.specs.Prelude.{◌≡◌};
ghost use Rattle.ht_shared.specs.Passes.{IsOf, IsSamePass};

use crate::adding::{Sum, lock};
use ht_shared::{Pass, Shared};
use std::alloc::Global;
use std::sync::Wait;
use std::test::Fail;
use std::thread::join;

// Adds 1 so many times, and gives the pass back with the sums that were answered.
fn add_often<R: Wait>(
    rt: &R,
    alloc: Global,
    shared: &Shared<Sum>,
    mut pass: Pass<Sum>,
    count: u32,
) -> (Pass<Sum>, Vec<u64>)
    requires { IsOf shared.now pass }
    ensures { IsSamePass pass result.0 }
{
    let mut sums = Vec::new(alloc);
    for _ in 0..count {
        if let Ok((sum, _)) = shared.call(rt, &mut pass, &1) {
            let _ = sums.push(sum);
        }
    }
    (pass, sums)
}

#[test]
fn two_threads_add_a_thousand_times_each(rt: HostRuntime) -> Result<(), Fail> {
    let alloc = rt.alloc();
    let (shared, first) = lock(alloc, 0)?;
    let mut first = first;
    let second = shared.split(&mut first)?;
    let handle = &rt;
    let line = &shared;
    let (one, two) = join(
        handle,
        move || -> (Pass<Sum>, Vec<u64>)
            requires { IsOf line.now first }
            ensures { IsSamePass first result.0 }
        { add_often(handle, alloc, line, first, 1000) },
        move || -> (Pass<Sum>, Vec<u64>)
            requires { IsOf line.now second }
            ensures { IsSamePass second result.0 }
        { add_often(handle, alloc, line, second, 1000) },
    );
    let (mut first, ones) = one;
    let (second, twos) = two;
    assert!(&rt; ones.len() == 1000 && twos.len() == 1000);
    assert!(&rt; ones.as_slice().is_sorted() && twos.as_slice().is_sorted());
    let mut all = ones;
    let mut twos = twos;
    all.append(&mut twos)?;
    all.as_mut_slice().sort_unstable();
    shared.join(&mut first, second);
    assert_eq!(rt; shared.close(first).total, 2000);
    let mut expected: u64 = 1;
    for sum in &all {
        assert_eq!(rt; *sum, expected);
        expected = expected.wrapping_add(1);
    }
    assert_eq!(rt; expected, 2001);
    Ok(())
}
