use crate::adding::lock;
use std::test::Fail;

#[test]
fn a_machine_comes_back_as_it_was_given(rt: HostRuntime) -> Result<(), Fail> {
    let (shared, first) = lock(rt.alloc(), 7)?;
    assert_eq!(rt; shared.close(first).total, 7);
    Ok(())
}

#[test]
fn a_call_answers_the_sum_behind_it(rt: HostRuntime) -> Result<(), Fail> {
    let (shared, first) = lock(rt.alloc(), 2)?;
    let mut first = first;
    assert_eq!(rt; shared.call(&rt, &mut first, &5)?, (7, 0));
    assert_eq!(rt; shared.call(&rt, &mut first, &0)?, (7, 0));
    assert_eq!(rt; shared.call(&rt, &mut first, &u64::MAX)?, (6, 0));
    assert_eq!(rt; shared.close(first).total, 6);
    Ok(())
}

#[test]
fn passes_take_turns_at_one_machine(rt: HostRuntime) -> Result<(), Fail> {
    let (shared, first) = lock(rt.alloc(), 0)?;
    let mut first = first;
    let mut second = shared.split(&mut first)?;
    let mut third = shared.split(&mut first)?;
    assert_eq!(rt; shared.call(&rt, &mut third, &1)?, (1, 2));
    assert_eq!(rt; shared.call(&rt, &mut first, &10)?, (11, 0));
    assert_eq!(rt; shared.call(&rt, &mut second, &100)?, (111, 1));
    assert_eq!(rt; shared.call(&rt, &mut third, &1000)?, (1111, 2));
    shared.join(&mut first, third);
    shared.join(&mut first, second);
    assert_eq!(rt; shared.close(first).total, 1111);
    Ok(())
}

#[test]
fn a_pass_comes_in_by_way_of_another(rt: HostRuntime) -> Result<(), Fail> {
    let (shared, first) = lock(rt.alloc(), 0)?;
    let mut first = first;
    let mut second = shared.split(&mut first)?;
    let mut third = shared.split(&mut first)?;
    assert_eq!(rt; shared.call(&rt, &mut second, &1)?, (1, 1));
    shared.join(&mut third, second);
    assert_eq!(rt; shared.call(&rt, &mut third, &2)?, (3, 2));
    shared.join(&mut first, third);
    assert_eq!(rt; shared.call(&rt, &mut first, &4)?, (7, 0));
    assert_eq!(rt; shared.close(first).total, 7);
    Ok(())
}

#[test]
fn passes_are_given_after_a_join(rt: HostRuntime) -> Result<(), Fail> {
    let (shared, first) = lock(rt.alloc(), 0)?;
    let mut first = first;
    let mut second = shared.split(&mut first)?;
    assert_eq!(rt; shared.call(&rt, &mut second, &1)?, (1, 1));
    shared.join(&mut first, second);
    let mut third = shared.split(&mut first)?;
    assert_eq!(rt; shared.call(&rt, &mut third, &2)?, (3, 2));
    shared.join(&mut first, third);
    assert_eq!(rt; shared.close(first).total, 3);
    Ok(())
}
