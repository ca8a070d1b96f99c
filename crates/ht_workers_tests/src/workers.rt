use crate::offices::{CLAIM_AND_READ, NONSENSE, READ, RESERVED, clock, door, lock};
use ht_base::{Event, Moment, Reply};
use ht_serve::{Caller, Quiet};
use ht_workers::{Finish, Line, Tickets, Watch, WorkEnd, timer_loop, work};
use std::test::Fail;

#[test]
fn a_worker_serves_its_share(rt: HostRuntime) -> Result<(), Fail> {
    let alloc = rt.alloc();
    let (shared, pass) = lock(alloc)?;
    let mut pass = pass;
    let mut door = door(&rt, alloc, &[CLAIM_AND_READ, NONSENSE, READ])?;
    let tickets = Tickets::new(1);
    let two = work(
        &rt,
        alloc,
        &shared,
        &mut pass,
        &mut door,
        &mut clock(),
        &Quiet,
        &tickets,
        Some(2),
    );
    assert_eq!(rt; two, WorkEnd::Done);
    let mut want = String::new(alloc);
    want.push_str(RESERVED)?;
    want.push_str(RESERVED)?;
    assert_eq!(rt; door.written(0)?.as_slice(), want.as_bytes());
    assert!(rt; door.written(1)?.as_slice().starts_with(b"HTTP/1.1 400 "));
    assert_eq!(rt;
        door.written(2)?.as_slice(),
        b"".as_slice(),
        "it is past the share"
    );
    let rest = work(
        &rt,
        alloc,
        &shared,
        &mut pass,
        &mut door,
        &mut clock(),
        &Quiet,
        &tickets,
        None,
    );
    assert_eq!(rt; rest, WorkEnd::Door, "no link is left");
    assert_eq!(rt; door.written(2)?.as_slice(), RESERVED.as_bytes());
    assert_eq!(rt; shared.close(pass).asked, 3);
    Ok(())
}

#[test]
fn a_timer_ends_where_no_worker_is_at_work(rt: HostRuntime) -> Result<(), Fail> {
    let (shared, pass) = lock(rt.alloc())?;
    let mut pass = pass;
    let mut line = Line {
        rt: &rt,
        shared: &shared,
        pass: &mut pass,
    };
    assert!(rt; line.call(&Event::Turn { at: Moment(5) }).is_ok());
    let Line {
        rt: _,
        shared: _,
        pass: _,
    } = line;
    let tickets = Tickets::new(3);
    let mut watch = Watch::new(&tickets);
    assert!(rt; !watch.done());
    tickets.end();
    assert_eq!(rt;
        timer_loop(&rt, &shared, &mut pass, &mut clock(), 0, &mut watch),
        1
    );
    assert_eq!(rt; shared.close(pass).turns, 2);
    Ok(())
}
