use crate::doors::{NO_LINKS, Script};
use crate::offices::{Disks, Ran, run};
use ht_program::Status;
use std::alloc::Global;
use std::sync::Wait;
use std::test::Fail;
use std::thread::Threads;

const CREATE_LATE: &str = "\
POST /tasks HTTP/1.1\r\nx-person: dan\r\ncontent-length: 16\r\n\r\n{\"model\":\"late\"}";

const CREATE_TWO: &str = "\
POST /tasks HTTP/1.1\r\nx-person: dan\r\ncontent-length: 16\r\n\r\n{\"model\":\"unit\"}\
POST /tasks HTTP/1.1\r\nx-person: dan\r\ncontent-length: 16\r\n\r\n{\"model\":\"unit\"}";

const CLAIM: &str = "POST /tasks/1/claim HTTP/1.1\r\nx-person: anna\r\n\r\n";

const CLAIM_OTHER: &str = "POST /tasks/2/claim HTTP/1.1\r\nx-person: ben\r\n\r\n";

const NOTICES: &str = "GET /notifications/0/10 HTTP/1.1\r\nx-person: dan\r\n\r\n";

const CLAIMED: &str = "GET /lists/any/Reserved/0/10 HTTP/1.1\r\nx-person: cora\r\n\r\n";

const NOTICE: &str = "{\"rows\":[{\"deadline\":\"begin\",\"escalation\":\"tell\",\"moment\":6000,\
    \"number\":1,\"task\":1}],\"total\":1}";

const ONE_ROW: &str = "{\"rows\":[{\"created\":1000,\"model\":\"unit\",\"owner\":\"anna\",\
    \"priority\":5,\"state\":\"Reserved\",\"task\":1}],\"total\":1}";

// Whether this is a reply that says yes, with this text.
fn is_reply(bytes: &[u8], text: &str) -> bool {
    bytes.starts_with(b"HTTP/1.1 200 OK\r\n") && bytes.ends_with(text.as_bytes())
}

// Whether all connections were served, with these counts behind that of the turns.
fn is_served(ran: &Ran, counts: &[u8]) -> bool {
    let line = ran.output.written();
    let all = ran.status == Status(0) && ran.complaints.written().is_empty() && !ran.in_vain;
    all && line.starts_with(b"turns ") && line.ends_with(counts)
}

// The disks of an office with these models, behind these requests, at the moments 1000, 2000 and on.
fn disks<R: Threads + Wait + Sync>(
    rt: &R,
    alloc: Global,
    models: &str,
    input: &str,
) -> Result<Disks, Fail> {
    let mut disks = Disks::make(alloc, b"", &[])?;
    let line = format!(in alloc;
        "run --from 1000 --step 1000 --journal j --people p --models {models}"
    )?;
    let ran = run(rt, alloc, line.as_str(), &mut disks, &NO_LINKS, input)?;
    if ran.status != Status(0) || ran.output.written().is_empty() {
        return Err(Fail::new("the office was not made"));
    }
    Ok(disks)
}

#[test]
fn a_deadline_is_taken_without_a_request(rt: HostRuntime) -> Result<(), Fail> {
    let mut disks = disks(&rt, rt.alloc(), "late", CREATE_LATE)?;
    let script = Script {
        links: &[NOTICES],
        failing: &[],
        rests: 10,
        left: 0,
    };
    let line = "serve --workers 1 --connections 1 --tick 7 --port 1 \
        --models late --people p --journal j";
    let ran = run(&rt, rt.alloc(), line, &mut disks, &script, "")?;
    assert!(rt; is_served(&ran, b" accepted 0 raised 1\n"));
    assert!(rt; is_reply(ran.first.as_slice(), NOTICE));
    Ok(())
}

#[test]
fn workers_serve_at_once(rt: HostRuntime) -> Result<(), Fail> {
    let mut disks = disks(&rt, rt.alloc(), "m", CREATE_TWO)?;
    let script = Script {
        links: &[CLAIM, CLAIM_OTHER],
        failing: &[],
        rests: 0,
        left: 1,
    };
    let line = "serve --workers 2 --connections 2 --tick 7 --port 1 \
        --models m --people p --journal j";
    let ran = run(&rt, rt.alloc(), line, &mut disks, &script, "")?;
    assert!(rt; is_served(&ran, b" accepted 2 raised 0\n"));
    assert!(rt;
        is_reply(
            ran.first.as_slice(),
            "{\"owner\":\"anna\",\"state\":\"Reserved\",\"task\":1}"
        )
    );
    assert!(rt;
        is_reply(
            ran.second.as_slice(),
            "{\"owner\":\"ben\",\"state\":\"Reserved\",\"task\":2}"
        )
    );
    Ok(())
}

#[test]
fn what_was_claimed_is_seen_by_all(rt: HostRuntime) -> Result<(), Fail> {
    let mut disks = disks(&rt, rt.alloc(), "m", CREATE_TWO)?;
    let script = Script {
        links: &[CLAIM, CLAIMED],
        failing: &[],
        rests: 0,
        left: 0,
    };
    let line = "serve --workers 1 --connections 2 --tick 7 --port 1 \
        --models m --people p --journal j";
    let ran = run(&rt, rt.alloc(), line, &mut disks, &script, "")?;
    assert!(rt; is_served(&ran, b" accepted 1 raised 0\n"));
    assert!(rt;
        is_reply(ran.second.as_slice(), ONE_ROW),
        "the next connection"
    );
    let line = "run --from 20000 --step 0 --models m --people p --journal j";
    let ran = run(&rt, rt.alloc(), line, &mut disks, &NO_LINKS, CLAIMED)?;
    assert!(rt; is_reply(ran.output.written(), ONE_ROW), "the next run");
    Ok(())
}
