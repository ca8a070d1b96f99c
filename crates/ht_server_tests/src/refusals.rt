use crate::doors::{NO_LINKS, Script};
use crate::offices::{Disks, run};
use ht_program::Status;
use std::test::Fail;

const FAILING: Script = Script {
    links: &[],
    failing: &[1],
    rests: 0,
    left: 0,
};

// How the options of a service end, the bytes of its journal, the calls of the journal's disk that
// fail, and the door, before the status and the complaint.
const ROWS: [(&str, &[u8], &[u32], Script<'_>, u8, &str); 6] = [
    (
        "--limit",
        b"",
        &[],
        NO_LINKS,
        2,
        "usage: office run, serve, check, load or export\n",
    ),
    (
        "--models bad --people p",
        b"",
        &[],
        NO_LINKS,
        4,
        "models: Syntax\n",
    ),
    (
        "",
        b"no journal",
        &[],
        NO_LINKS,
        5,
        "journal: damaged at 0\n",
    ),
    ("", b"", &[1], NO_LINKS, 6, "journal: store\n"),
    ("", b"", &[], FAILING, 10, "door\n"),
    ("", b"", &[], NO_LINKS, 10, "door\n"),
];

#[test]
fn an_office_that_is_not_served_is_told(rt: HostRuntime) -> Result<(), Fail> {
    for (options, bytes, failing, script, status, complaint) in ROWS {
        let line = "serve --journal j --port 1 --workers 1 --tick 1 --connections 1";
        let line = format!(in rt.alloc(); "{line} {options}")?;
        let mut disks = Disks::make(rt.alloc(), bytes, failing)?;
        let ran = run(&rt, rt.alloc(), line.as_str(), &mut disks, &script, "")?;
        assert_eq!(rt; ran.status, Status(status), "{options}");
        assert!(rt; ran.output.written().is_empty(), "{options}");
        assert!(rt;
            ran.complaints.written() == complaint.as_bytes(),
            "{options}"
        );
    }
    Ok(())
}

#[test]
fn other_words_need_no_door(rt: HostRuntime) -> Result<(), Fail> {
    let mut disks = Disks::make(rt.alloc(), b"", &[])?;
    let line = "check --models m --people p";
    let ran = run(&rt, rt.alloc(), line, &mut disks, &FAILING, "")?;
    assert_eq!(rt; ran.status, Status(0));
    assert!(rt; ran.output.written() == b"models 10 persons 5 groups 1\n".as_slice());
    assert!(rt; run(&rt, rt.alloc(), "serve", &mut disks, &NO_LINKS, "")?.status == Status(2));
    Ok(())
}
