use crate::runs::{Office, disk_of, run_office, run_on, source_of};
use ht_program::Status;
use ht_samples::{MODELS, PEOPLE};
use std::test::Fail;

const SAMPLES: Office = Office {
    texts: &[("m", MODELS), ("p", PEOPLE)],
    failing: &[],
};

// The words of a command, and the line that it writes in an office without tasks.
const ROWS: &str = "\
check --models m --people p => models 10 persons 5 groups 1
load --seed 7 --count 0 => requests 0 accepted 0 refused 0 tasks 0
load --seed 7 --count 1 => requests 1 accepted 1 refused 0 tasks 1
export --journal j => task,parent,model,state,owner,lastOwner,initiator,priority,created";

#[test]
fn commands_write_their_lines(rt: HostRuntime) -> Result<(), Fail> {
    for row in ROWS.lines() {
        let (words, line) = row.split_once(" => ").ok_or("a row")?;
        let ran = run_office(rt.alloc(), words, &SAMPLES, "", &[], &[])?;
        let line = format!(in rt.alloc(); "{line}\n")?;
        assert_eq!(rt; ran.status, Status(0), "{row}");
        assert!(rt; ran.output.written() == line.as_bytes(), "{row}");
    }
    Ok(())
}

const INPUT: &str = "\
POST /tasks HTTP/1.1\r\nx-person: dan\r\ncontent-length: 16\r\n\r\n{\"model\":\"unit\"}\
POST /tasks/1/claim HTTP/1.1\r\nx-person: anna\r\n\r\n";

const SHEET: &str = "\
task,parent,model,state,owner,lastOwner,initiator,priority,created
1,,unit,Reserved,anna,,dan,5,1970-01-01T00:00:01.000Z
";

#[test]
fn the_tasks_of_a_journal_are_exported(rt: HostRuntime) -> Result<(), Fail> {
    let mut first = disk_of(rt.alloc(), &[])?;
    let mut second = disk_of(rt.alloc(), &[])?;
    let line = "run --from 1000 --step 1000 --models m --people p --journal j";
    let input = source_of(rt.alloc(), INPUT, &[])?;
    let ran = run_on(
        rt.alloc(),
        line,
        &SAMPLES,
        &mut first,
        &mut second,
        input,
        &[],
    )?;
    assert_eq!(rt; ran.status, Status(0));
    let line = "export --journal j --people p --models m";
    let input = source_of(rt.alloc(), INPUT, &[])?;
    let ran = run_on(
        rt.alloc(),
        line,
        &SAMPLES,
        &mut first,
        &mut second,
        input,
        &[],
    )?;
    assert_eq!(rt; ran.status, Status(0));
    assert!(rt; ran.output.written() == SHEET.as_bytes());
    Ok(())
}
