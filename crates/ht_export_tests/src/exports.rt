use crate::office::{empty_office, happens};
use ht_export::{ExportFault, export};
use ht_outside::MemorySink;
use ht_tree::Tables;
use std::alloc::Global;
use std::test::Fail;

// Task 1 is claimed, task 2 has the sub tasks 3 and 4, of which ben has completed the first, and task 5
// has no potential owners and is made in the last moment there is.
const DONE: &str = "\
1000 dan create unit
2000 anna claim 1
3000 dan create both
4000 anna start 2
951782400000 ben start 3
951782400001 ben complete 3
253402300799999 cora create shut";

// A sub task's initiator is the owner of its parent.
const EXPORTED: &str = "\
task,parent,model,state,owner,lastOwner,initiator,priority,created
1,,unit,Reserved,anna,,dan,5,1970-01-01T00:00:01.000Z
2,,both,InProgress,anna,,dan,5,1970-01-01T00:00:03.000Z
3,2,unit,Completed,,ben,anna,5,1970-01-01T00:00:04.000Z
4,2,unit,Ready,,,anna,5,1970-01-01T00:00:04.000Z
5,,shut,Created,,,cora,5,9999-12-31T23:59:59.999Z
";

#[test]
fn tasks_of_several_states(rt: HostRuntime) -> Result<(), Fail> {
    let mut tables = empty_office(rt.alloc())?;
    for line in DONE.lines() {
        happens(rt.alloc(), &mut tables, line)?;
    }
    let mut output = MemorySink::make(rt.alloc(), Vec::new(rt.alloc()))?;
    export(rt.alloc(), &tables, &mut output)?;
    assert!(rt; output.written() == EXPORTED.as_bytes());
    Ok(())
}

// An office with so many tasks, and what is exported of it: more than one piece.
fn many_tasks(alloc: Global, tasks: u32) -> Result<(Tables, String), Fail> {
    let mut tables = empty_office(alloc)?;
    let mut text = String::new(alloc);
    text.push_str("task,parent,model,state,owner,lastOwner,initiator,priority,created\n")?;
    for before in 0..tasks {
        happens(alloc, &mut tables, "951825600250 dan create unit")?;
        let number = u64::from(before) + 1;
        let line = format!(in alloc; "{number},,unit,Ready,,,dan,5,2000-02-29T12:00:00.250Z\n")?;
        text.push_str(line.as_str())?;
    }
    Ok((tables, text))
}

#[test]
fn several_pieces(rt: HostRuntime) -> Result<(), Fail> {
    let (tables, text) = many_tasks(rt.alloc(), 700)?;
    let mut output = MemorySink::make(rt.alloc(), Vec::new(rt.alloc()))?;
    export(rt.alloc(), &tables, &mut output)?;
    assert!(rt; output.written() == text.as_bytes());
    Ok(())
}

#[test]
fn a_second_piece_that_is_not_written(rt: HostRuntime) -> Result<(), Fail> {
    let (tables, text) = many_tasks(rt.alloc(), 700)?;
    let mut failing = Vec::new(rt.alloc());
    failing.push(2)?;
    let mut output = MemorySink::make(rt.alloc(), failing)?;
    assert!(rt; export(rt.alloc(), &tables, &mut output) == Err(ExportFault::Failed));
    assert!(rt; output.written().len() >= 16_384);
    assert!(rt; text.as_bytes().starts_with(output.written()));
    Ok(())
}
