use crate::runs::words;
use ht_program::{Work, are_alone, words_of};
use std::test::Fail;

// Words of `serve`, and what they say: a port, workers, a tick and, where they are told, connections.
const ROWS: &str = "\
serve --journal j --port 80 --workers 2 --tick 250 => 80 2 250 None
serve --tick 1 --workers 1 --port 1 --journal j --connections 1 => 1 1 1 Some(1)
serve --journal j --port 65535 --workers 64 --tick 3600000 --connections 1000000 --limit 1048576 \
    --people p --models m => 65535 64 3600000 Some(1000000)";

const WRONG_WORDS: &str = "\
serve
serve --from 0 --step 0
serve --port 80 --workers 2 --tick 250
serve --journal j --workers 2 --tick 250
serve --journal j --port 80 --tick 250
serve --journal j --port 80 --workers 2
serve --journal j --port 0 --workers 2 --tick 250
serve --journal j --port 65536 --workers 2 --tick 250
serve --journal j --port 080 --workers 2 --tick 250
serve --journal j --port 80 --workers 0 --tick 250
serve --journal j --port 80 --workers 65 --tick 250
serve --journal j --port 80 --workers 2 --tick 0
serve --journal j --port 80 --workers 2 --tick 3600001
serve --journal j --port 80 --workers 2 --tick 250 --connections 0
serve --journal j --port 80 --workers 2 --tick 250 --connections 1000001
serve --journal j --port 80 --workers 2 --tick 250 --models m
serve --journal j --port 80 --workers 2 --tick 250 --limit 1048575
serve --journal j --port 80 --workers 2 --tick 250 --step 0";

#[test]
fn words_of_a_service_are_read(rt: HostRuntime) -> Result<(), Fail> {
    for row in ROWS.lines() {
        let (line, want) = row.split_once(" => ").ok_or("a row")?;
        let words = words(rt.alloc(), line)?;
        let said = words_of(&words).ok_or("words of the program")?;
        let Work::Serve(service) = said.work else {
            return Err(Fail::from("another command"));
        };
        let connections = service.connections;
        let told = format!(in rt.alloc();
            "{} {} {} {connections:?}",
            service.port, service.workers, service.tick
        )?;
        assert_eq!(rt; told.as_str(), want);
        assert!(rt; said.journal == Some("j"));
        assert!(rt; !are_alone(&words));
    }
    Ok(())
}

#[test]
fn wrong_words_of_a_service_are_refused(rt: HostRuntime) -> Result<(), Fail> {
    for line in WRONG_WORDS.lines() {
        let words = words(rt.alloc(), line)?;
        assert!(rt; words_of(&words).is_none(), "{line}");
    }
    Ok(())
}
