ghost use Rattle.std.specs.Prelude.{◌≡◌, ◌≢◌, ◌⊎◌, ◌↔◌, ℕ, List, None, Ok, Some, IfNone, IfSome, map, string_bytes};
ghost use Rattle.ht_outside.specs.Causes.{Rose};
ghost use Rattle.ht_outside.specs.Tells.{SourceState};
ghost use Rattle.ht_outside.specs.Texts.{TextsState};
ghost use Rattle.ht_program.specs.Attaching.{disks};
ghost use Rattle.ht_program.specs.Inputs.{IsAnswered, IsStatusOf, budget};
ghost use Rattle.ht_program.specs.Named.{words_told};
ghost use Rattle.ht_program.specs.Office.{IsAtFault, outside, outside_of};
ghost use Rattle.ht_program.specs.OfficeTexts.{AreShort, texts_seen};
ghost use Rattle.ht_program.specs.Reading.{AreWrong, AsksFor, Reads};
ghost use Rattle.ht_program.specs.Reports.{IsReport, IsReporting, Reports};
ghost use Rattle.ht_program.specs.Running.{Complains};
ghost use Rattle.ht_program.specs.Statuses.{usage_line};
ghost use Rattle.ht_program.specs.Words.{AreWords, IsAlone, WordsOf};
ghost use Rattle.ht_program.specs.Words.WorkOf.{running};
ghost use Rattle.ht_server.specs.Services.{OfficeRuns};

use crate::service::{line_of, status_of};
use crate::serving::serve;
use ht_desk::the_journal_of_an_office_has_no_fault;
use ht_doors::Door;
use ht_outside::{Clock, Disk, Sink, Source, Texts};
use ht_program::{
    OfficeTexts, Status, USAGE_LINE, Words, Work, are_alone, complain, complain_of, line_of_fault,
    office_alone, read_texts, status_of_fault, status_of_missing, words_of,
};
use std::alloc::Global;
use std::sync::Wait;
use std::thread::Threads;

/// The whole program over its words, its texts, its disks, its clock and its door, its input, its output
/// and its complaints.
///
/// `serve --journal NAME --port P --workers W --tick T` opens the office of the texts (see
/// [`office_alone`]) on the two disks of the journal, listens at the port, and serves connections by W
/// workers beside a timer, which makes a turn and then rests for T milliseconds. With `--connections N`
/// it ends behind N connections, which the workers share, and writes `turns T accepted A raised R`; else
/// it goes on until it is stopped. It promises what it promises if it returns. All other words are those
/// of [`office_alone`], for which neither the clock nor the door is asked.
pub fn office<
    X: Texts,
    D: Disk + Send,
    C: Clock + Send,
    L: Door + Send,
    S: Source,
    K: Sink,
    Q: Sink,
    R: Threads + Wait + Sync,
>(
    rt: &R,
    alloc: Global,
    words: &Vec<String>,
    texts: &mut X,
    first: &mut D,
    second: &mut D,
    clock: &C,
    door: &mut L,
    input: &mut S,
    output: &mut K,
    complaints: &mut Q,
) -> Status
    ensures usage { (result.0 ≡ 2)
        ↔ ((said : WordsOf) → AreWords (map string_bytes words.now.items) said → ⊥) }
    ensures refused { result.0 ≡ 2
        → (texts.new ≡ texts.old) × (first.new ≡ first.old) × (second.new ≡ second.old)
        × (door.new ≡ door.old) × (input.new ≡ input.old) × (output.new ≡ output.old)
        × Complains (Q.sink_state complaints.old) (Q.sink_state complaints.new) usage_line }
    ensures work { result.0 ≢ 2
        → (said : WordsOf) × AreWords (map string_bytes words.now.items) said
        × OfficeRuns D.Disk said (disks first.old second.old) (disks first.new second.new)
        (L.door_state door.old) (L.door_state door.new)
        (outside_of X.Texts S.Source K.Sink Q.Sink texts.old input.old output.old complaints.old)
        (outside_of X.Texts S.Source K.Sink Q.Sink texts.new input.new output.new complaints.new)
        result.0 }
    ensures report { (said : WordsOf) → AreWords (map string_bytes words.now.items) said
        → IsReporting said.work
        → Reports (IsReport said (X.texts_state texts.old).texts (D.gives first.old))
        (K.sink_state output.old) (K.sink_state output.new) result.0 }
    ensures unread_input { (said : WordsOf) → AreWords (map string_bytes words.now.items) said
        → IsReporting said.work ⊎ (IsAlone said.work → ⊥)
        → S.source_state input.new ≡ S.source_state input.old }
    ensures unread { result.0 ≡ 3
        → Rose (X.texts_state texts.old).faults (X.texts_state texts.new).faults }
    ensures wrong { (said : WordsOf) (names : List ℕ × List ℕ)
        → AreWords (map string_bytes words.now.items) said → said.texts ≡ Some names
        → IfSome (X.texts_state texts.old).texts (λ text.
        result.0 ≢ 3 → result.0 ≢ 6 → result.0 ≢ 8
        → (result.0 ≡ 4) ↔ AreWrong (text names.0) (text names.1)) }
    ensures built_in { (said : WordsOf) → AreWords (map string_bytes words.now.items) said
        → said.texts ≡ None
        → (result.0 ≢ 3) × (result.0 ≢ 4) × (texts.new ≡ texts.old) }
    ensures journal { (said : WordsOf) → AreWords (map string_bytes words.now.items) said
        → IfSome (X.texts_state texts.old).texts (λ text. IfSome (D.gives first.old) (λ file.
        result.0 ≢ 3 → result.0 ≢ 4 → result.0 ≢ 6 → result.0 ≢ 8
        → (result.0 ≡ 5) ↔ IsAtFault said text file)) }
    ensures store { result.0 ≡ 6
        → Rose (D.faults first.old) (D.faults first.new)
        ⊎ Rose (D.faults second.old) (D.faults second.new) }
    ensures in_memory { (said : WordsOf) → AreWords (map string_bytes words.now.items) said
        → said.journal ≡ None
        → (result.0 ≢ 5) × (result.0 ≢ 6)
        × (first.new ≡ first.old) × (second.new ≡ second.old) }
    ensures exact { (said : WordsOf) (from step : ℕ)
        → AreWords (map string_bytes words.now.items) said → said.work ≡ running from step
        → result.0 ≢ 3 → result.0 ≢ 4 → result.0 ≢ 5 → result.0 ≢ 6 → result.0 ≢ 7 → result.0 ≢ 8
        → IsStatusOf budget (S.source_state input.old).flow result.0 }
    ensures complete { (said : WordsOf) → AreWords (map string_bytes words.now.items) said
        → (Rose (X.texts_state texts.old).faults (X.texts_state texts.new).faults → ⊥)
        → (Rose (D.faults first.old) (D.faults first.new) → ⊥)
        → (Rose (D.faults second.old) (D.faults second.new) → ⊥)
        → (Rose (L.door_state door.old).faults (L.door_state door.new).faults → ⊥)
        → (Rose (S.source_state input.old).faults (S.source_state input.new).faults → ⊥)
        → (Rose (K.sink_state output.old).faults (K.sink_state output.new).faults → ⊥)
        → IsAnswered result.0 }
    ensures pipe { result.0 ≡ 7
        → Rose (S.source_state input.old).faults (S.source_state input.new).faults
        ⊎ Rose (K.sink_state output.old).faults (K.sink_state output.new).faults }
    ensures door { result.0 ≡ 10
        → Rose (L.door_state door.old).faults (L.door_state door.new).faults }
    ensures alone { (said : WordsOf) → AreWords (map string_bytes words.now.items) said
        → IsAlone said.work → (door.new ≡ door.old) × (result.0 ≢ 10) }
{
    if are_alone(words) {
        return office_alone(
            alloc, words, texts, first, second, input, output, complaints,
        );
    }
    ht_models::built_in_text_reads();
    ht_people::built_in_text_reads();
    the_journal_of_an_office_has_no_fault();
    match words_of(words) {
        Some(words) => serve_office(
            rt, alloc, &words, texts, first, second, clock, door, output, complaints,
        ),
        None => {
            complain(complaints, USAGE_LINE);
            Status::USAGE
        }
    }
}

// Serves the office that the words tell of, once the texts are read. The input is not read.
fn serve_office<
    X: Texts,
    D: Disk + Send,
    C: Clock + Send,
    L: Door + Send,
    K: Sink,
    Q: Sink,
    R: Threads + Wait + Sync,
>(
    rt: &R,
    alloc: Global,
    words: &Words<'_>,
    texts: &mut X,
    first: &mut D,
    second: &mut D,
    clock: &C,
    door: &mut L,
    output: &mut K,
    complaints: &mut Q,
) -> Status
    requires service { IsAlone (words_told words.now).work → ⊥ }
    requires journal { (name : List ℕ) × ((words_told words.now).journal ≡ Some name) }
    ensures office { (unread : SourceState) → OfficeRuns D.Disk (words_told words.now)
        (disks first.old second.old) (disks first.new second.new)
        (L.door_state door.old) (L.door_state door.new)
        (outside (X.texts_state texts.old) unread (K.sink_state output.old)
        (Q.sink_state complaints.old))
        (outside (X.texts_state texts.new) unread (K.sink_state output.new)
        (Q.sink_state complaints.new))
        result.0 }
    ensures unread { result.0 ≡ 3
        → Rose (X.texts_state texts.old).faults (X.texts_state texts.new).faults }
    ensures built_in { IfNone words.now.texts (texts.new ≡ texts.old) }
{
    match read_texts(alloc, words.texts, texts) {
        Ok(read) => serve_texts(
            rt, alloc, words, &read, first, second, clock, door, output, complaints,
        ),
        Err(fault) => {
            complain_of(complaints, words.texts, fault);
            status_of_missing(fault)
        }
    }
}

// Serves the office of these texts, and tells how that ended.
fn serve_texts<
    D: Disk + Send,
    C: Clock + Send,
    L: Door + Send,
    K: Sink,
    Q: Sink,
    R: Threads + Wait + Sync,
>(
    rt: &R,
    alloc: Global,
    words: &Words<'_>,
    read: &OfficeTexts,
    first: &mut D,
    second: &mut D,
    clock: &C,
    door: &mut L,
    output: &mut K,
    complaints: &mut Q,
) -> Status
    requires short { AreShort (texts_seen read.now) }
    requires service { IsAlone (words_told words.now).work → ⊥ }
    requires journal { (name : List ℕ) × ((words_told words.now).journal ≡ Some name) }
    ensures office { (told mid : TextsState) (unread : SourceState)
        → Reads (words_told words.now).texts told.texts (Ok (texts_seen read.now))
        → AsksFor (words_told words.now).texts told mid (Ok (texts_seen read.now))
        → OfficeRuns D.Disk (words_told words.now)
        (disks first.old second.old) (disks first.new second.new)
        (L.door_state door.old) (L.door_state door.new)
        (outside told unread (K.sink_state output.old) (Q.sink_state complaints.old))
        (outside mid unread (K.sink_state output.new) (Q.sink_state complaints.new))
        result.0 }
    ensures read { result.0 ≢ 3 }
{
    let (Work::Serve(service), Some(name)) = (words.work, words.journal) else {
        unreachable!()
    };
    let end = serve(
        rt, alloc, words, &service, name, read, first, second, clock, door, output,
    );
    match end {
        Ok(end) => {
            complain(complaints, line_of(end));
            status_of(end)
        }
        Err(fault) => {
            complain(complaints, &line_of_fault(fault));
            status_of_fault(fault)
        }
    }
}
