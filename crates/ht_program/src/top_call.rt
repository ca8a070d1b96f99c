ghost use Rattle.std.specs.Prelude.{◌≡◌, ◌≢◌, ◌⊎◌, ◌↔◌, ◌++◌, ℕ, [], List, None, Option, Some, IfNone, IfSome, codes, map, option_map, string_bytes, unwrap_or};
ghost use Rattle.ht_outside.specs.Causes.{Rose};
ghost use Rattle.ht_program.specs.Attaching.{disks};
ghost use Rattle.ht_program.specs.Inputs.{IsAnswered, IsStatusOf, budget};
ghost use Rattle.ht_program.specs.Named.{pair_of, words_told, work_told};
ghost use Rattle.ht_program.specs.Office.{ChecksOrRuns, IsAtFault, RunsOffice, outside_of};
ghost use Rattle.ht_program.specs.OfficeTexts.{AreShort, texts_seen};
ghost use Rattle.ht_program.specs.Reading as reading;
ghost use Rattle.ht_program.specs.Reading.{AreWrong};
ghost use Rattle.ht_program.specs.Reports.{IsReport, IsReporting, Reports};
ghost use Rattle.ht_program.specs.Running.{Complains, streams};
ghost use Rattle.ht_program.specs.Statuses as spec;
ghost use Rattle.ht_program.specs.Statuses.{usage_line};
ghost use Rattle.ht_program.specs.Words.{AreAlone, AreWords, IsAlone, WordsOf};
ghost use Rattle.ht_program.specs.Words.WorkOf.{running};

use crate::checking::check;
use crate::command::{Named, Words, Work};
use crate::fault_lines::{line_of_missing, status_of_missing};
use crate::office_texts::OfficeTexts;
use crate::reading::{TextsFault, Which, read_texts};
use crate::status::{Status, USAGE_LINE, line_of, status_of};
use crate::words::words_of;
use crate::working::work;
use ht_desk::{OpenFault, the_journal_of_an_office_has_no_fault};
use ht_outside::{Disk, Failed, Sink, Source, Texts};
use ht_serve::Ending;
use std::alloc::Global;

/// The program without the command `serve`, over its words, its texts, its disks, its input, its output and
/// its complaints. It waits for nobody, so it returns.
///
/// The words are a command and its options, each a name and a value, in any order:
///
/// - `run --from F --step S` serves one connection over input and output. Request k, counted from 0,
///   is at the moment F + k * S, in milliseconds since 1970-01-01T00:00:00Z and at most the last
///   moment there is.
/// - `check --models NAME --people NAME` judges two texts, and writes `models M persons P groups G`. It
///   opens no office.
/// - `export --journal NAME` writes all tasks as comma-separated values, as `ht_export::export` does.
/// - `load --seed S --count C` makes C requests from the number S, as `ht_load::load` does, and writes
///   `requests C accepted A refused R tasks T`.
///
/// With `--models NAME --people NAME`, which `load` has not, the office is that of the texts with these
/// names, of at most 262,144 bytes each, and else the built-in one. With `--journal NAME`, which `check`
/// has not, it is kept in the files NAME.0 and NAME.1, as which the two disks are attached, and else in
/// memory. `--limit N`, of `run` and `load`, is the length in bytes that its journal may have. Other words
/// are refused; those that begin with `serve` may not be given. See [`Status`] for how it ends.
pub fn office_alone<X: Texts, D: Disk, S: Source, K: Sink, Q: Sink>(
    alloc: Global,
    words: &Vec<String>,
    texts: &mut X,
    first: &mut D,
    second: &mut D,
    input: &mut S,
    output: &mut K,
    complaints: &mut Q,
) -> Status
    requires alone { AreAlone (map string_bytes words.now.items) }
    ensures usage { (result.0 ≡ 2)
        ↔ ((said : WordsOf) → AreWords (map string_bytes words.now.items) said → ⊥) }
    ensures refused { result.0 ≡ 2
        → (texts.new ≡ texts.old) × (first.new ≡ first.old) × (second.new ≡ second.old)
        × (input.new ≡ input.old) × (output.new ≡ output.old)
        × Complains (Q.sink_state complaints.old) (Q.sink_state complaints.new) usage_line }
    ensures work { result.0 ≢ 2
        → (said : WordsOf) × AreWords (map string_bytes words.now.items) said
        × RunsOffice D.Disk said (disks first.old second.old) (disks first.new second.new)
        (outside_of X.Texts S.Source K.Sink Q.Sink texts.old input.old output.old complaints.old)
        (outside_of X.Texts S.Source K.Sink Q.Sink texts.new input.new output.new complaints.new)
        result.0 }
    ensures report { (said : WordsOf) → AreWords (map string_bytes words.now.items) said
        → IsReporting said.work
        → Reports (IsReport said (X.texts_state texts.old).texts (D.gives first.old))
        (K.sink_state output.old) (K.sink_state output.new) result.0 }
    ensures unread_input { (said : WordsOf) → AreWords (map string_bytes words.now.items) said
        → IsReporting said.work → S.source_state input.new ≡ S.source_state input.old }
    ensures unread { result.0 ≡ 3
        → Rose (X.texts_state texts.old).faults (X.texts_state texts.new).faults }
    ensures wrong { (said : WordsOf) (names : List ℕ × List ℕ)
        → AreWords (map string_bytes words.now.items) said → said.texts ≡ Some names
        → IfSome (X.texts_state texts.old).texts (λ text.
        result.0 ≢ 3 → result.0 ≢ 6 → result.0 ≢ 8
        → (result.0 ≡ 4) ↔ AreWrong (text names.0) (text names.1)) }
    ensures built_in { (said : WordsOf) → AreWords (map string_bytes words.now.items) said
        → said.texts ≡ None
        → (result.0 ≢ 3) × (result.0 ≢ 4) × (texts.new ≡ texts.old) }
    ensures journal { (said : WordsOf) → AreWords (map string_bytes words.now.items) said
        → IfSome (X.texts_state texts.old).texts (λ text. IfSome (D.gives first.old) (λ file.
        result.0 ≢ 3 → result.0 ≢ 4 → result.0 ≢ 6 → result.0 ≢ 8
        → (result.0 ≡ 5) ↔ IsAtFault said text file)) }
    ensures store { result.0 ≡ 6
        → Rose (D.faults first.old) (D.faults first.new)
        ⊎ Rose (D.faults second.old) (D.faults second.new) }
    ensures in_memory { (said : WordsOf) → AreWords (map string_bytes words.now.items) said
        → said.journal ≡ None
        → (result.0 ≢ 5) × (result.0 ≢ 6)
        × (first.new ≡ first.old) × (second.new ≡ second.old) }
    ensures exact { (said : WordsOf) (from step : ℕ)
        → AreWords (map string_bytes words.now.items) said → said.work ≡ running from step
        → result.0 ≢ 3 → result.0 ≢ 4 → result.0 ≢ 5 → result.0 ≢ 6 → result.0 ≢ 7 → result.0 ≢ 8
        → IsStatusOf budget (S.source_state input.old).flow result.0 }
    ensures complete { (said : WordsOf) → AreWords (map string_bytes words.now.items) said
        → (Rose (X.texts_state texts.old).faults (X.texts_state texts.new).faults → ⊥)
        → (Rose (D.faults first.old) (D.faults first.new) → ⊥)
        → (Rose (D.faults second.old) (D.faults second.new) → ⊥)
        → (Rose (S.source_state input.old).faults (S.source_state input.new).faults → ⊥)
        → (Rose (K.sink_state output.old).faults (K.sink_state output.new).faults → ⊥)
        → IsAnswered result.0 }
    ensures pipe { result.0 ≡ 7
        → Rose (S.source_state input.old).faults (S.source_state input.new).faults
        ⊎ Rose (K.sink_state output.old).faults (K.sink_state output.new).faults }
{
    ht_models::built_in_text_reads();
    ht_people::built_in_text_reads();
    the_journal_of_an_office_has_no_fault();
    match words_of(words) {
        Some(words) => run_office(
            alloc, &words, texts, first, second, input, output, complaints,
        ),
        None => {
            complain(complaints, USAGE_LINE);
            Status::USAGE
        }
    }
}

// What the words say, once the texts are read.
fn run_office<X: Texts, D: Disk, S: Source, K: Sink, Q: Sink>(
    alloc: Global,
    words: &Words<'_>,
    texts: &mut X,
    first: &mut D,
    second: &mut D,
    input: &mut S,
    output: &mut K,
    complaints: &mut Q,
) -> Status
    requires alone { IsAlone (work_told words.now.work) }
    ensures office { RunsOffice D.Disk (words_told words.now) (disks first.old second.old)
        (disks first.new second.new)
        (outside_of X.Texts S.Source K.Sink Q.Sink texts.old input.old output.old complaints.old)
        (outside_of X.Texts S.Source K.Sink Q.Sink texts.new input.new output.new complaints.new)
        result.0 }
    ensures unread { result.0 ≡ 3
        → Rose (X.texts_state texts.old).faults (X.texts_state texts.new).faults }
    ensures built_in { IfNone words.now.texts (texts.new ≡ texts.old) }
{
    match read_texts(alloc, words.texts, texts) {
        Ok(read) => {
            let end = check_or_work(alloc, words, &read, first, second, input, output);
            complain(complaints, &line_of(end));
            status_of(end)
        }
        Err(fault) => {
            complain_of(complaints, words.texts, fault);
            status_of_missing(fault)
        }
    }
}

// Judges the texts, or does what the command asks of their office.
fn check_or_work<D: Disk, S: Source, K: Sink>(
    alloc: Global,
    words: &Words<'_>,
    read: &OfficeTexts,
    first: &mut D,
    second: &mut D,
    input: &mut S,
    output: &mut K,
) -> Result<Ending, OpenFault>
    requires short { AreShort (texts_seen read.now) }
    requires alone { IsAlone (work_told words.now.work) }
    ensures { ChecksOrRuns D.Disk (words_told words.now) (texts_seen read.now)
        (disks first.old second.old) (disks first.new second.new)
        (streams (S.source_state input.old) (K.sink_state output.old))
        (streams (S.source_state input.new) (K.sink_state output.new)) result }
{
    match words.work {
        Work::Check => check(alloc, read, output),
        _ => work(alloc, words, read, first, second, input, output),
    }
}

/// Where there was no memory for the words: tells so. Gives the status with which the program ends.
pub fn tell_no_memory<Q: Sink>(complaints: &mut Q) -> Status
    ensures status { result.0 ≡ 8 }
    ensures line { Complains (Q.sink_state complaints.old) (Q.sink_state complaints.new)
        (codes "memory\n") }
{
    complain(complaints, &line_of(Err(OpenFault::Memory)));
    Status::MEMORY
}

/// Writes the line about texts of these names that are missing.
pub fn complain_of<Q: Sink>(complaints: &mut Q, named: Option<Named<'_>>, fault: TextsFault)
    ensures { Complains (Q.sink_state complaints.old) (Q.sink_state complaints.new)
        (spec.missing_line (unwrap_or (option_map pair_of named.entry) ([], [])) fault) }
{
    match fault {
        TextsFault::Unread(which) => complain_unread(complaints, name_in(named, which)),
        _ => complain(complaints, &line_of_missing(fault)),
    }
}

fn name_in(named: Option<Named<'_>>, which: Which) -> &str
    ensures { result.now ≡ reading.name_in which
        (unwrap_or (option_map pair_of named.entry) ([], [])) }
{
    match (named, which) {
        (Some(named), Which::Models) => named.models,
        (Some(named), Which::People) => named.people,
        (None, _) => "",
    }
}

// Tells the name of a text that could not be read, which may be of any length.
fn complain_unread<Q: Sink>(complaints: &mut Q, name: &str)
    ensures { Complains (Q.sink_state complaints.old) (Q.sink_state complaints.new)
        (codes "texts: " ++ name.now ++ codes "\n") }
{
    if complaints.write(b"texts: ").is_err() {
        return;
    }
    if complaints.write(name.as_bytes()).is_err() {
        return;
    }
    complain(complaints, b"\n");
}

/// Writes a line, if there is one. That it can't be written changes no status.
pub fn complain<Q: Sink>(complaints: &mut Q, line: &[u8])
    ensures { Complains (Q.sink_state complaints.old) (Q.sink_state complaints.new) line.now }
{
    if line.is_empty() {
        return;
    }
    match complaints.write(line) {
        Ok(()) => {}
        Err(Failed) => {}
    }
}
