ghost use Rattle.std.specs.Prelude.{◌≡◌, ◌+◌, ◌≤◌, [], ◌++◌, length, codes, decimal};
ghost use Rattle.ht_program.specs.Statuses as spec;
ghost use Rattle.ht_program.specs.Statuses.{fault_line, models_words, people_words, placed, short_line};

use crate::reading::{TextsFault, Which};
use crate::status::{Line, Status, put};
use ht_desk::OpenFault;
use ht_models::ModelsRefusal;
use ht_people::PeopleRefusal;

/// The status where the texts are missing.
pub fn status_of_missing(fault: TextsFault) -> Status
    ensures { result.0 ≡ spec.missing_status fault }
{
    Status(match fault {
        TextsFault::Unread(_) => 3,
        TextsFault::TooLong(_) => 4,
        TextsFault::Memory => 8,
    })
}

/// The status of an office that is not opened.
pub fn status_of_fault(fault: OpenFault) -> Status
    ensures { result.0 ≡ spec.fault_status fault }
{
    Status(match fault {
        OpenFault::Models(_) => 4,
        OpenFault::People(_) => 4,
        OpenFault::Damaged(_) => 5,
        OpenFault::RecordRefused(_) => 5,
        OpenFault::TextsDiffer => 5,
        OpenFault::Store => 6,
        OpenFault::Memory => 8,
    })
}

/// The line on complaints about texts that are missing, empty for a text that could not be read.
pub(crate) fn line_of_missing(fault: TextsFault) -> Line
    ensures { result.items ≡ short_line fault }
{
    let mut line = Line::new();
    match fault {
        TextsFault::Unread(_) => {}
        TextsFault::TooLong(Which::Models) => put(&mut line, b"models: TooLong\n"),
        TextsFault::TooLong(Which::People) => put(&mut line, b"people: TooLong\n"),
        TextsFault::Memory => put(&mut line, b"memory\n"),
    }
    line
}

/// The line on complaints about an office that is not opened.
pub fn line_of_fault(fault: OpenFault) -> Line
    ensures { result.items ≡ fault_line fault }
{
    let mut line = Line::new();
    match fault {
        OpenFault::Models(refusal) => put_models(&mut line, refusal),
        OpenFault::People(refusal) => put_people(&mut line, refusal),
        OpenFault::Damaged(at) => put_numbered(&mut line, b"journal: damaged at ", at),
        OpenFault::RecordRefused(n) => put_numbered(&mut line, b"journal: record ", n as u64),
        OpenFault::TextsDiffer => put(&mut line, b"journal: texts differ\n"),
        OpenFault::Store => put(&mut line, b"journal: store\n"),
        OpenFault::Memory => put(&mut line, b"memory\n"),
    }
    line
}

fn put_numbered(line: &mut Line, words: &[u8], n: u64)
    requires empty { line.old.items ≡ [] }
    requires short { length words.now ≤ 40 }
    ensures { line.new.items ≡ words.now ++ decimal n ++ codes "\n" }
{
    let mut digits = itoa::Buffer::new();
    put(line, words);
    put(line, digits.format(n).as_bytes());
    put(line, b"\n");
}

fn put_models(line: &mut Line, refusal: ModelsRefusal)
    requires { line.old.items ≡ [] }
    ensures { line.new.items ≡ codes "models: " ++ models_words refusal ++ codes "\n" }
{
    put(line, b"models: ");
    match refusal {
        ModelsRefusal::Syntax => put(line, b"Syntax"),
        ModelsRefusal::Field(place) => put_placed(line, b"Field", place),
        ModelsRefusal::Twice(place) => put_placed(line, b"Twice", place),
        ModelsRefusal::UnknownModel(place) => put_placed(line, b"UnknownModel", place),
        ModelsRefusal::Cycle(place) => put_placed(line, b"Cycle", place),
        ModelsRefusal::Expression(place) => put_placed(line, b"Expression", place),
        ModelsRefusal::Limit(place) => put_placed(line, b"Limit", place),
        ModelsRefusal::Contradiction(place) => put_placed(line, b"Contradiction", place),
        ModelsRefusal::Memory => put(line, b"Memory"),
    }
    put(line, b"\n");
}

fn put_people(line: &mut Line, refusal: PeopleRefusal)
    requires { line.old.items ≡ [] }
    ensures { line.new.items ≡ codes "people: " ++ people_words refusal ++ codes "\n" }
{
    put(line, b"people: ");
    match refusal {
        PeopleRefusal::Syntax => put(line, b"Syntax"),
        PeopleRefusal::Field(place) => put_placed(line, b"Field", place),
        PeopleRefusal::Twice(place) => put_placed(line, b"Twice", place),
        PeopleRefusal::UnknownMember(place) => put_placed(line, b"UnknownMember", place),
        PeopleRefusal::Cycle(place) => put_placed(line, b"Cycle", place),
        PeopleRefusal::Limit => put(line, b"Limit"),
        PeopleRefusal::Memory => put(line, b"Memory"),
    }
    put(line, b"\n");
}

fn put_placed(line: &mut Line, name: &[u8], place: usize)
    requires { length line.old.items + length name.now ≤ 40 }
    ensures text { line.new.items ≡ line.old.items ++ placed name.now place }
    ensures short { length line.new.items ≤ 61 }
{
    let mut digits = itoa::Buffer::new();
    put(line, name);
    put(line, b" ");
    put(line, digits.format(place).as_bytes());
}
