ghost use Rattle.std.specs.Prelude.{◌≡◌, ◌+◌, ◌≤◌, ◌++◌, IfErr, IfOk, codes, decimal, length};
ghost use Rattle.ht_desk.specs.Opening.{IsTextFault};
ghost use Rattle.ht_desk.specs.Replaying.{texts_of};
ghost use Rattle.ht_program.specs.Checking.{AreCounted, Checks, counted_line};
ghost use Rattle.ht_program.specs.OfficeTexts.{texts_seen};
ghost use Rattle.ht_program.specs.Working.{Tells};

use crate::office_texts::OfficeTexts;
use crate::status::{Line, put};
use ht_desk::OpenFault;
use ht_models::{Models, ModelsRefusal};
use ht_outside::{Failed, Sink};
use ht_people::{Directory, PeopleRefusal};
use ht_serve::Ending;
use std::alloc::Global;

/// How many models, persons and groups there are.
#[derive(Clone, Copy)]
pub struct Counted {
    pub models: u32,
    pub persons: u32,
    pub groups: u32,
}

/// Judges the two texts of an office, the models first, and writes how many models, persons and groups they
/// have. It opens no office.
pub(crate) fn check<K: Sink>(
    alloc: Global,
    office: &OfficeTexts,
    output: &mut K,
) -> Result<Ending, OpenFault>
    ensures { Checks (texts_seen office.now) (K.sink_state output.old) (K.sink_state output.new)
        result }
{
    match judge(alloc, office.models(), office.people()) {
        Ok(counted) => Ok(write_counted(counted, output)),
        Err(fault) => Err(fault),
    }
}

fn judge(alloc: Global, models: &[u8], people: &[u8]) -> Result<Counted, OpenFault>
    ensures counted { IfOk result (AreCounted (texts_of models.now people.now)) }
    ensures fault { IfErr result (IsTextFault (texts_of models.now people.now)) }
{
    let models = match Models::read(alloc, models) {
        Ok(models) => models,
        Err(ModelsRefusal::Memory) => return Err(OpenFault::Memory),
        Err(refusal) => return Err(OpenFault::Models(refusal)),
    };
    let people = match Directory::read(alloc, people) {
        Ok(people) => people,
        Err(PeopleRefusal::Memory) => return Err(OpenFault::Memory),
        Err(refusal) => return Err(OpenFault::People(refusal)),
    };
    Ok(Counted {
        models: models.count(),
        persons: people.persons(),
        groups: people.groups(),
    })
}

fn write_counted<K: Sink>(counted: Counted, output: &mut K) -> Ending
    ensures { Tells (counted_line counted) (K.sink_state output.old) (K.sink_state output.new)
        result }
{
    match output.write(&line_of(counted)) {
        Ok(()) => Ending::Done,
        Err(Failed) => Ending::WriteFault,
    }
}

fn line_of(counted: Counted) -> Line
    ensures { result.items ≡ counted_line counted }
{
    let mut line = Line::new();
    put_number(&mut line, b"models ", counted.models);
    put_number(&mut line, b" persons ", counted.persons);
    put_number(&mut line, b" groups ", counted.groups);
    put(&mut line, b"\n");
    line
}

fn put_number(line: &mut Line, words: &[u8], n: u32)
    requires { length line.old.items + length words.now + 10 ≤ 64 }
    ensures text { line.new.items ≡ line.old.items ++ words.now ++ decimal n }
    ensures short { length line.new.items ≤ length line.old.items + length words.now + 10 }
{
    let mut digits = itoa::Buffer::new();
    put(line, words);
    put(line, digits.format(n).as_bytes());
}
