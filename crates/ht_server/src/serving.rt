ghost use Rattle.std.specs.Prelude.{◌≡◌};
ghost use Rattle.ht_desk.specs.Stepping.{Stands};
ghost use Rattle.ht_program.specs.Attaching.{disks};
ghost use Rattle.ht_program.specs.Named.{service_told, words_told};
ghost use Rattle.ht_program.specs.OfficeTexts.{AreShort, texts_seen};
ghost use Rattle.ht_pool.specs.Crews.{RunsCrew};
ghost use Rattle.ht_server.specs.Moves.{Moves};
ghost use Rattle.ht_server.specs.Services.{EndsService, Serves, ServesOver, counts_line};

use crate::counts_line::write_counts;
use crate::service::{ServiceEnd, crew_of};
use ht_desk::{DeskState, OpenFault, open};
use ht_doors::Door;
use ht_outside::{Clock, Disk, Failed, Sink};
use ht_pool::{Crew, run_crew};
use ht_program::{Machine, OfficeTexts, Serve, Words, attach};
use ht_workers::WorkEnd;
use std::alloc::Global;
use std::sync::Wait;
use std::thread::Threads;

/// Opens the office of these texts on the two disks of the journal with this name, and serves it.
pub(crate) fn serve<
    D: Disk + Send,
    C: Clock + Send,
    L: Door + Send,
    K: Sink,
    R: Threads + Wait + Sync,
>(
    rt: &R,
    alloc: Global,
    words: &Words<'_>,
    service: &Serve,
    name: &str,
    office: &OfficeTexts,
    first: &mut D,
    second: &mut D,
    clock: &C,
    door: &mut L,
    output: &mut K,
) -> Result<ServiceEnd, OpenFault>
    requires short { AreShort (texts_seen office.now) }
    ensures { Serves D.Disk (service_told service.now) (words_told words.now)
        (texts_seen office.now) (disks first.old second.old) (disks first.new second.new)
        (L.door_state door.old) (L.door_state door.new) (K.sink_state output.old)
        (K.sink_state output.new) result }
{
    match attach(alloc, name, first, second) {
        Ok(()) => {}
        Err(fault) => return Err(fault),
    }
    match open(alloc, office.models(), office.people(), first, words.limit) {
        Ok(desk) => Ok(serve_at(
            rt,
            alloc,
            service.port,
            &crew_of(service),
            desk,
            first,
            clock,
            door,
            output,
        )),
        Err(fault) => Err(fault),
    }
}

// Serves the office that is on this disk.
fn serve_at<D: Disk + Send, C: Clock + Send, L: Door + Send, K: Sink, R: Threads + Wait + Sync>(
    rt: &R,
    alloc: Global,
    port: u16,
    crew: &Crew,
    desk: DeskState,
    disk: &mut D,
    clock: &C,
    door: &mut L,
    output: &mut K,
) -> ServiceEnd
    requires stands { Stands D.Disk desk disk.old }
    ensures { ServesOver D.Disk crew.now desk disk.old disk.new (L.door_state door.old)
        (L.door_state door.new) (K.sink_state output.old) (K.sink_state output.new) result }
{
    if door.listen(port).is_err() {
        return ServiceEnd::Door;
    }
    let mut desk = desk;
    desk.lengthen_ahead(&*disk);
    let mut ending = WorkEnd::Done;
    let machine = Machine { disk, state: desk };
    let machine = run_office(rt, alloc, crew, machine, door, clock, &mut ending);
    let desk = machine.close();
    tell(&desk, ending, output)
}

// Runs the crew at the office with its disk.
fn run_office<'a, D: Disk + Send, C: Clock + Send, L: Door + Send, R: Threads + Wait + Sync>(
    rt: &R,
    alloc: Global,
    crew: &Crew,
    machine: Machine<'a, D, DeskState>,
    door: &mut L,
    clock: &C,
    ending: &mut WorkEnd,
) -> Machine<'a, D, DeskState>
    requires stands { Stands D.Disk machine.state machine.disk.now }
    ensures ran { RunsCrew (Moves D.Disk (λ m. m.disk.now) (λ m. m.state)
        (λ m. m.disk.ghost_name)) crew.now machine.entry result (L.door_state door.old)
        (L.door_state door.new) ending.new }
{
    run_crew(rt, alloc, crew, machine, door, clock, ending)
}

// Tells what was counted, where all connections were served.
fn tell<K: Sink>(desk: &DeskState, ending: WorkEnd, output: &mut K) -> ServiceEnd
    ensures { EndsService ending (counts_line desk.now.counts) (K.sink_state output.old)
        (K.sink_state output.new) result }
{
    match ending {
        WorkEnd::Done => match write_counts(desk.counts(), output) {
            Ok(()) => ServiceEnd::Done,
            Err(Failed) => ServiceEnd::Pipe,
        },
        WorkEnd::Door => ServiceEnd::Door,
        WorkEnd::Memory => ServiceEnd::Memory,
    }
}
