ghost use Rattle.std.specs.Prelude.{◌≡◌, ◌≢◌, [], false, ℕ};
ghost use Rattle.ht_desk.specs.Keeping.{IsAt};
ghost use Rattle.ht_desk.specs.Replaying.{TextsOf};
ghost use Rattle.ht_desk.specs.States.{State};
ghost use Rattle.ht_desk.specs.Stepping.{Stands};
ghost use Rattle.ht_outside.specs.Clocks.{moment_of};
ghost use Rattle.ht_serve.specs.Calls.{StepsMade};
ghost use Rattle.ht_serve.specs.Serving.{Served, sides, sides_of};
ghost use Rattle.ht_program.specs.Inputs.{budget};
ghost use Rattle.ht_program.specs.Running.{streams};
ghost use Rattle.ht_program.specs.Words.WorkOf.{running};
ghost use Rattle.ht_program.specs.Working.{DidOver};

use crate::command::Run;
use crate::machine::Machine;
use ht_desk::DeskState;
use ht_outside::{Clock, Disk, LentPair, Link, Sink, Source};
use ht_serve::{Alone, Ending, Quiet, TakesEvents, serve_connection};
use std::alloc::Global;

/// The most requests that one run answers.
const BUDGET: u32 = 1_048_576;

/// Serves the connection over input and output, by the office that is on this disk.
pub(crate) fn serve<D: Disk, S: Source, K: Sink>(
    alloc: Global,
    run: &Run,
    desk: DeskState,
    disk: &mut D,
    input: &mut S,
    output: &mut K,
) -> Ending
    requires { Stands D.Disk desk disk.old }
    ensures { DidOver D.Disk (running run.now.from run.now.step) desk disk.old disk.new
        (streams (S.source_state input.old) (K.sink_state output.old))
        (streams (S.source_state input.new) (K.sink_state output.new)) result }
{
    let mut clock = run.clock();
    let mut machine = Machine { disk, state: desk };
    let ending = serve_lent(alloc, &mut machine, input, output, &mut clock);
    let_go(machine.close());
    ending
}

// The state of an office that is done with.
fn let_go(_desk: DeskState) {}

// Serves the connection over a source and a sink that are lent, for a machine.
fn serve_lent<T: TakesEvents, S: Source, K: Sink, C: Clock>(
    alloc: Global,
    state: &mut T,
    input: &mut S,
    output: &mut K,
    clock: &mut C,
) -> Ending
    requires { T.stands state.old }
    ensures { Served (StepsMade T.relates state.old state.new) ⊥ false budget 0
        (sides (S.source_state input.old) (K.sink_state output.old) (C.moments clock.old))
        (sides (S.source_state input.new) (K.sink_state output.new) (C.moments clock.new)) []
        result }
{
    let mut link = LentPair { input, output };
    let ending = serve_alone(alloc, state, &mut link, clock);
    let LentPair {
        input: _,
        output: _,
    } = link;
    ending
}

// The same over a link.
fn serve_alone<T: TakesEvents, L: Link, C: Clock>(
    alloc: Global,
    state: &mut T,
    link: &mut L,
    clock: &mut C,
) -> Ending
    requires { T.stands state.old }
    ensures served { Served (StepsMade T.relates state.old state.new) ⊥ false budget 0
        (sides_of L.Source L.Sink C.Clock link.old clock.old)
        (sides_of L.Source L.Sink C.Clock link.new clock.new)
        [] result }
    ensures same { L.same link.old link.new }
{
    let mut caller = Alone { state: &mut *state };
    let ending = serve_connection(alloc, &mut caller, link, clock, &Quiet, 1, BUDGET, false);
    let Alone { state: _ } = caller;
    ending
}
