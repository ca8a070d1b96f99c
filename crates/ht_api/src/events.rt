ghost use Rattle.std.specs.Prelude.{◌≡◌, ◌≤◌, IfOk};
ghost use Rattle.ht_base.specs.Moment.{last_moment};
ghost use Rattle.ht_base.specs.Events.{IsValid};
ghost use Rattle.ht_api.specs.Commands.{command_in};
ghost use Rattle.ht_api.specs.Events as spec;
ghost use Rattle.ht_api.specs.Events.{asks, event_due, reads};
ghost use Rattle.ht_api.specs.Refusals.{Gives};

use crate::asked::Asked;
use crate::commands::command_in;
use crate::refusal::ApiRefusal;
use crate::routes::{Place, Routes};
use ht_base::{Event, Moment, Query, TaskId};
use ht_wire::Request;
use std::alloc::Global;

/// The event of a request at a moment in milliseconds since 1970-01-01T00:00:00Z.
///
/// Refused where there is no path, or no method of it, or a body that doesn't fit, or no caller: the
/// first of these in this order.
pub fn event_of(
    alloc: Global,
    routes: &Routes,
    request: &Request,
    at: Moment,
) -> Result<Event, ApiRefusal>
    requires { at.0 ≤ last_moment }
    ensures due { Gives (event_due request.now at.0) result }
    ensures valid { IfOk result IsValid }
{
    event_at(alloc, request, at, routes.place_of(request))
}

fn event_at(
    alloc: Global,
    request: &Request,
    at: Moment,
    place: Result<Place, ApiRefusal>,
) -> Result<Event, ApiRefusal>
    ensures { Gives (spec.event_at request.now at place) result }
{
    match place? {
        Place::Tasks => ask(alloc, request, at, TaskId(0), Asked::Create),
        Place::Operation(task, asked) => ask(alloc, request, at, task, asked),
        Place::Task(task) => read(request, Query::Sheet(task)),
        Place::List(role, which, from, count) => read(
            request,
            Query::Tasks {
                role,
                which,
                from,
                count,
            },
        ),
        Place::Notifications(from, count) => read(request, Query::Notices { from, count }),
    }
}

fn ask(
    alloc: Global,
    request: &Request,
    at: Moment,
    task: TaskId,
    asked: Asked,
) -> Result<Event, ApiRefusal>
    ensures { Gives (asks at task (command_in asked request.now.body.items) request.now.person)
        result }
{
    let (retry, command) = command_in(alloc, asked, request.body.as_slice())?;
    match request.person {
        Some(caller) => Ok(Event::Ask {
            at,
            caller,
            retry,
            task,
            command,
        }),
        None => Err(ApiRefusal::Person),
    }
}

fn read(request: &Request, query: Query) -> Result<Event, ApiRefusal>
    ensures { result ≡ reads query request.now.person }
{
    match request.person {
        Some(caller) => Ok(Event::Read { caller, query }),
        None => Err(ApiRefusal::Person),
    }
}
