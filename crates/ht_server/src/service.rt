ghost use Rattle.std.specs.Prelude.{◌≡◌, ◌≤◌, option_map};
ghost use Rattle.ht_program.specs.Named.{service_told};
ghost use Rattle.ht_server.specs.Services as spec;
ghost use Rattle.ht_server.specs.Services.{IsCrewFor};

use ht_pool::Crew;
use ht_program::{Serve, Status};

/// How an office that was opened to be served ended.
#[derive(Clone, Copy, Debug, PartialEq, Eq)]
pub enum ServiceEnd {
    /// All connections were served, and the counts are written.
    Done,
    /// The counts could not be written.
    Pipe,
    /// A call of a door failed.
    Door,
    Memory,
}

/// The status of a service.
pub(crate) fn status_of(end: ServiceEnd) -> Status
    ensures { result.0 ≡ spec.service_status end }
{
    Status(match end {
        ServiceEnd::Done => 0,
        ServiceEnd::Pipe => 7,
        ServiceEnd::Memory => 8,
        ServiceEnd::Door => 10,
    })
}

/// The line on complaints about it, empty where there is none.
pub(crate) fn line_of(end: ServiceEnd) -> &'static [u8]
    ensures { result.now ≡ spec.service_line end }
{
    match end {
        ServiceEnd::Done | ServiceEnd::Pipe => b"",
        ServiceEnd::Memory => b"memory\n",
        ServiceEnd::Door => b"door\n",
    }
}

/// The crew that the words ask for.
pub(crate) fn crew_of(service: &Serve) -> Crew
    ensures { IsCrewFor (service_told service.now) result }
{
    Crew {
        workers: service.workers,
        tick: service.tick,
        connections: service.connections,
    }
}
