ghost use Rattle.std.specs.Option.{ForSome};
ghost use Rattle.std.specs.Prelude.{◌≡◌, ◌≤◌};
ghost use Rattle.ht_base.specs.Moment.{last_moment};
ghost use Rattle.ht_desk.specs.declared.limits.TheConstants.{GREATEST_LIMIT, LEAST_LIMIT};
ghost use Rattle.ht_program.specs.Words.{greatest_port, longest_tick, most_connections, most_workers};

use ht_base::Moment;
use ht_outside::StepClock;

/// The moments of the requests: request number k, counted from 0, is at the moment
/// `from + k * step`, in milliseconds since 1970-01-01T00:00:00Z.
#[derive(Clone, Copy)]
pub struct Run {
    pub from: u64,
    pub step: u64,
    ghost small: { (from ≤ last_moment) × (step ≤ last_moment) },
}

impl Run {
    /// The clock that gives these moments.
    pub(crate) fn clock(&self) -> StepClock
        ensures next { result.next.0 ≡ self.now.from }
        ensures step { result.step ≡ self.now.step }
    {
        StepClock {
            next: Moment(self.from),
            step: self.step,
        }
    }
}

/// The port at which connections are taken, 1 to 65,535; how many workers serve them, 1 to 64; how many
/// milliseconds the timer rests between two turns, 1 to 3,600,000; and how many connections are served
/// before the end, 1 to 1,000,000. Without that number there is no end.
#[derive(Clone, Copy)]
pub struct Serve {
    pub port: u16,
    pub workers: u32,
    pub tick: u32,
    pub connections: Option<u32>,
    ghost bounded: { (1 ≤ port) × (port ≤ greatest_port)
        × (1 ≤ workers) × (workers ≤ most_workers)
        × (1 ≤ tick) × (tick ≤ longest_tick)
        × ForSome connections (λ n. (1 ≤ n) × (n ≤ most_connections)) },
}

/// The names of the two texts of an office.
#[derive(Clone, Copy)]
pub struct Named<'a> {
    pub models: &'a str,
    pub people: &'a str,
}

/// What the program is asked to do.
#[derive(Clone, Copy)]
pub enum Work {
    /// To serve one connection.
    Run(Run),
    /// To serve connections over a port, beside a timer.
    Serve(Serve),
    /// To judge two texts.
    Check,
    /// To write all tasks.
    Export,
    /// To make so many requests from a seed, at most 1,048,576.
    Load { seed: u64, count: u32 },
}

/// What the words say. Without names the office is the built-in one. Without a journal it is kept in
/// memory. `limit` is the length in bytes that its journal may have.
#[derive(Clone, Copy)]
pub struct Words<'a> {
    pub work: Work,
    pub texts: Option<Named<'a>>,
    pub journal: Option<&'a str>,
    pub limit: u64,
    ghost bounded: { (LEAST_LIMIT ≤ limit) × (limit ≤ GREATEST_LIMIT) },
}
