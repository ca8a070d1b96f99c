ghost use Rattle.std.specs.Prelude.{◌≡◌, ◌<◌, ◌≤◌, option_map};
ghost use Rattle.ht_pool.specs.Shares.{share_of};

/// Workers beside a timer.
#[derive(Clone, Copy)]
pub struct Crew {
    /// How many workers there are, from 1 to 64.
    pub workers: u32,
    /// For how many milliseconds the timer rests between two turns.
    pub tick: u32,
    /// How many connections the workers take together, where that is bounded.
    pub connections: Option<u32>,
    ghost bounded: { (1 ≤ workers) × (workers ≤ 64) },
}

impl Crew {
    // How many connections the worker at this place, counted from 0, takes of all.
    pub(crate) fn share(&self, place: u32) -> Option<u32>
        ensures { result ≡ option_map (λ n. share_of self.now.workers n place) self.now.connections }
    {
        match self.connections {
            Some(connections) => Some(part(self.workers, connections, place)),
            None => None,
        }
    }
}

fn part(workers: u32, connections: u32, place: u32) -> u32
    requires { (1 ≤ workers) × (workers ≤ 64) }
    ensures { result ≡ share_of workers connections place }
{
    let more = u32::from(place < connections % workers);
    connections / workers + more
}
