use ht_base::Stepper;
use ht_doors::Door;
use ht_outside::Clock;
use ht_shared::Pass;
use ht_workers::WorkEnd;

/// What a worker will have before it has a pass: its door and its clock, and how many connections it
/// takes, where that is bounded.
#[derive(Drop)]
pub(crate) struct Seat<D: Door, C: Clock> {
    pub(crate) door: D,
    pub(crate) clock: C,
    pub(crate) share: Option<u32>,
}

/// A worker, and how it ended.
#[derive(Drop)]
pub(crate) struct Worker<T: Stepper, D: Door, C: Clock> {
    pub(crate) pass: Pass<T>,
    pub(crate) door: D,
    pub(crate) clock: C,
    pub(crate) share: Option<u32>,
    pub(crate) ending: WorkEnd,
}
