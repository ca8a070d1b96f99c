//! The interface in JSON (RFC 8259): the event that a request is, and the text of each reply.
#![tactic(auto)]

mod asked;
mod commands;
mod contents;
mod events;
mod faults;
mod fields;
mod fits;
mod keys;
mod lists;
mod numbers;
mod pages;
mod refusal;
mod replies;
mod routes;
mod sheets;
mod statuses;

pub use events::event_of;
pub use refusal::ApiRefusal;
pub use replies::text_of;
pub use routes::Routes;
