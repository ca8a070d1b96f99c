//! The entries of a models text by their shape: what each key of a task model says, as it is written, with
//! its assignments and conditions as texts.
#![tactic(auto)]

mod aggregates;
mod choices;
mod deadlines;
mod finishes;
mod instants;
mod label;
mod model_entry;
mod parts;
mod sub_entries;
mod times;

pub use choices::{Composition, Delegation, Trigger};
pub use deadlines::{DeadlineKind, DeadlineText, EscalationText};
pub use finishes::{FinishText, Setting};
pub use instants::instant;
pub use label::Label;
pub use model_entry::ModelEntry;
pub use parts::Part;
pub use sub_entries::SubEntry;
pub use times::{Instant, Period};
