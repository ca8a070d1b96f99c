//! The plain types that every other crate speaks in: names, persons, tasks, moments, the states
//! and roles of a task, and the events, replies and refusals of the task machine.
#![tactic(auto)]

mod boxed_sheet;
mod bytes;
mod end;
mod entry;
mod event;
mod how;
mod ids;
mod indexes;
mod kind;
mod limits;
mod memory;
mod moment;
mod name;
mod names;
mod notice_page;
mod numbers;
mod operation;
mod page;
mod parts;
mod periods;
mod person;
mod persons;
mod query;
mod record;
mod reply;
mod retry;
mod role;
mod role_list;
mod scalar;
mod sheet;
mod shown_comments;
mod spent;
mod state;
mod stepper;
mod task_id;
mod txt;
mod value;
mod value_list;
mod values;

pub use boxed_sheet::BoxedSheet;
pub use bytes::Bytes;
pub use end::End;
pub use entry::Entry;
pub use event::{Command, Event};
pub use how::How;
pub use ids::Ids;
pub use indexes::{IndexFault, Key, index, name_places};
pub use kind::Kind;
pub use limits::{
    LARGEST_TREE, LAST_DEVICE, LAST_NUMBER, LONGEST_CHAIN, LONGEST_DELIMITER, LONGEST_NAME,
    LONGEST_OFFICE_TEXT, LONGEST_PERIOD, LONGEST_TEXT, LOWEST_PRIORITY, MIDDLE_PRIORITY,
    MOST_COMMENTS, MOST_DEADLINES, MOST_DIGITS, MOST_ESCALATIONS, MOST_GROUPS, MOST_LEVELS,
    MOST_LISTED, MOST_MODELS, MOST_NAMES, MOST_PARTS, MOST_PERSONS, MOST_SUBS, MOST_TASKS,
    MOST_TOKENS,
};
pub use memory::Memory;
pub use moment::{LAST, Moment};
pub use name::Name;
pub use names::Names;
pub use notice_page::{NoticePage, NoticeRow, NoticeRows};
pub use numbers::number;
pub use operation::Op;
pub use page::{Page, PageRow, PageRows};
pub use parts::Parts;
pub use periods::period;
pub use person::Person;
pub use persons::Persons;
pub use query::{Query, Which};
pub use record::Record;
pub use reply::{Answer, Limit, Refusal, Reply, Unknown};
pub use retry::Retry;
pub use role::{Role, Roles};
pub use role_list::RoleList;
pub use scalar::Scalar;
pub use sheet::Sheet;
pub use shown_comments::{ShownComment, ShownComments};
pub use spent::Spent;
pub use state::{State, StateSet};
pub use stepper::Stepper;
pub use task_id::TaskId;
pub use txt::Txt;
pub use value::Value;
pub use value_list::ValueList;
pub use values::Values;
