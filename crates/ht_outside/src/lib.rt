//! The outside of the server as traits: where bytes come from and go, where texts are read by name,
//! the disks on which a file is kept, and clocks. Each object but a clock counts its faults, and an
//! object that can tell its bytes, or its moments, tells them. Of each there are forms in memory, and
//! of each but a clock an adapter to the real thing.
#![tactic(auto)]

mod asked;
mod clock;
mod crash_images;
mod disk;
mod disk_call;
mod failed;
mod file_bytes;
mod file_disk;
mod file_texts;
mod laws;
mod lent_pair;
mod link;
mod memory_disk;
mod memory_sink;
mod memory_source;
mod memory_texts;
mod room_disk;
mod sink;
mod source;
mod std_sink;
mod std_source;
mod step_clock;
mod text_fault;
mod texts;

pub use asked::Asked;
pub use clock::Clock;
pub use disk::Disk;
pub use failed::Failed;
pub use file_disk::FileDisk;
pub use file_texts::FileTexts;
pub use laws::faults_of_two_disks;
pub use lent_pair::LentPair;
pub use link::{Link, Pair};
pub use memory_disk::MemoryDisk;
pub use memory_sink::MemorySink;
pub use memory_source::MemorySource;
pub use memory_texts::MemoryTexts;
pub use room_disk::RoomDisk;
pub use sink::Sink;
pub use source::Source;
pub use std_sink::StdSink;
pub use std_source::StdSource;
pub use step_clock::StepClock;
pub use text_fault::TextFault;
pub use texts::Texts;
