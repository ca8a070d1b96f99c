//! The door of a server: where its connections come from, and where they are handed back. There is one
//! in memory, for tests, and one over TCP, on the loopback address; and the clock of the system.
#![tactic(auto)]

mod door;
mod memory_door;
mod memory_link;
mod system_clock;
mod tcp_door;
mod tcp_link;

pub use door::Door;
pub use memory_door::MemoryDoor;
pub use memory_link::MemoryLink;
pub use system_clock::SystemClock;
pub use tcp_door::TcpDoor;
pub use tcp_link::TcpLink;
