/// How the serving of a connection ended.
#[derive(Clone, Copy)]
pub enum Ending {
    /// The input was read to its end, or a reply that closes the connection was written.
    Done,
    /// A request could not be read. The status code of the last reply.
    Wire(u16),
    /// As many requests as may be were answered, and there is more input.
    Budget,
    ReadFault,
    WriteFault,
    Memory,
}
