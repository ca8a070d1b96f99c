/// What a test puts at the door of each request. The program uses [`Quiet`].
pub trait Gate {
    /// Called before a request of this connection is answered.
    fn enter(&self, connection: u32);

    /// Called when its reply was written.
    fn leave(&self, connection: u32);
}

/// The gate that does nothing.
pub struct Quiet;

impl Gate for Quiet {
    fn enter(&self, _connection: u32) {}

    fn leave(&self, _connection: u32) {}
}
