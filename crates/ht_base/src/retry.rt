/// By which device of a person a command is sent, and as its how-manyth: where it is sent again, it
/// acts only once.
#[derive(Clone, Copy, Debug, PartialEq, Eq)]
pub struct Retry {
    /// 0 to `LAST_DEVICE`.
    pub device: u8,
    /// 1 to `LAST_NUMBER`. The numbers of a device rise.
    pub number: u32,
}
