// Why a client begins no operation.

/// The first cause that applies, in this order.
#[derive(Clone, Copy)]
pub enum FtpFault {
    /// An operation is open.
    Busy,
    /// The name isn't a file's in this profile: 1 to 64 bytes out of letters, digits, `.`, `_` and `-`.
    BadName,
    /// A store of so many bytes, more than 1,048,576.
    TooLarge { len: usize },
    /// There was no memory. Beginning an operation takes none, so no call returns it.
    NoMemory,
}
