// What an item that comes to an upload does.

/// The first that applies, in this order.
#[derive(Clone, Copy)]
pub enum Verdict {
    /// No upload of the sender is open.
    NotOwn,
    /// It isn't the item that was asked for.
    AskAgain,
    /// The upload ends, with this result code.
    Refuse(u8),
    /// It is gathered, and more are to come.
    Gather,
    /// It is the last, and the plan is installed.
    Install,
}
