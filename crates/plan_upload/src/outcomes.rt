// How a station's operations end.
use plan_items::Plan;

/// How an operation ended. Codes are those of `MissionResult`.
#[derive(Drop)]
pub enum Outcome {
    /// The drone acknowledged the last item of the upload.
    Installed,
    /// The upload was refused with this code or cancelled, and the plan is not installed.
    NotInstalled(u8),
    /// The drone can no longer report whether the plan was installed, since it started again.
    Unknown,
    Cleared,
    /// The plan that was downloaded.
    Got(Plan),
    /// A clear or a download that ended with this code. With 15 it was cancelled, and a clear may have been done.
    Ended(u8),
}
