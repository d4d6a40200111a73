// The request of an open operation, with what the phase has.
ghost use Rattle.std.specs.Prelude.{◌≡◌, []};
ghost use Rattle.mav_ftp.specs.Client.{opcode_of, least_size};
ghost use Rattle.mav_ftp.specs.ClientView.{stage_view};

use crate::names::FileName;
use crate::payload::FtpOpcode;

/// Which request waits. A session is that of the server.
#[derive(Drop)]
pub enum Stage {
    /// ListDirectory, after so many entries.
    Listing { entries: u32 },
    /// OpenFileRO.
    Opening(FileName),
    /// ReadFile.
    Reading(u8),
    /// TerminateSession of a fetch.
    Closing(u8),
    /// CreateFile.
    Creating(FileName),
    /// WriteFile, after so many bytes.
    Writing { session: u8, written: u32 },
    /// TerminateSession of a store.
    Committing(u8),
    /// RemoveFile.
    Removing(FileName),
}

impl Stage {
    /// What the request asks for.
    pub fn opcode(&self) -> u8
        ensures { result ≡ opcode_of (stage_view self.now [] 0).phase }
    {
        match self {
            Stage::Listing { .. } => FtpOpcode::LIST_DIRECTORY,
            Stage::Opening(_) => FtpOpcode::OPEN_FILE_RO,
            Stage::Reading(_) => FtpOpcode::READ_FILE,
            Stage::Closing(_) | Stage::Committing(_) => FtpOpcode::TERMINATE_SESSION,
            Stage::Creating(_) => FtpOpcode::CREATE_FILE,
            Stage::Writing { .. } => FtpOpcode::WRITE_FILE,
            Stage::Removing(_) => FtpOpcode::REMOVE_FILE,
        }
    }

    /// The session that it names.
    pub fn session(&self) -> u8
        ensures { result ≡ (stage_view self.now [] 0).session }
    {
        match self {
            Stage::Reading(session)
            | Stage::Closing(session)
            | Stage::Committing(session)
            | Stage::Writing { session, .. } => *session,
            _ => 0,
        }
    }

    /// The least size of a reply.
    pub fn least_size(&self, acknowledges: bool) -> u8
        ensures { result ≡ least_size (stage_view self.now [] 0).phase acknowledges }
    {
        match self {
            Stage::Listing { .. } | Stage::Reading(_) => 1,
            _ => u8::from(!acknowledges),
        }
    }
}
