// What holds of every run, by the definitions alone.
ghost use Rattle.std.specs.Prelude.{◌≡◌, ◌<◌, ◌^◌, ℕ, List, length, false, Some, None};
ghost use Rattle.mav_names.specs.Addresses.{same_stream};
ghost use Rattle.mav_ftp.specs.Sessions.{Session, session_of};
ghost use Rattle.mav_names.specs.declared.names.Stream.{Stream};
ghost use Rattle.mav_ftp.specs.declared.payload.FtpFields.{FtpFields};
ghost use Rattle.mav_ftp.specs.Payload.{fields_of, sized_data, ftp_payload, is_file_name};
ghost use Rattle.mav_ftp.specs.Server.{FilesState, no_files, reply_to, files_after, file_named};
ghost use Rattle.mav_ftp.specs.Ranges.{PayloadInRange, FilesInRange};
ghost use Rattle.mav_ftp.specs.Laws.{Piece, end_request, all_bytes, CanCreate, AreWritable, written};

/// A payload gives the numbers and the data that it was put together from.
pub fn every_payload()
    ensures numbers { (f : FtpFields) → (bytes : List ℕ) → f.seq < 65536 → f.offset < 2 ^ 32
        → fields_of (ftp_payload f bytes) ≡ f }
    ensures bytes { (f : FtpFields) → (bytes : List ℕ) → f.size ≡ length bytes
        → sized_data (ftp_payload f bytes) ≡ bytes }
{}

/// A server stays in range, with all its replies, whatever the requests are: it has at most 64 files, each of at most
/// 1,048,576 bytes, and a reply is 251 bytes.
pub fn every_files_state()
    ensures new { FilesInRange no_files }
    ensures step { (st : FilesState) → FilesInRange st → (from : Stream) → (payload : List ℕ) → PayloadInRange payload
        → FilesInRange (files_after st from payload) }
    ensures reply { (st : FilesState) → FilesInRange st → (from : Stream) → (payload : List ℕ) → PayloadInRange payload
        → PayloadInRange (reply_to st from payload) }
{}

/// The files of a server in range have names: bytes that can't be a name are those of no file.
pub fn every_name()
    ensures { (st : FilesState) → FilesInRange st → (name : List ℕ) → is_file_name name ≡ false
        → file_named st name ≡ None }
{}

/// Whatever a stream asks for, the sessions of the other streams stay as they are.
pub fn every_other_stream()
    ensures { (st : FilesState) → (from : Stream) → (other : Stream) → same_stream from other ≡ false
        → (payload : List ℕ) → (session : ℕ) → (s : Session)
        → session_of st.sessions from session ≡ Some s
        → session_of (files_after st other payload).sessions from session ≡ Some s }
{}

/// A file that a stream writes piece by piece is none while its session is open. When the session ends, it has exactly
/// the bytes that were written.
pub fn every_stored_file()
    ensures hidden { (st : FilesState) → (from : Stream) → (session : ℕ) → (seq : ℕ) → (name : List ℕ)
        → (pieces : List Piece)
        → CanCreate st from session seq name → AreWritable pieces
        → file_named (written st from session seq name pieces) name ≡ None }
    ensures stored { (st : FilesState) → (from : Stream) → (session : ℕ) → (seq : ℕ) → (name : List ℕ)
        → (pieces : List Piece)
        → CanCreate st from session seq name → AreWritable pieces → (last : ℕ)
        → file_named (files_after (written st from session seq name pieces) from (end_request last session)) name
        ≡ Some (all_bytes pieces) }
{}
