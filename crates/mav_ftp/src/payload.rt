// The payload of FILE_TRANSFER_PROTOCOL (MAVLink guide, File Transfer Protocol: Payload Format).
ghost use Rattle.std.specs.Prelude.{◌≡◌, ◌+◌, ◌≤◌, ◌++◌, length, take, drop};
ghost use Rattle.std.specs.List.{list_all};
ghost use Rattle.mav_ftp.specs.Payload.{fields_of, data_of, sized_data, ftp_header, ftp_payload, is_name_byte};
ghost use Rattle.mav_ftp.specs.Payload.{is_file_name, most_data};

/// The bytes of a payload before its data.
pub const HEADER_BYTES: usize = 12;

/// The most bytes of data in a payload.
pub const MAX_DATA_BYTES: usize = 239;

/// The most bytes of a file's name.
pub const MAX_NAME_BYTES: usize = 64;

/// The most bytes of a file.
pub const MAX_FILE_BYTES: usize = 1_048_576;

/// What a payload asks for or returns.
pub struct FtpOpcode;

impl FtpOpcode {
    pub const TERMINATE_SESSION: u8 = 1;

    pub const RESET_SESSIONS: u8 = 2;

    pub const LIST_DIRECTORY: u8 = 3;

    pub const OPEN_FILE_RO: u8 = 4;

    pub const READ_FILE: u8 = 5;

    pub const CREATE_FILE: u8 = 6;

    pub const WRITE_FILE: u8 = 7;

    pub const REMOVE_FILE: u8 = 8;

    pub const ACK: u8 = 128;

    pub const NAK: u8 = 129;
}

/// Why a request got a NAK: the first byte of its data.
pub struct FtpError;

impl FtpError {
    pub const FAIL: u8 = 1;

    pub const INVALID_DATA_SIZE: u8 = 3;

    pub const INVALID_SESSION: u8 = 4;

    pub const NO_SESSIONS_AVAILABLE: u8 = 5;

    pub const END_OF_FILE: u8 = 6;

    pub const UNKNOWN_COMMAND: u8 = 7;

    pub const FILE_EXISTS: u8 = 8;

    pub const FILE_NOT_FOUND: u8 = 10;
}

/// The numbers of a payload. Its burst_complete and padding aren't read, and are written as 0.
#[derive(Clone, Copy)]
pub struct FtpFields {
    pub seq: u16,
    pub session: u8,
    pub opcode: u8,
    pub size: u8,
    pub req_opcode: u8,
    pub offset: u32,
}

impl FtpFields {
    pub fn read(payload: &[u8; 251]) -> FtpFields
        ensures { result ≡ fields_of payload.now }
    {
        FtpFields {
            seq: u16::from_le_bytes([payload[0], payload[1]]),
            session: payload[2],
            opcode: payload[3],
            size: payload[4],
            req_opcode: payload[5],
            offset: u32::from_le_bytes([payload[8], payload[9], payload[10], payload[11]]),
        }
    }

    // The bytes before the data.
    fn header(&self) -> [u8; 12]
        ensures { result ≡ ftp_header self.now }
    {
        let [seq_low, seq_high] = self.seq.to_le_bytes();
        let [first, second, third, fourth] = self.offset.to_le_bytes();
        [
            seq_low,
            seq_high,
            self.session,
            self.opcode,
            self.size,
            self.req_opcode,
            0,
            0,
            first,
            second,
            third,
            fourth,
        ]
    }

    /// The payload of these numbers and this data.
    pub fn payload(&self, bytes: &[u8]) -> [u8; 251]
        requires { length bytes.now ≤ most_data }
        ensures { result ≡ ftp_payload self.now bytes.now }
    {
        let mut payload = [0; 251];
        put(&mut payload, 0, &self.header());
        put(&mut payload, HEADER_BYTES, bytes);
        payload
    }
}

// Writes bytes at an offset.
fn put(payload: &mut [u8; 251], at: usize, bytes: &[u8])
    requires { at + length bytes.now ≤ 251 }
    ensures { payload.new ≡ take at payload.old ++ (bytes.now ++ drop (at + length bytes.now) payload.old) }
{
    payload[at..at + bytes.len()].copy_from_slice(bytes);
}

/// All bytes of data.
pub fn data_of(payload: &[u8; 251]) -> &[u8]
    ensures bytes { result.now ≡ data_of payload.now }
    ensures len { length result.now ≡ most_data }
{
    payload.split_at(HEADER_BYTES).1
}

/// The bytes of data that the size counts: all of them, if it is above 239.
pub fn sized_data(payload: &[u8; 251]) -> &[u8]
    ensures bytes { result.now ≡ sized_data payload.now }
    ensures len { length result.now ≤ most_data }
{
    let bytes = data_of(payload);
    let size = usize::from(payload[4]);
    &bytes[..size.min(MAX_DATA_BYTES)]
}

fn is_name_byte(byte: u8) -> bool
    ensures { result ≡ is_name_byte byte }
{
    matches!(byte, b'A'..=b'Z' | b'a'..=b'z' | b'0'..=b'9' | b'.' | b'_' | b'-')
}

fn all_name_bytes(name: &[u8]) -> bool
    ensures { result ≡ list_all is_name_byte name.now }
{
    name.iter().all(|byte| is_name_byte(*byte))
}

/// Whether bytes are a name of a file in this profile.
pub fn is_file_name(name: &[u8]) -> bool
    ensures { result ≡ is_file_name name.now }
{
    1 <= name.len() && name.len() <= MAX_NAME_BYTES && all_name_bytes(name)
}
