// How many bytes of a write go out in one datagram.
ghost use Rattle.std.specs.Prelude.{◌≡◌, ◌<◌, ◌≤◌, length};
ghost use Rattle.mav_links.specs.Datagrams as spec;

// The first bytes of frames of MAVLink 2 and of MAVLink 1.
const STX: u8 = 0xFD;

const OLD_STX: u8 = 0xFE;

// How many bytes they have beside their payloads.
const OTHERS: usize = 12;

const OLD_OTHERS: usize = 8;

// How many a signature block has.
const BLOCK_BYTES: usize = 13;

// The most bytes that a datagram over IPv4 carries.
const MOST_SENT: usize = 65_507;

// The length that a frame's header fixes, or how many bytes there are if they begin with none.
fn size_by_header(bytes: &[u8]) -> usize
    requires { 3 ≤ length bytes.now }
    ensures { result ≡ spec.size_by_header bytes.now }
{
    let payload = usize::from(bytes[1]);
    if bytes[0] == STX {
        if bytes[2] % 2 == 1 {
            OTHERS + BLOCK_BYTES + payload
        } else {
            OTHERS + payload
        }
    } else if bytes[0] == OLD_STX {
        OLD_OTHERS + payload
    } else {
        bytes.len()
    }
}

/// How many bytes go out in one datagram: those of the first frame, if it is whole, and else as many as there are and
/// fit.
pub fn datagram_size(bytes: &[u8]) -> usize
    requires { 0 < length bytes.now }
    ensures exact { result ≡ spec.datagram_size bytes.now }
    ensures some { 0 < result }
    ensures within { result ≤ length bytes.now }
{
    if bytes.len() < 3 {
        return bytes.len();
    }
    size_by_header(bytes).min(bytes.len().min(MOST_SENT))
}
