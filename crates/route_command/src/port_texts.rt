// The texts of sets of ports.
ghost use Rattle.std.specs.Prelude.{◌≡◌, ◌≤◌, ◌<◌, ◌+◌, ◌*◌, ◌++◌, slice_index, take, false};
ghost use Rattle.link_table.specs.Bits.{flags_of};
ghost use Rattle.route_command.specs.declared.port_texts.TheConstants.{TEXT_BYTES as SIZES};
ghost use Rattle.route_command.specs.Texts.{ports_from};

use link_table::Ways;
use mav_text::put_part;

// The ports 1 to 4 whose bits are set, each with a comma before it.
static LOW_PORTS: [[u8; 8]; 16] = [
    [0, 0, 0, 0, 0, 0, 0, 0],
    [b',', b'1', 0, 0, 0, 0, 0, 0],
    [b',', b'2', 0, 0, 0, 0, 0, 0],
    [b',', b'1', b',', b'2', 0, 0, 0, 0],
    [b',', b'3', 0, 0, 0, 0, 0, 0],
    [b',', b'1', b',', b'3', 0, 0, 0, 0],
    [b',', b'2', b',', b'3', 0, 0, 0, 0],
    [b',', b'1', b',', b'2', b',', b'3', 0, 0],
    [b',', b'4', 0, 0, 0, 0, 0, 0],
    [b',', b'1', b',', b'4', 0, 0, 0, 0],
    [b',', b'2', b',', b'4', 0, 0, 0, 0],
    [b',', b'1', b',', b'2', b',', b'4', 0, 0],
    [b',', b'3', b',', b'4', 0, 0, 0, 0],
    [b',', b'1', b',', b'3', b',', b'4', 0, 0],
    [b',', b'2', b',', b'3', b',', b'4', 0, 0],
    [b',', b'1', b',', b'2', b',', b'3', b',', b'4'],
];

// The ports 5 to 8.
static HIGH_PORTS: [[u8; 8]; 16] = [
    [0, 0, 0, 0, 0, 0, 0, 0],
    [b',', b'5', 0, 0, 0, 0, 0, 0],
    [b',', b'6', 0, 0, 0, 0, 0, 0],
    [b',', b'5', b',', b'6', 0, 0, 0, 0],
    [b',', b'7', 0, 0, 0, 0, 0, 0],
    [b',', b'5', b',', b'7', 0, 0, 0, 0],
    [b',', b'6', b',', b'7', 0, 0, 0, 0],
    [b',', b'5', b',', b'6', b',', b'7', 0, 0],
    [b',', b'8', 0, 0, 0, 0, 0, 0],
    [b',', b'5', b',', b'8', 0, 0, 0, 0],
    [b',', b'6', b',', b'8', 0, 0, 0, 0],
    [b',', b'5', b',', b'6', b',', b'8', 0, 0],
    [b',', b'7', b',', b'8', 0, 0, 0, 0],
    [b',', b'5', b',', b'7', b',', b'8', 0, 0],
    [b',', b'6', b',', b'7', b',', b'8', 0, 0],
    [b',', b'5', b',', b'6', b',', b'7', b',', b'8'],
];

// How many bytes of a row of either are its text.
static TEXT_BYTES: [u8; 16] = [0, 2, 2, 4, 2, 4, 4, 6, 2, 4, 4, 6, 4, 6, 6, 8];

// How many bytes the text of four ports has.
#[inline(always)]
fn text_bytes(bits: u8) -> usize
    requires { bits < 16 }
    ensures size { result ≡ slice_index SIZES bits }
    ensures short { result ≤ 8 }
{
    usize::from(TEXT_BYTES[usize::from(bits)])
}

#[inline(always)]
fn put_low_ports(line: &mut [u8; 128], at: usize, bits: u8) -> usize
    requires few { bits < 16 }
    requires room { at ≤ 120 }
    ensures index { (at ≤ result) × (result ≤ at + 8) }
    ensures text { take result line.new ≡ take at line.old ++ ports_from false (flags_of bits) 1 4 }
{
    let row = &LOW_PORTS[usize::from(bits)];
    put_part(line, at, row, text_bytes(bits))
}

#[inline(always)]
fn put_high_ports(line: &mut [u8; 128], at: usize, bits: u8) -> usize
    requires few { bits < 16 }
    requires room { at ≤ 120 }
    ensures index { (at ≤ result) × (result ≤ at + 8) }
    ensures text { take result line.new ≡ take at line.old ++ ports_from false (flags_of (bits * 16)) 5 4 }
{
    let row = &HIGH_PORTS[usize::from(bits)];
    put_part(line, at, row, text_bytes(bits))
}

/// Puts the ports of a set with a comma before each, and returns the index after them.
#[inline(always)]
pub(crate) fn put_further_ports(line: &mut [u8; 128], at: usize, ways: Ways) -> usize
    requires { at ≤ 100 }
    ensures index { (at ≤ result) × (result ≤ at + 16) }
    ensures text { take result line.new ≡ take at line.old ++ ports_from false ways 1 8 }
{
    let mask = ways.mask();
    let end = put_low_ports(line, at, mask % 16);
    put_high_ports(line, end, mask / 16)
}
