// The lines of the ports.
ghost use Rattle.std.specs.Prelude.{◌≡◌, ◌≤◌, ◌+◌, ◌++◌, length, OnOk};
ghost use Rattle.route_command.specs.Texts.{how_word, port_line, port_lines};
ghost use Rattle.route_command.specs.Routes.{is_turns, has_turns};

use crate::named::put_named;
use mav_router::{How, PortEnd};
use mav_text::NoMemory;

fn how_word(how: How) -> &'static [u8]
    ensures { result.now ≡ how_word how }
{
    match how {
        How::Ended => b"ended",
        How::Failed => b"failed",
        How::Turns(_) => b"turns",
    }
}

fn put_port_line(port: u64, end: &PortEnd, lines: &mut Vec<u8>) -> Result<(), NoMemory>
    ensures { OnOk result (lines.new.items ≡ lines.old.items ++ port_line port end.now) }
{
    put_named(b"port ", port, lines)?;
    put_named(b" read ", end.read, lines)?;
    put_named(b" skipped ", end.skipped, lines)?;
    put_named(b" written ", end.written, lines)?;
    lines.push(b' ')?;
    lines.extend_from_slice(how_word(end.how))?;
    lines.push(b'\n')?;
    Ok(())
}

/// Appends the lines of the ports.
pub(crate) fn put_ends(ends: &[PortEnd], lines: &mut Vec<u8>) -> Result<(), NoMemory>
    requires { length ends.now ≤ 8 }
    ensures { OnOk result (lines.new.items ≡ lines.old.items ++ port_lines 1 ends.now) }
{
    for at in 0..ends.len() {
        put_port_line(at as u64 + 1, &ends[at], lines)?;
    }
    Ok(())
}

fn is_turns(how: How) -> bool
    ensures { result ≡ is_turns how }
{
    match how {
        How::Turns(_) => true,
        How::Ended | How::Failed => false,
    }
}

/// Whether a port hadn't ended after as many reads as it may have.
pub(crate) fn has_turns(ends: &[PortEnd]) -> bool
    ensures { result ≡ has_turns ends.now }
{
    for at in 0..ends.len() {
        if is_turns(ends[at].how) {
            return true;
        }
    }
    false
}
