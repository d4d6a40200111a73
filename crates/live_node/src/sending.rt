// The frames of news, as they are written to a link.
ghost use Rattle.std.specs.Prelude.{◌≡◌, OnOk, OnErr};
ghost use Rattle.std.specs.Io.KnownBytes.{append_known};
ghost use Rattle.mav_ports.specs.Counts.{Rose};
ghost use Rattle.mav_ports.specs.Puts.{SentPrefix};
ghost use Rattle.mav_nodes.specs.News.{said_by, events_of};
ghost use Rattle.live_node.specs.Texts.{frame_bytes, frames_text};
ghost use Rattle.live_node.specs.Ports.{SameRead};

use mav_links::{Link, write_prefix};
use mav_nodes::News;
use mav_ports::WriteFault;

// Writes some bytes, or a prefix of them if the link fails.
fn write<L: Link>(link: &mut L, bytes: &[u8]) -> Result<(), WriteFault>
    ensures sent { OnOk result ((L.state link.new).sent ≡ append_known (L.state link.old).sent bytes.now) }
    ensures prefix { SentPrefix (L.state link.old).sent (L.state link.new).sent bytes.now }
    ensures same { OnOk result ((L.state link.new).faults ≡ (L.state link.old).faults) }
    ensures rose { OnErr result (Rose (L.state link.old).faults (L.state link.new).faults) }
    ensures unread { SameRead (L.state link.old) (L.state link.new) }
{
    if write_prefix(link, bytes) == bytes.len() {
        Ok(())
    } else {
        Err(WriteFault)
    }
}

// The bytes of a piece of news' frame, if it has one.
fn frame_of(one: &News) -> &[u8]
    ensures { result.now ≡ frame_bytes (said_by one.now) }
{
    match one {
        News::Sent(frame, _) => frame.raw().bytes(),
        _ => &[],
    }
}

// Writes the frame of a piece of news, if it has one.
fn send_one<L: Link>(link: &mut L, one: &News) -> Result<(), WriteFault>
    ensures sent { OnOk result ((L.state link.new).sent ≡ append_known (L.state link.old).sent
        (frame_bytes (said_by one.now))) }
    ensures prefix { SentPrefix (L.state link.old).sent (L.state link.new).sent (frame_bytes (said_by one.now)) }
    ensures same { OnOk result ((L.state link.new).faults ≡ (L.state link.old).faults) }
    ensures rose { OnErr result (Rose (L.state link.old).faults (L.state link.new).faults) }
    ensures unread { SameRead (L.state link.old) (L.state link.new) }
{
    write(link, frame_of(one))
}

/// Writes the frames of news, in order.
pub(crate) fn send_news<L: Link>(link: &mut L, news: &[News]) -> Result<(), WriteFault>
    ensures sent { OnOk result ((L.state link.new).sent ≡ append_known (L.state link.old).sent
        (frames_text (events_of news.now))) }
    ensures prefix { SentPrefix (L.state link.old).sent (L.state link.new).sent (frames_text (events_of news.now)) }
    ensures same { OnOk result ((L.state link.new).faults ≡ (L.state link.old).faults) }
    ensures rose { OnErr result (Rose (L.state link.old).faults (L.state link.new).faults) }
    ensures unread { SameRead (L.state link.old) (L.state link.new) }
{
    for one in news {
        match send_one(link, one) {
            Ok(()) => {}
            Err(fault) => return Err(fault),
        }
    }
    Ok(())
}
