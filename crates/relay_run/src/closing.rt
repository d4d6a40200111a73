// Links that close.
ghost use Rattle.std.specs.Prelude.{◌≡◌, ◌<◌, length};
ghost use Rattle.std.specs.List.{remove};
ghost use Rattle.relay_run.specs.Closing.{HasClosed};

use relay_core::{Note, Relay, Watcher};
use relay_hub::Why;

/// Closes the relay's link for one that has closed at the hub, and tells the watcher.
pub(crate) fn close_link<W: Watcher>(relay: &mut Relay, index: usize, why: Why, watcher: &mut W)
    requires { index < length relay.old.links.links }
    ensures closes { HasClosed index why relay.old relay.new W.told watcher.old watcher.new }
    ensures links { relay.new.links.links ≡ remove relay.old.links.links index }
{
    let link = relay.link(index);
    let dropped = relay.close(index);
    watcher.note(Note::Closed {
        number: link.number,
        port: link.port,
        why,
        dropped,
    });
}
