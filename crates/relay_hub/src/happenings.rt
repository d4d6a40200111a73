// What is to happen at a hub over memory.
ghost use Rattle.std.specs.Prelude.{◌≡◌, [], ℕ, List, IfSome};
ghost use Rattle.relay_hub.specs.MemHubs.{is_port, news_at};
ghost use Rattle.relay_hub.specs.Seats.{IsNews};

use crate::{HubNews, Why};

/// What happens next, and at which port, or to the open link with which index.
#[derive(Clone, Copy)]
pub enum Happening {
    /// A link opens at this port, or is refused where there is no room.
    Opens(u8),
    /// This link closes.
    Closes(usize, Why),
    /// This port can't be opened.
    Fails(u8),
    /// This link gives so many of the next bytes.
    Gives(usize, usize),
    /// Somebody without a link sends so many of the next bytes to this port.
    Asks(u8, usize),
}

/// Ports are numbered from 1, and there are at most eight.
pub(crate) fn is_port(port: u8) -> bool
    ensures { result ≡ is_port port }
{
    1 <= port && port <= 8
}

/// The news of a port that can't be opened.
pub(crate) fn waiting_news(port: u8) -> Option<HubNews>
    ensures result { result ≡ news_at (Happening.Fails port) [] }
    ensures news { (ports : List ℕ) → IfSome result (λ news. IsNews news ports) }
{
    if is_port(port) {
        Some(HubNews::Waits(port))
    } else {
        None
    }
}
