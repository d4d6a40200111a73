// The last request of each stream and its reply.
ghost use Rattle.std.specs.Prelude.{◌≡◌, ◌<◌, [], length, IsFalse, IfOk, IfSome};
ghost use Rattle.mav_ftp.specs.Exchanges.{exchange_at, kept_reply, is_full_for, with_exchange};

use crate::NoMemory;
use mav_names::{Stream, is_same_stream};
use std::alloc::Global;
use std::marker::Model;

// The most streams of which an exchange is kept.
const MAX_STREAMS: usize = 256;

/// The last request of a stream, and the reply to it.
#[derive(Clone, Copy)]
pub struct Exchange {
    pub stream: Stream,
    pub request: [u8; 251],
    pub reply: [u8; 251],
}

/// The exchanges in the order in which their streams came. A stream's is found by one pass over at most 256 entries.
#[derive(Drop)]
pub struct Exchanges {
    entries: Vec<Exchange>,
}

impl Model for Exchanges {
    ghost use Rattle.std.specs.Prelude.{◌≤◌, List, length, vec_capacity};
    ghost use Rattle.mav_ftp.specs.declared.exchanges.Exchange.{Exchange};

    ghost Value = { List Exchange };

    ghost view = { λ e. e.entries.items };

    ghost invariant = { λ e. (256 ≤ vec_capacity e.entries) × (length e.entries.items ≤ 256) };
}

fn place(entries: &[Exchange], stream: Stream) -> Option<usize>
    ensures place { result ≡ exchange_at entries.now stream }
    ensures inside { IfSome result (λ at. at < length entries.now) }
{
    entries
        .iter()
        .position(|exchange| is_same_stream(exchange.stream, stream))
}

impl Exchanges {
    pub fn new(alloc: Global) -> Result<Exchanges, NoMemory>
        ensures { IfOk result (λ e. e ≡ []) }
    {
        Ok(Exchanges {
            entries: Vec::with_capacity(alloc, MAX_STREAMS)?,
        })
    }

    /// The reply to the stream's last request, if this is the same request.
    pub fn reply(&self, stream: Stream, request: &[u8; 251]) -> Option<[u8; 251]>
        ensures { result ≡ kept_reply self.now stream request.now }
    {
        let at = place(&self.entries, stream)?;
        let exchange = &self.entries[at];
        if exchange.request == *request {
            Some(exchange.reply)
        } else {
            None
        }
    }

    /// Whether the stream is new and no further one can be kept.
    pub fn is_full_for(&self, stream: Stream) -> bool
        ensures { result ≡ is_full_for self.now stream }
    {
        match place(&self.entries, stream) {
            Some(_) => false,
            None => self.entries.len() >= MAX_STREAMS,
        }
    }

    pub fn set(&mut self, exchange: Exchange)
        requires { IsFalse (is_full_for self.old exchange.stream) }
        ensures { self.new ≡ with_exchange self.old exchange }
    {
        match place(&self.entries, exchange.stream) {
            Some(at) => self.entries[at] = exchange,
            None => self.entries.push_reserved(exchange),
        }
    }
}
