// The addresses of a host.
ghost use Rattle.std.specs.Prelude.{◌≡◌, ◌<◌, ◌≤◌, vec_len, vec_capacity, IfOk};

use crate::Socket;
use std::alloc::{AllocError, Global};
use std::net::{Net, SocketAddr, ToSocketAddrs};

// So many addresses of a name are tried.
const MOST_ADDRESSES: usize = 32;

/// The addresses of a host that are still to be tried.
#[derive(Drop)]
pub(crate) struct Addresses {
    found: Vec<SocketAddr>,
    next: usize,
    ghost room: { 32 ≤ vec_capacity found },
}

// An IPv6 address without its brackets.
fn bare(host: &str) -> &str {
    match host.strip_prefix('[') {
        Some(rest) => match rest.strip_suffix(']') {
            Some(inner) => inner,
            None => host,
        },
        None => host,
    }
}

// Keeps an address, if there is room for it.
fn keep(found: &mut Vec<SocketAddr>, address: SocketAddr)
    requires { 32 ≤ vec_capacity found.old }
    ensures { vec_capacity found.new ≡ vec_capacity found.old }
{
    if found.len() < MOST_ADDRESSES {
        found.push_reserved(address);
    }
}

impl Addresses {
    pub(crate) fn new(alloc: Global) -> Result<Addresses, AllocError> {
        let found = Vec::with_capacity(alloc, MOST_ADDRESSES)?;
        Ok(Addresses { found, next: 0 })
    }

    /// Looks the host up, and begins with its first address.
    pub(crate) fn look_up(&mut self, net: &impl Net, socket: &Socket) {
        self.found.clear();
        self.next = 0;
        let address = (bare(socket.host.as_str()), socket.number);
        let Ok(found) = address.to_socket_addrs(net) else {
            return;
        };
        for address in found {
            keep(&mut self.found, address);
        }
    }

    /// The next address, if one is left.
    pub(crate) fn next(&mut self) -> Option<SocketAddr> {
        let address = *self.found.get(self.next)?;
        self.next = self.next.saturating_add(1);
        Some(address)
    }
}
