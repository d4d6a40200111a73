// Sockets that don't wait.

use crate::addresses::Addresses;
use mio::net::{TcpListener, TcpStream, UdpSocket};
use std::io;
use std::io::{Error, ErrorKind};
use std::net::{IpAddr, Ipv4Addr, Ipv6Addr, Net, SocketAddr};

fn not_found() -> Error {
    Error::from(ErrorKind::NotFound)
}

/// Listens at the first address that can be bound.
pub(crate) fn listen(net: &impl Net, addresses: &mut Addresses) -> io::Result<TcpListener> {
    for _address in 0..32 {
        let address = addresses.next().ok_or(not_found())?;
        if let Ok(listener) = TcpListener::bind(net, address) {
            return Ok(listener);
        }
    }
    Err(not_found())
}

/// Begins to connect to the first address left at which that can be begun.
pub(crate) fn connect(net: &impl Net, addresses: &mut Addresses) -> io::Result<TcpStream> {
    for _address in 0..32 {
        let address = addresses.next().ok_or(not_found())?;
        if let Ok(stream) = TcpStream::connect(net, address) {
            return Ok(stream);
        }
    }
    Err(not_found())
}

/// Hears everyone, at the first address that can be bound.
pub(crate) fn bind(net: &impl Net, addresses: &mut Addresses) -> io::Result<UdpSocket> {
    for _address in 0..32 {
        let address = addresses.next().ok_or(not_found())?;
        if let Ok(socket) = UdpSocket::bind(net, address) {
            return Ok(socket);
        }
    }
    Err(not_found())
}

// Any port of this machine, of the same family.
fn any_port(peer: SocketAddr) -> SocketAddr {
    let host = match peer {
        SocketAddr::V4(_) => IpAddr::V4(Ipv4Addr::new(0, 0, 0, 0)),
        SocketAddr::V6(_) => IpAddr::V6(Ipv6Addr::new(0, 0, 0, 0, 0, 0, 0, 0)),
    };
    SocketAddr::new(host, 0)
}

fn bound_to(net: &impl Net, peer: SocketAddr) -> io::Result<UdpSocket> {
    let socket = UdpSocket::bind(net, any_port(peer))?;
    socket.connect(peer)?;
    Ok(socket)
}

/// Hears one peer alone, at the first address at which that is possible.
pub(crate) fn connect_datagrams(
    net: &impl Net,
    addresses: &mut Addresses,
) -> io::Result<UdpSocket> {
    for _address in 0..32 {
        let address = addresses.next().ok_or(not_found())?;
        if let Ok(socket) = bound_to(net, address) {
            return Ok(socket);
        }
    }
    Err(not_found())
}

/// Whether a connection that was begun is made; none while it isn't known.
pub(crate) fn is_made(stream: &TcpStream) -> Option<bool> {
    if !matches!(stream.take_error(), Ok(None)) {
        return Some(false);
    }
    match stream.peer_addr() {
        Ok(_) => Some(stream.set_nodelay(true).is_ok()),
        Err(error) if error.kind() == ErrorKind::NotConnected => None,
        Err(_) => Some(false),
    }
}
