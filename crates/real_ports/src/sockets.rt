// Ports over sockets.
ghost use Rattle.std.specs.Prelude.{◌≡◌, true};
ghost use Rattle.command_line.specs.declared.ports.SocketKind.TheVariants.{Tcp, Udp};
ghost use Rattle.real_ports.specs.Opened.{just_opened, is_open, is_of_socket};

use crate::RealLink;
use command_line::{Socket, SocketKind};
use mav_links::{Connection, Link, Pace, Peer, PeerSocket, TcpLink, UdpLink, WaitingStream, Watch};
use std::io;
use std::io::{Error, ErrorKind};
use std::net::{SocketAddr, TcpListener, TcpStream, ToSocketAddrs, UdpSocket};

// A TCP connection: one that is made, or the first that comes.
fn connection(rt: &HostRuntime, socket: &Socket) -> io::Result<Connection> {
    let address = (socket.host.as_str(), socket.number);
    match socket.kind {
        SocketKind::Listen => Connection::awaited_at(TcpListener::bind(rt, address)?),
        _ => Connection::over(TcpStream::connect(rt, address)?),
    }
}

fn stream(
    rt: &HostRuntime,
    socket: &Socket,
    watch: Watch,
    pace: Pace<HostRuntime>,
) -> io::Result<WaitingStream<HostRuntime>> {
    WaitingStream::new(connection(rt, socket)?, watch, pace, rt.alloc())
}

/// Over a TCP connection.
pub(crate) fn stream_link(
    rt: &HostRuntime,
    socket: &Socket,
    watch: Option<Watch>,
    pace: Pace<HostRuntime>,
) -> RealLink
    ensures opened { ⟦<RealLink as Link>⟧.state result ≡ just_opened }
    ensures open { is_open result ≡ true }
    ensures kind { is_of_socket Tcp result ≡ true }
{
    let Some(watch) = watch else {
        return RealLink::Stream(TcpLink::new(None));
    };
    RealLink::Stream(TcpLink::new(stream(rt, socket, watch, pace).ok()))
}

// A socket at any port of this machine that hears one peer alone.
fn to_peer(rt: &HostRuntime, socket: &Socket) -> io::Result<UdpSocket> {
    let mut peers = (socket.host.as_str(), socket.number).to_socket_addrs(rt)?;
    let Some(peer) = peers.next() else {
        return Err(Error::from(ErrorKind::NotFound));
    };
    let host = match peer {
        SocketAddr::V4(_) => "0.0.0.0",
        SocketAddr::V6(_) => "::",
    };
    let bound = UdpSocket::bind(rt, (host, 0))?;
    bound.connect(peer)?;
    Ok(bound)
}

fn datagrams(
    rt: &HostRuntime,
    socket: &Socket,
    watch: Watch,
    pace: Pace<HostRuntime>,
) -> io::Result<PeerSocket<HostRuntime>> {
    match socket.kind {
        SocketKind::UdpListen => {
            let bound = UdpSocket::bind(rt, (socket.host.as_str(), socket.number))?;
            PeerSocket::new(bound, Peer::Latest(None), watch, pace)
        }
        _ => PeerSocket::new(to_peer(rt, socket)?, Peer::Fixed, watch, pace),
    }
}

/// Over a UDP socket: to one peer, or to its latest sender.
pub(crate) fn datagrams_link(
    rt: &HostRuntime,
    socket: &Socket,
    watch: Option<Watch>,
    pace: Pace<HostRuntime>,
) -> RealLink
    ensures opened { ⟦<RealLink as Link>⟧.state result ≡ just_opened }
    ensures open { is_open result ≡ true }
    ensures kind { is_of_socket Udp result ≡ true }
{
    let Some(watch) = watch else {
        return RealLink::Datagrams(UdpLink::closed(rt.alloc()));
    };
    let link = match datagrams(rt, socket, watch, pace) {
        Ok(socket) => UdpLink::new(rt.alloc(), socket),
        Err(_) => Ok(UdpLink::closed(rt.alloc())),
    };
    match link {
        Ok(link) => RealLink::Datagrams(link),
        Err(_) => RealLink::Datagrams(UdpLink::closed(rt.alloc())),
    }
}
