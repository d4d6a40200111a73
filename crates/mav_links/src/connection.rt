// A TCP connection, or where its client comes.
ghost use Rattle.std.specs.Prelude.{◌≡◌};
ghost use Rattle.std.specs.Io.{ReadsAtMost, WritesAtMost};

use crate::{Bell, Watch};
use mio::net::{TcpListener, TcpStream};
use std::io::{Error, ErrorKind, Read, Write};
use std::net::Shutdown;
use std::{io, net};

/// A TCP connection, or a listener until its one client has come. No call waits.
#[derive(Drop)]
pub enum Connection {
    Listening(TcpListener),
    Connected(TcpStream),
}

impl Connection {
    /// A connection whose small writes are sent at once.
    pub fn over(stream: net::TcpStream) -> io::Result<Connection> {
        stream.set_nodelay(true)?;
        stream.set_nonblocking(true)?;
        Ok(Connection::Connected(TcpStream::from_std(stream)))
    }

    /// A connection to the first client that comes.
    pub fn awaited_at(listener: net::TcpListener) -> io::Result<Connection> {
        listener.set_nonblocking(true)?;
        Ok(Connection::Listening(TcpListener::from_std(listener)))
    }

    pub(crate) fn watched_by(&mut self, watch: &mut Watch) -> io::Result<()> {
        match self {
            Connection::Listening(listener) => watch.add(listener),
            Connection::Connected(stream) => watch.add_stream(stream),
        }
    }

    pub(crate) fn heard_by(&mut self, bell: &Bell) {
        match self {
            Connection::Listening(listener) => bell.hears(listener),
            Connection::Connected(stream) => bell.hears(stream),
        }
    }

    // The client, if it has come.
    fn client(&self, watch: &mut Watch) -> io::Result<Option<TcpStream>> {
        let Connection::Listening(listener) = self else {
            return Ok(None);
        };
        let (mut stream, _) = listener.accept()?;
        stream.set_nodelay(true)?;
        watch.add_stream(&mut stream)?;
        Ok(Some(stream))
    }

    /// Whether there is a connection, with the client that has come if it listens.
    pub(crate) fn is_connected(&mut self, watch: &mut Watch) -> bool {
        if let Ok(Some(stream)) = self.client(watch) {
            *self = Connection::Connected(stream);
        }
        matches!(self, Connection::Connected(_))
    }

    pub(crate) fn peek(&self, buf: &mut [u8]) -> io::Result<usize> {
        match self {
            Connection::Listening(_) => Err(Error::from(ErrorKind::WouldBlock)),
            Connection::Connected(stream) => stream.peek(buf),
        }
    }

    pub(crate) fn read(&mut self, buf: &mut [u8]) -> io::Result<usize>
        ensures bound { ReadsAtMost result buf.new }
    {
        match self {
            Connection::Listening(_) => Err(Error::from(ErrorKind::WouldBlock)),
            Connection::Connected(stream) => stream.read(buf),
        }
    }

    pub(crate) fn write(&mut self, bytes: &[u8]) -> io::Result<usize>
        ensures bound { WritesAtMost result bytes.now }
    {
        match self {
            Connection::Listening(_) => Err(Error::from(ErrorKind::WouldBlock)),
            Connection::Connected(stream) => stream.write(bytes),
        }
    }

    pub(crate) fn end_writing(&self) {
        if let Connection::Connected(stream) = self {
            let _ = stream.shutdown(Shutdown::Write);
        }
    }
}
