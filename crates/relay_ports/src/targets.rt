// What a port of a relay names.

/// What a socket does.
#[derive(Clone, Copy)]
pub enum SocketKind {
    /// Connects by TCP.
    Tcp,
    /// Takes one TCP connection.
    Listen,
    /// Takes TCP connections, eight at once.
    TcpServer,
    /// Exchanges datagrams with one peer.
    Udp,
    /// Replies to its latest sender.
    UdpListen,
    /// Exchanges datagrams with eight peers at once.
    UdpServer,
}

/// A socket, at a host and the number of a port there. An IPv6 address may stand in brackets.
#[derive(Drop)]
pub struct Socket {
    pub kind: SocketKind,
    pub host: String,
    pub number: u16,
}

/// The names of a file that is read and of one that is written.
#[derive(Drop)]
pub struct Files {
    pub input: String,
    pub output: String,
}

/// Where the packets of a port come from and go.
#[derive(Drop)]
pub enum Target {
    Socket(Socket),
    /// The path of a character device.
    Device(String),
    Files(Files),
}
