// Names of nodes and of signed streams.

/// A MAVLink node: system id and component id. 0 addresses every system or every component
/// (MAVLink guide, Routing).
#[derive(Clone, Copy)]
pub struct Name {
    pub sys: u8,
    pub comp: u8,
}

/// A stream of signed packets: system id, component id and link id, for which a receiver keeps
/// the last timestamp (MAVLink guide, Message Signing: Timestamp Handling).
#[derive(Clone, Copy)]
pub struct Stream {
    pub sys: u8,
    pub comp: u8,
    pub link: u8,
}
