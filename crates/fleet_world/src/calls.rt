// What a node is asked to do.
use field_layout::Label;
use mav_sign::Key;

#[derive(Drop)]
pub enum Call {
    /// To take the sent frame of that index, from 0, as one datagram.
    Take(usize),
    /// To take these bytes as one datagram.
    Noise(Label),
    Heartbeat,
    Tick,
    /// To fly for one tick of its simulator. A station does nothing.
    Sim,
    /// To start again, under this key. A station goes on.
    Restart(Key),
}
