// What the lines of a stream are written from.
use dialect::Dialect;
use mav_sign::Key;

/// The messages that frames may have, and the key against which signatures are tested, if there is one.
#[derive(Drop)]
pub struct DecodeContext {
    pub dialect: Dialect,
    pub key: Option<Key>,
}
