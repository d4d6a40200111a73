// What a router goes by.
ghost use Rattle.std.specs.Prelude.{◌≡◌};

use dialect::Dialect;
use link_table::Ways;
use mav_sign::Key;
use std::marker::Model;

/// What a router goes by: the key of its links, the messages that it knows, how many ports it has, and which of them
/// are open to frames without a signature block and to frames of MAVLink 1.
#[derive(Drop)]
pub struct RouterRules<'a> {
    pub key: Key,
    pub known: &'a Dialect,
    pub ports: u8,
    pub plain: Ways,
}

impl<'a> Model for RouterRules<'a> {
    ghost use Rattle.mav_router.specs.Journal.{Rules};

    ghost Value = { Rules };

    ghost view = { λ r. record { key = r.key; known = r.known.now; ports = r.ports; plain = r.plain } };
}

impl<'a> RouterRules<'a> {
    /// The key of its links.
    pub fn key(&self) -> &Key
        ensures { result.now ≡ self.now.key }
    {
        &self.key
    }

    /// The ports that are open to frames without a signature block.
    pub fn plain(&self) -> Ways
        ensures { result ≡ self.now.plain }
    {
        self.plain
    }
}
