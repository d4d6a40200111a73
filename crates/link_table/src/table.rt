// The table of learned nodes.
ghost use Rattle.std.specs.Prelude.{◌≡◌, ◌==◌, ◌+◌, ◌-◌, ◌*◌, ◌^◌, ◌<◌, ◌≤◌, ◌++◌, ◌∷◌, [], ℕ, List, not, nat_le};
ghost use Rattle.std.specs.Prelude.{length, slice_index, slice_set, IfOk};
ghost use Rattle.std.specs.Int.Bits.{bit_or};
ghost use Rattle.link_table.specs.Bits.{has_bit as mask_has};
ghost use Rattle.link_table.specs.Routing.{Learned, is_behind, ways_of};
ghost use Rattle.link_table.specs.Table.{Represents};

use crate::ways::bit_of;
use crate::{NoMemory, Ways};
use mav_names::Name;
use std::alloc::Global;
use std::marker::Model;

pub(crate) const SYSTEMS: usize = 256;

// Each system has 256 components.
pub(crate) const NODES: usize = 65_536;

// The mask of all ports.
const ALL_PORTS: u8 = 255;

/// Which nodes are behind which port. Each node has a byte with a bit for each port, so that a port has one table of
/// 65,536 bits; each system has a byte too, with the bits of its nodes together.
pub struct LinkTable {
    ports: u8,
    nodes: Vec<u8>,
    systems: Vec<u8>,
}

// By hand, so that whoever drops a table proves one call.
impl Drop for LinkTable {
    fn drop(self) {
        let LinkTable {
            ports: _,
            nodes: _nodes,
            systems: _systems,
        } = self;
    }
}

impl Model for LinkTable {
    ghost use Rattle.std.specs.Prelude.{◌≡◌, ◌≤◌, length};
    ghost use Rattle.link_table.specs.Table.{Masks};

    ghost Value = { Masks };

    ghost view = { λ t. record { ports = t.ports; nodes = t.nodes.items; systems = t.systems.items } };

    ghost invariant = { λ t. ((1 ≤ t.ports) × (t.ports ≤ 8)) × (length t.nodes.items ≡ 65536)
        × (length t.systems.items ≡ 256) };
}

fn mark(masks: &mut Vec<u8>, index: usize, port: u8)
    requires within { index < length masks.old.items }
    requires from { 1 ≤ port }
    requires to { port ≤ 8 }
    ensures { masks.new.items ≡ slice_set masks.old.items index
        (bit_or (slice_index masks.old.items index) (2 ^ (port - 1))) }
{
    masks[index] |= bit_of(port);
}

pub(crate) fn node_index(node: Name) -> usize
    ensures index { result ≡ node.sys * 256 + node.comp }
    ensures within { result < 65536 }
{
    usize::from(node.sys) * 256 + usize::from(node.comp)
}

// The mask of the ports from 1 up to a number.
fn first_ports(ports: u8) -> u8
    requires from { 1 ≤ ports }
    requires to { ports ≤ 8 }
    ensures { (port : ℕ) → 1 ≤ port → port ≤ 8 → mask_has result port ≡ nat_le port ports }
{
    ALL_PORTS >> (8 - ports)
}

// The mask of all ports but one, or of all if the number isn't that of a port.
fn other_ports(own: u8) -> u8
    ensures { (port : ℕ) → 1 ≤ port → port ≤ 8 → mask_has result port ≡ not (port == own) }
{
    if own == 0 || own > 8 {
        return ALL_PORTS;
    }
    ALL_PORTS - bit_of(own)
}

impl LinkTable {
    /// Nothing is learned yet. Allocates all its memory here.
    pub fn new(alloc: Global, ports: u8) -> Result<LinkTable, NoMemory>
        requires from { 1 ≤ ports }
        requires to { ports ≤ 8 }
        ensures ports { IfOk result (λ table. table.ports ≡ ports) }
        ensures learned { IfOk result (λ table. Represents table []) }
    {
        let nodes = vec![in alloc; 0; NODES]?;
        let systems = vec![in alloc; 0; SYSTEMS]?;
        Ok(LinkTable {
            ports,
            nodes,
            systems,
        })
    }

    /// That node is behind the port: a frame of it was admitted there.
    pub fn learn(&mut self, port: u8, from: Name)
        requires from { 1 ≤ port }
        requires to { port ≤ self.old.ports }
        ensures ports { self.new.ports ≡ self.old.ports }
        ensures learned { (learned : List Learned) → Represents self.old learned
            → Represents self.new (learned ++ (record { port = port; from = from }) ∷ []) }
    {
        mark(&mut self.nodes, node_index(from), port);
        mark(&mut self.systems, usize::from(from.sys), port);
    }

    // The ports behind which somebody is whom a message for that target is for.
    fn ports_of(&self, target: Name) -> u8
        ensures { (learned : List Learned) (port : ℕ) → 1 ≤ port → port ≤ 8 → Represents self.now learned
            → mask_has result port ≡ is_behind learned port target }
    {
        if target.sys == 0 {
            ALL_PORTS
        } else if target.comp == 0 {
            self.systems[usize::from(target.sys)]
        } else {
            self.nodes[node_index(target)]
        }
    }

    /// The ports at which a message for that target goes out; it came in at the port `own`, and never goes out there.
    pub fn ways(&self, own: u8, target: Name) -> Ways
        ensures { (learned : List Learned) → Represents self.now learned
            → result ≡ ways_of self.now.ports learned own target }
    {
        let all_but_own = other_ports(own) & self.ports_of(target);
        Ways::of(first_ports(self.ports) & all_but_own)
    }
}
