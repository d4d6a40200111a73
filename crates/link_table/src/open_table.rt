// The table of the nodes behind links that open and close.
ghost use Rattle.std.specs.Prelude.{◌≡◌, ◌+◌, ◌*◌, ◌^◌, ◌<◌, ◌++◌, ◌∷◌, [], ℕ, List, length, slice_index, slice_set};
ghost use Rattle.std.specs.Prelude.{IfOk};
ghost use Rattle.std.specs.Int.Bits.{bit_or};
ghost use Rattle.std.specs.List.{remove};
ghost use Rattle.mav_names.specs.declared.names.Name.{Name as Node};
ghost use Rattle.link_table.specs.OpenLinks.{StandsFor, bit_without, has_link, is_among, nodes_at};

use crate::table::{NODES, SYSTEMS, node_index};
use crate::{LinkSet, NoMemory};
use mav_names::Name;
use std::alloc::Global;
use std::marker::Model;

// The bits of all links.
const ALL_LINKS: u32 = 0xFFFF_FFFF;

/// Which nodes are behind which of the links that are open, at most 32: each has the bit of its index among them, from
/// the lowest. Each node has a word, and each system one too, with the bits of its nodes together.
pub struct OpenTable {
    nodes: Vec<u32>,
    systems: Vec<u32>,
}

// By hand, so that whoever drops a table proves one call.
impl Drop for OpenTable {
    fn drop(self) {
        let OpenTable {
            nodes: _nodes,
            systems: _systems,
        } = self;
    }
}

impl Model for OpenTable {
    ghost use Rattle.std.specs.Prelude.{◌≡◌, length};
    ghost use Rattle.link_table.specs.OpenLinks.{Words};

    ghost Value = { Words };

    ghost view = { λ t. record { nodes = t.nodes.items; systems = t.systems.items } };

    ghost invariant = { λ t. (length t.nodes.items ≡ 65536) × (length t.systems.items ≡ 256) };
}

fn mark(words: &mut Vec<u32>, index: usize, link: u8)
    requires within { index < length words.old.items }
    requires few { link < 32 }
    ensures { words.new.items ≡ slice_set words.old.items index
        (bit_or (slice_index words.old.items index) (2 ^ link)) }
{
    words[index] |= 1 << link;
}

// The bits of a word without that of a link: each later link's is moved to the index before it.
fn without(word: u32, link: u8) -> u32
    requires { link < 32 }
    ensures { (k : ℕ) → has_link result k ≡ bit_without word link k }
{
    let low: u32 = (1 << link) - 1;
    ((word >> 1) & !low) | (word & low)
}

// Takes a link out of each word.
fn close_in(words: &mut Vec<u32>, link: u8)
    requires { link < 32 }
    ensures count { length words.new.items ≡ length words.old.items }
    ensures words { (at k : ℕ) → at < length words.new.items
        → has_link (slice_index words.new.items at) k ≡ bit_without (slice_index words.old.items at) link k }
{
    for at in 0..words.len() {
        words[at] = without(words[at], link);
    }
}

impl OpenTable {
    /// No link is open. Allocates all its memory here.
    pub fn new(alloc: Global) -> Result<OpenTable, NoMemory>
        ensures { IfOk result (λ table. StandsFor table []) }
    {
        let nodes = vec![in alloc; 0; NODES]?;
        let systems = vec![in alloc; 0; SYSTEMS]?;
        Ok(OpenTable { nodes, systems })
    }

    /// A link opens, the last one, with no node behind it. Nothing has to be done for that.
    pub fn open(&mut self)
        ensures { (links : List (List Node)) → StandsFor self.old links → StandsFor self.new (links ++ [] ∷ []) }
    {}

    /// That node is behind the link with that index: a frame of it was admitted there.
    pub fn learn(&mut self, link: u8, from: Name)
        requires { link < 32 }
        ensures { (links : List (List Node)) → link < length links → StandsFor self.old links
            → StandsFor self.new (slice_set links link (nodes_at links link ++ from ∷ [])) }
    {
        mark(&mut self.nodes, node_index(from), link);
        mark(&mut self.systems, usize::from(from.sys), link);
    }

    /// The link with that index closes. What was learned there is forgotten, and each later link's index is one less.
    pub fn close(&mut self, link: u8)
        requires { link < 32 }
        ensures { (links : List (List Node)) → link < length links → StandsFor self.old links
            → StandsFor self.new (remove links link) }
    {
        close_in(&mut self.nodes, link);
        close_in(&mut self.systems, link);
    }

    /// The links behind which somebody is whom a message for that target is for.
    pub fn behind(&self, target: Name) -> LinkSet
        ensures { (links : List (List Node)) (k : ℕ) → k < 32 → StandsFor self.now links
            → has_link result.bits k ≡ is_among (nodes_at links k) target }
    {
        LinkSet {
            bits: self.bits_for(target),
        }
    }

    fn bits_for(&self, target: Name) -> u32
        ensures { (links : List (List Node)) (k : ℕ) → k < 32 → StandsFor self.now links
            → has_link result k ≡ is_among (nodes_at links k) target }
    {
        if target.sys == 0 {
            ALL_LINKS
        } else if target.comp == 0 {
            self.systems[usize::from(target.sys)]
        } else {
            self.nodes[node_index(target)]
        }
    }
}
