// A set of ports.
ghost use Rattle.std.specs.Prelude.{◌≡◌, ℕ, ◌-◌, ◌≤◌, ◌^◌, true, slice_set};
ghost use Rattle.link_table.specs.Bits.{has_bit as mask_has, flags_of, mask_of};
ghost use Rattle.link_table.specs.Routing.{no_ways, has_port, common_ways};

use std::marker::Model;

/// A set of the ports 1 to 8. Contracts see the list of eight flags.
#[derive(Clone, Copy)]
pub struct Ways {
    mask: u8,
}

impl Model for Ways {
    ghost use Rattle.std.specs.Prelude.{◌≡◌, List, Bool};
    ghost use Rattle.link_table.specs.Bits.{flags_of, mask_of};

    ghost Value = { List Bool };

    ghost view = { λ w. flags_of w.mask };

    ghost invariant = { λ w. mask_of (flags_of w.mask) ≡ w.mask };

    ghost inverse = { λ flags. record { mask = mask_of flags } };
}

/// The bit of a port.
pub(crate) fn bit_of(port: u8) -> u8
    requires from { 1 ≤ port }
    requires to { port ≤ 8 }
    ensures { result ≡ 2 ^ (port - 1) }
{
    1 << (port - 1)
}

impl Ways {
    /// The ports whose bits are set.
    pub(crate) fn of(mask: u8) -> Ways
        ensures { result ≡ flags_of mask }
    {
        Ways { mask }
    }

    /// No port.
    pub fn none() -> Ways
        ensures { result ≡ no_ways }
    {
        Ways::of(0)
    }

    /// A byte with a bit for each port, of which port 1 has the lowest.
    #[inline]
    pub fn mask(self) -> u8
        ensures { (port : ℕ) → 1 ≤ port → port ≤ 8 → mask_has result port ≡ has_port self port }
    {
        self.mask
    }

    /// The set with one more port.
    pub fn with(self, port: u8) -> Ways
        requires from { 1 ≤ port }
        requires to { port ≤ 8 }
        ensures { result ≡ slice_set self (port - 1) true }
    {
        Ways::of(self.mask | bit_of(port))
    }

    /// Whether the port is in the set.
    #[inline]
    pub fn has(self, port: u8) -> bool
        requires from { 1 ≤ port }
        requires to { port ≤ 8 }
        ensures { result ≡ has_port self port }
    {
        (self.mask >> (port - 1)) % 2 == 1
    }

    /// The ports that are in both sets.
    pub fn common(self, other: Ways) -> Ways
        ensures { result ≡ common_ways self other }
    {
        Ways::of(self.mask & other.mask)
    }
}
