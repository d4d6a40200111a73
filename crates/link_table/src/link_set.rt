// A set of open links.
ghost use Rattle.std.specs.Prelude.{◌≡◌, ℕ, ◌<◌, ◌==◌, ◌||◌, false};
ghost use Rattle.link_table.specs.OpenLinks.{has_link};

/// A set of open links: a bit for each by its index among those that are open, from the lowest.
#[derive(Clone, Copy)]
pub struct LinkSet {
    pub bits: u32,
}

impl LinkSet {
    /// No link.
    pub fn none() -> LinkSet
        ensures { (k : ℕ) → has_link result.bits k ≡ false }
    {
        LinkSet { bits: 0 }
    }

    /// Whether the link with that index is in the set.
    #[inline]
    pub fn has(self, link: u8) -> bool
        requires { link < 32 }
        ensures { result ≡ has_link self.bits link }
    {
        (self.bits >> link) % 2 == 1
    }

    /// The set with one more link.
    #[inline]
    pub fn with(self, link: u8) -> LinkSet
        requires { link < 32 }
        ensures { (k : ℕ) → has_link result.bits k ≡ ((link == k) || has_link self.bits k) }
    {
        LinkSet {
            bits: self.bits | 1 << link,
        }
    }
}
