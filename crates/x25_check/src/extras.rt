// The CRC_EXTRA byte of each message id.
ghost use Rattle.std.specs.Prelude.{◌≡◌, ◌==◌, ℕ, List, IfOk, position, option_map};
ghost use Rattle.std.specs.List.Sorted.{IsStrictlyIncreasing};
ghost use Rattle.x25_check.specs.Extras.{ids, extra_of, pairs_of, profile_pairs};

use crate::NoMemory;
use std::marker::Model;

// The CRC_EXTRA byte of each message of the profile, as the common message set publishes them.
static PROFILE: [(u32, u8); 19] = [
    (0, 50),
    (4, 237),
    (20, 214),
    (21, 159),
    (22, 220),
    (23, 168),
    (33, 104),
    (42, 28),
    (43, 132),
    (44, 221),
    (45, 232),
    (46, 11),
    (47, 153),
    (51, 196),
    (73, 38),
    (76, 152),
    (77, 143),
    (110, 84),
    (253, 83),
];

/// The CRC_EXTRA byte of each known message id, which contracts see as the list of pairs of an id and its byte
/// (MAVLink guide, Packet Serialization: CRC_EXTRA calculation).
pub struct Extras {
    // Its own pairs. None are those of the profile, which all tables share.
    own: Option<Vec<(u32, u8)>>,
}

// By hand, so that whoever drops a table proves one call.
impl Drop for Extras {
    fn drop(self) {
        let Extras { own: _own } = self;
    }
}

impl Model for Extras {
    ghost Value = { List (ℕ × ℕ) };

    ghost view = { λ x. pairs_of (option_map (λ own. own.items) x.own) };

    ghost invariant = { λ x. IsStrictlyIncreasing (ids (pairs_of (option_map (λ own. own.items) x.own))) };
}

// The index of an id among ascending ids.
fn place_of(pairs: &[(u32, u8)], id: u32) -> Option<usize>
    requires { IsStrictlyIncreasing (ids pairs.now) }
    ensures { result ≡ position (λ pair. pair.0 == id) pairs.now }
{
    pairs.binary_search_by_key(&id, |pair| pair.0).ok()
}

fn extra_in(pairs: &[(u32, u8)], id: u32) -> Option<u8>
    requires { IsStrictlyIncreasing (ids pairs.now) }
    ensures { result ≡ extra_of id pairs.now }
{
    let at = place_of(pairs, id)?;
    Some(pairs[at].1)
}

fn profile_pairs() -> &'static [(u32, u8)]
    ensures { result.now ≡ profile_pairs }
{
    &PROFILE
}

impl Extras {
    pub fn new(pairs: Vec<(u32, u8)>) -> Extras
        requires { IsStrictlyIncreasing (ids pairs.items) }
        ensures { result ≡ pairs.items }
    {
        Extras { own: Some(pairs) }
    }

    /// The table of the profile's messages. It takes no memory.
    pub fn profile() -> Extras
        ensures { result ≡ profile_pairs }
    {
        Extras { own: None }
    }

    /// The CRC_EXTRA of a message id, found by a binary search.
    pub fn get(&self, id: u32) -> Option<u8>
        ensures { result ≡ extra_of id self.now }
    {
        extra_in(self.pairs(), id)
    }

    /// The pairs of an id and its CRC_EXTRA, with ascending ids.
    #[inline]
    pub fn pairs(&self) -> &[(u32, u8)]
        ensures pairs { result.now ≡ self.now }
        ensures ascending { IsStrictlyIncreasing (ids result.now) }
    {
        match &self.own {
            Some(own) => own,
            None => profile_pairs(),
        }
    }

    /// A copy of the same pairs. That of the profile's table takes no memory.
    pub fn copy(&self) -> Result<Extras, NoMemory>
        ensures { IfOk result (λ copied. copied ≡ self.now) }
    {
        match &self.own {
            Some(own) => Ok(Extras {
                own: Some(own.clone()?),
            }),
            None => Ok(Extras::profile()),
        }
    }
}
