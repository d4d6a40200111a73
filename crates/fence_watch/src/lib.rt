//! Missions and flights against a fence, in whole numbers.
//!
//! A [`Watch`] keeps a fence and says where it lets a drone be, which way touches its borders, and what is wrong with
//! an item of a mission; [`fly`] flies a mission and reports each tick after which the drone is outside. Whether two
//! segments meet is decided by the signs of cross products in 128 bits, which is proved to be exact: no float is read
//! or computed, and nothing overflows. A call looks at each edge of the fence, of which a valid one has at most 200,
//! at most three times.
#![tactic(auto)]

mod flights;
mod groups;
mod laws;
mod polygons;
mod segments;
mod watches;

pub use drone_sim::Point;
pub use flights::{Breach, fly};
pub use laws::{allowed_exactly, meetings_are_exact, touched_exactly};
use std::alloc::AllocError;
pub use watches::{Watch, goes_to_location};

pub type NoMemory = AllocError;
