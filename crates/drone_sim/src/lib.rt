//! A drone that is simulated in whole numbers: where it is, whether it is armed, and how it flies a mission or returns
//! to its home, tick by tick. Actions, ticks and a mission go in, and the position, the item that was reached and
//! whether it took a picture come out.
//!
//! What happens is defined by total functions in specs/ (`acts`, `changes`, `sim_tick`), and no call allocates. It has
//! no height, no speed and no heading, and it reads no floating-point number.
#![tactic(auto)]

mod courses;
mod laws;
mod moves;
mod points;
mod sim;
mod targets;

pub use courses::Course;
pub use laws::{
    captures_rise_by_one, disarmed_stays, every_item_in_turn, home_at_last, never_past_its_target,
    stays_in_range,
};
pub use points::Point;
pub use sim::{Sim, SimNews};
