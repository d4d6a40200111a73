// Why a relay stops.

use relay_core::NoMemory;

/// Why a relay stops by itself.
#[derive(Clone, Copy)]
pub enum Stop {
    /// There was no memory.
    NoMemory,
    /// Links were given all numbers of 64 bits.
    NumbersSpent,
}

impl From<NoMemory> for Stop {
    ghost use Rattle.std.specs.Prelude.{◌≡◌};
    ghost use Rattle.relay_run.specs.declared.stops.Stop.TheVariants.{NoMemory as Starved};

    ghost from_gives = { λ _ stop. stop ≡ Starved };

    fn from(_refused: NoMemory) -> Stop {
        Stop::NoMemory
    }
}
