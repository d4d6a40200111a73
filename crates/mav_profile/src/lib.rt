//! The messages of the profile (MAVLink common message set): their definitions, which contracts refer to, and the
//! table of their CRC_EXTRA bytes.
#![tactic(auto)]

ghost use Rattle.std.specs.Prelude.{◌≡◌};
ghost use Rattle.mav_profile.specs.Messages.{extras_of};
ghost use Rattle.mav_profile.specs.Profile.{profile_definitions};

use x25_check::Extras;

/// The table of the profile's CRC_EXTRA bytes. It takes no memory.
pub fn profile_extras() -> Extras
    ensures { result ≡ extras_of profile_definitions }
{
    Extras::profile()
}
