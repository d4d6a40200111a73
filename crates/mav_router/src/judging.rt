// What of a frame doesn't depend on what came in before it.
ghost use Rattle.std.specs.Prelude.{◌≡◌, ℕ, List};
ghost use Rattle.mav_sign.specs.Signing.{verified};
ghost use Rattle.mav_router.specs.Journal.{target_by};

use crate::RouterRules;
use dialect::Dialect;
use mav_frame::RawFrame;
use mav_names::Name;
use mav_sign::verifies_raw;

/// Whether the signature of a frame verifies, and the node that it is for.
#[derive(Clone, Copy)]
pub struct Judgement {
    pub verifies: bool,
    pub target: Name,
}

// The node that a frame is for.
fn target(known: &Dialect, frame: &RawFrame<'_>) -> Name
    ensures { (key : List ℕ) (ports : ℕ) (plain : _)
        → result ≡ target_by (record { key = key; known = known.now; ports = ports; plain = plain }) frame.now }
{
    let Some(layout) = known.get(frame.id()) else {
        return Name { sys: 0, comp: 0 };
    };
    let payload = frame.payload();
    if frame.is_old() {
        let base = usize::from(layout.base_len()).min(payload.len());
        layout.target(&payload[..base])
    } else {
        layout.target(payload)
    }
}

/// Judges a frame by the rules of a router.
pub fn judge(rules: &RouterRules<'_>, frame: &RawFrame<'_>) -> Judgement
    ensures verifies { result.verifies ≡ verified rules.now.key frame.now frame.now.block }
    ensures target { result.target ≡ target_by rules.now frame.now }
{
    Judgement {
        verifies: verifies_raw(&rules.key, frame),
        target: target(rules.known, frame),
    }
}
