// Who is told of what happens at a relay.
ghost use Rattle.relay_core.specs.Flows.{one_told};
ghost use Rattle.relay_core.specs.Said.{Notes, Tells};

use crate::Note;
use mav_frame::RawFrame;
use mav_sign::Admit;

/// Is told of each frame that comes in, once, and of what else happens.
pub trait Watcher {
    ghost use Rattle.std.specs.Prelude.{List};
    ghost use Rattle.relay_core.specs.Said.{Said};

    /// What it may have been told so far, in its order.
    ghost told: { Self → List Said → Type 0 };

    /// A frame came in at the link with that number, or, if it is 0, of somebody who has no link. These are the
    /// verdict, and the numbers of the links that it goes to, in the order of their opening.
    fn tell(&mut self, number: u64, frame: &RawFrame<'_>, answer: Admit, to: &[u64])
        ensures { Tells told self.old self.new (one_told number frame.now answer to.now) };

    /// Something else happened.
    fn note(&mut self, note: Note)
        ensures { Notes told self.old self.new note };
}
