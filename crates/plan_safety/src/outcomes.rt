// Why operations end with the outcomes that are reported.
ghost use Rattle.std.specs.Prelude.{ℕ, List, ◌∷◌};
ghost use Rattle.mav_names.specs.declared.names.Stream.{Stream};
ghost use Rattle.plan_upload.specs.Station.{Told_not_installed, Told_unknown, Told_cleared, Told_ended};
ghost use Rattle.plan_safety.specs.Frames.{Frame};
ghost use Rattle.plan_safety.specs.Store.{Ended};
ghost use Rattle.plan_safety.specs.History.{Step, step, IsHistory, NotInstalledBy, UnknownBy, ClearedBy, EndedBy};

/// The code of NotInstalled is 15, or one with which the drone refused this upload's Count, or the upload
/// after it has asked for an item. Unknown comes only if since the upload began the drone has started
/// again, the last item was sent, a cancel after it, and the drone answered code 1 after that cancel.
/// Cleared comes only if each kind of the clear was emptied since it began. Ended has a code that the
/// drone sent since the operation began, or 15 after a cancel, or 4 for too long a plan.
pub fn every_outcome()
    ensures not_installed { (h : List Step) → (sent : List Frame) → (s : Stream) → (code : ℕ)
        → IsHistory (step sent (Ended s (Told_not_installed code)) ∷ h) → NotInstalledBy h sent s code }
    ensures unknown { (h : List Step) → (sent : List Frame) → (s : Stream)
        → IsHistory (step sent (Ended s Told_unknown) ∷ h) → UnknownBy h sent s }
    ensures cleared { (h : List Step) → (sent : List Frame) → (s : Stream)
        → IsHistory (step sent (Ended s Told_cleared) ∷ h) → ClearedBy h s }
    ensures ended { (h : List Step) → (sent : List Frame) → (s : Stream) → (code : ℕ)
        → IsHistory (step sent (Ended s (Told_ended code)) ∷ h) → EndedBy h sent s code }
{}
