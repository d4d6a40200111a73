// What a download hands out.
ghost use Rattle.std.specs.Prelude.{List, ◌∷◌};
ghost use Rattle.mav_names.specs.declared.names.Stream.{Stream};
ghost use Rattle.plan_items.specs.declared.items.Item.{Item};
ghost use Rattle.plan_upload.specs.Station.{Told_got};
ghost use Rattle.plan_safety.specs.Frames.{Frame};
ghost use Rattle.plan_safety.specs.Store.{Ended};
ghost use Rattle.plan_safety.specs.History.{Step, step, IsHistory, GotHeld};

/// The plan of an outcome Got is one that the drone held, of that kind, at a moment since the download
/// began.
pub fn every_download()
    ensures { (h : List Step) → (sent : List Frame) → (s : Stream) → (plan : List Item)
        → IsHistory (step sent (Ended s (Told_got plan)) ∷ h) → GotHeld h s plan }
{}
