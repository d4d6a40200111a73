//! A law of admission: a function without a body, whose contract is the law.
ghost use Rattle.mav_sign.specs.Forgetting.{AdmitsTheSame, LearnsAlike, StaysForgetful};

/// A verifier that forgets the streams whose last timestamp is more than a minute before the greatest one admitted
/// admits the frames that one admits which doesn't, but for the limit of streams.
pub fn forgetting()
    ensures same { AdmitsTheSame }
    ensures stays { StaysForgetful }
    ensures learns { LearnsAlike }
{}
