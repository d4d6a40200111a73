//! Laws of what nodes send: functions without a body, whose contract is the law.
ghost use Rattle.mav_nodes.specs.Laws.{ParsesAlone, SignedVerifies, PlanReadsBack, ServiceReadsBack};
ghost use Rattle.mav_nodes.specs.Laws.{EverySendingReadsBack, EveryFrameReadsAlone, SameBytesSameFrame, HeartbeatsFit};
ghost use Rattle.mav_nodes.specs.Laws.{FlightsFit};

/// The bytes of a frame parse to exactly that frame.
pub fn parses_alone()
    ensures { ParsesAlone }
{}

/// A frame that carries a message verifies under its key.
pub fn signed_verifies()
    ensures { SignedVerifies }
{}

/// The payload of a message carries its plan message.
pub fn plan_reads_back()
    ensures { PlanReadsBack }
{}

/// And its message of another service.
pub fn service_reads_back()
    ensures { ServiceReadsBack }
{}

/// What a node sends reads back as it was sent.
pub fn every_sending_reads_back()
    ensures { EverySendingReadsBack }
{}

/// The bytes of each frame that a parse finds parse to exactly that frame.
pub fn every_frame_reads_alone()
    ensures { EveryFrameReadsAlone }
{}

/// Frames with the same bytes are the same frame.
pub fn same_bytes_same_frame()
    ensures { SameBytesSameFrame }
{}

/// The HEARTBEAT of a node can be sent, and is no plan message.
pub fn heartbeats_fit()
    ensures { HeartbeatsFit }
{}

/// What a drone says at a tick of its simulator can be sent, and is no message that a node takes.
pub fn flights_fit()
    ensures { FlightsFit }
{}
