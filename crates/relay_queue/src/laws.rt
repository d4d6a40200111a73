//! Laws of a queue: functions without a body, whose contract is the law.
ghost use Rattle.relay_queue.specs.Deliveries.{DeliversBytes, DeliversClosed, DeliversNew, DeliversPushed};
ghost use Rattle.relay_queue.specs.Deliveries.{DeliversWrote};

/// What was pushed to a queue is delivered in order, but for what was dropped.
pub fn deliveries()
    ensures new { DeliversNew }
    ensures pushed { DeliversPushed }
    ensures wrote { DeliversWrote }
    ensures closed { DeliversClosed }
    ensures bytes { DeliversBytes }
{}
