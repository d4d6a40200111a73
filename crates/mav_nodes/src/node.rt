// A node over any core: what it does with the core at its end of the links.
ghost use Rattle.std.specs.Prelude.{◌≡◌, ◌⊎◌, ◌++◌, ℕ, Bool, false, List, [], true, length, IfOk, IfErr, OnOk};
ghost use Rattle.std.specs.Result.{result_err};
ghost use Rattle.mav_frame.specs.declared.events.Event.{Event as StreamEvent};
ghost use Rattle.mav_frame.specs.Packet.{Packet};
ghost use Rattle.mav_sign.specs.Signing.{verified};
ghost use Rattle.mav_nodes.specs.Steps.{Side, steps, steps_noted, serves, hears, hears_keeping, receives_keeping};
ghost use Rattle.mav_nodes.specs.Steps.{IsNode};
ghost use Rattle.mav_nodes.specs.Services.{ServiceStep};
ghost use Rattle.mav_nodes.specs.Links.{Link as LinkState, IsLink, sends};
ghost use Rattle.mav_nodes.specs.Stores.{Holds, HoldsFrom, GivenUp, Serves, EndsStep, HasFailed, IsKept, AllKept};
ghost use Rattle.mav_nodes.specs.Cores.{IsServed, rules_of};
ghost use Rattle.mav_nodes.specs.Promises.{NodeDid, NodeDidKeeping, LinkDid, LinkKeeps, Fails, SpentKeeping};
ghost use Rattle.mav_nodes.specs.Promises.{FailsKeeping, AtFrame, GivenUpIn};
ghost use Rattle.mav_nodes.specs.Streams.{HasRead, GrowsBy, NodePart, PartFails};
ghost use Rattle.mav_frame.specs.FinalParse.{final_parse};
ghost use Rattle.mav_sign.specs.Endpoints.{frames_of};

use crate::link::{Link, Tried};
use crate::news::{tell_all, tell_dropped};
use crate::services::{Served, Services};
use crate::steps::Core;
use crate::stores::save_step;
use crate::{News, NodeFault};
use mav_frame::{FrameBytes, RawFrame, front_at};
use mav_messages::Message;
use mav_names::Stream;
use mav_sign::Datagram;
use plan_items::PlanMsg;
use plan_store::Keeper;
use std::alloc::Global;

// The core takes a plan message, the services hear what it did to the plans, and its reply is sent. Returns whether
// the store has what changed.
fn take<K: Keeper, C: Core, V: Services<C>>(
    link: &mut Link,
    core: &mut C,
    services: &mut V,
    keeper: &mut K,
    from: Stream,
    message: &PlanMsg,
    clock: u64,
    news: &mut Vec<News>,
) -> Result<bool, NodeFault>
    ensures done { IfOk result (λ kept. (node : Side C V) → IsNode node link.old core.old services.old
        → NodeDid (steps_noted V.noted clock node.link node.services (C.taken kept node.core from message.now))
        link.new core.new services.new news.old.items news.new.items) }
    ensures unkept { IfOk result (λ kept. IsKept kept (HasFailed K.faults K.is_infallible keeper.old keeper.new)) }
    ensures keeps { LinkKeeps (result_err result) (Holds (K.contents keeper.old) (C.stored core.old) link.old.low)
        (Holds (K.contents keeper.new) (C.stored core.new) link.new.low)
        (GivenUp (K.contents keeper.new) C.stored link.old.low
        (λ after. (after ≡ core.old) ⊎ ((kept : Bool) × (after ≡ (C.taken kept core.old from message.now).core))))
        link.old link.new K.faults K.is_infallible keeper.old keeper.new }
    ensures fault { IfErr result (λ fault. FailsKeeping fault
        (λ (node : Side C V). IsNode node link.old core.old services.old)
        (λ (kept : Bool) (node : Side C V). steps_noted V.noted clock node.link node.services
        (C.taken kept node.core from message.now))
        (λ kept. IsKept kept (HasFailed K.faults K.is_infallible keeper.old keeper.new))
        (HasFailed K.faults K.is_infallible keeper.old keeper.new)) }
    // A store that kept the old plan ends no step by one fault.
    ensures ends { IfErr result (λ fault. Holds (K.contents keeper.old) (C.stored core.old) link.old.low
        → EndsStep fault (K.contents keeper.old) (K.contents keeper.new) C.stored core.old
        (C.taken true core.old from message.now).core link.old.low (K.faults keeper.old) (K.faults keeper.new)) }
{
    let kept = save_step(core, keeper, link.alloc(), link.low(), from, message)?;
    let step = core.take(kept, from, message);
    services.note(&step.plans);
    link.say(step, clock, core, keeper, news)?;
    Ok(kept)
}

/// The services have done a step: what they reply is sent, and what ended with it is reported.
pub(crate) fn say_served<K: Keeper, C: Core, V>(
    link: &mut Link,
    core: &C,
    _services: &V,
    keeper: &mut K,
    served: Served,
    clock: u64,
    news: &mut Vec<News>,
) -> Result<(), NodeFault>
    ensures done { OnOk result ((node : Side C V) → (step : ServiceStep V) → IsLink node.link link.old
        → core.now ≡ node.core → IsServed step _services.now served
        → NodeDid (serves clock node.link node.core step) link.new core.now _services.now news.old.items
        news.new.items) }
    ensures keeps { LinkKeeps (result_err result) (Holds (K.contents keeper.old) (C.stored core.now) link.old.low)
        (Holds (K.contents keeper.new) (C.stored core.now) link.new.low)
        (HoldsFrom (K.contents keeper.new) (C.stored core.now) link.new.low) link.old link.new K.faults K.is_infallible
        keeper.old keeper.new }
    ensures fault { IfErr result (λ fault. (step : ServiceStep V) → IsServed step _services.now served
        → Fails fault (λ (node : Side C V). IsLink node.link link.old)
        (λ (node : Side C V). serves clock node.link node.core step)
        (HasFailed K.faults K.is_infallible keeper.old keeper.new)) }
{
    link.send_all(&served.answers, clock, core, keeper, news)?;
    tell_all(news, served.last)
}

// The services take a message, and what they reply is sent.
fn serve<K: Keeper, C: Core, V: Services<C>>(
    link: &mut Link,
    core: &C,
    services: &mut V,
    keeper: &mut K,
    from: Stream,
    message: &Message,
    clock: u64,
    news: &mut Vec<News>,
) -> Result<(), NodeFault>
    ensures done { OnOk result ((node : Side C V) → IsNode node link.old core.now services.old
        → NodeDid (serves clock node.link node.core (V.served node.core node.services from message.now)) link.new
        core.now services.new news.old.items news.new.items) }
    ensures keeps { LinkKeeps (result_err result) (Holds (K.contents keeper.old) (C.stored core.now) link.old.low)
        (Holds (K.contents keeper.new) (C.stored core.now) link.new.low)
        (HoldsFrom (K.contents keeper.new) (C.stored core.now) link.new.low) link.old link.new K.faults K.is_infallible
        keeper.old keeper.new }
    ensures fault { IfErr result (λ fault. Fails fault
        (λ (node : Side C V). IsNode node link.old core.now services.old)
        (λ (node : Side C V). serves clock node.link node.core (V.served node.core node.services from message.now))
        (HasFailed K.faults K.is_infallible keeper.old keeper.new)) }
{
    let served = services.serve(link.alloc(), core, from, message)?;
    say_served(link, core, services, keeper, served, clock, news)
}

// One frame, of which it is known whether it verifies. Returns whether the store has what changed.
fn hear<K: Keeper, C: Core, V: Services<C>>(
    link: &mut Link,
    core: &mut C,
    services: &mut V,
    keeper: &mut K,
    frame: &RawFrame<'_>,
    verifies: bool,
    clock: u64,
    news: &mut Vec<News>,
) -> Result<bool, NodeFault>
    requires { verifies ≡ verified link.old.endpoint.key frame.now frame.now.block }
    ensures done { IfOk result (λ kept. (node : Side C V) → IsNode node link.old core.old services.old
        → NodeDid (hears (rules_of C.taken V.noted V.served kept) clock frame.now node) link.new core.new services.new
        news.old.items news.new.items) }
    ensures unkept { IfOk result (λ kept. IsKept kept (HasFailed K.faults K.is_infallible keeper.old keeper.new)) }
    ensures keeps { LinkKeeps (result_err result) (Holds (K.contents keeper.old) (C.stored core.old) link.old.low)
        (Holds (K.contents keeper.new) (C.stored core.new) link.new.low)
        ((node : Side C V) → IsNode node link.old core.old services.old
        → GivenUp (K.contents keeper.new) C.stored link.old.low (AtFrame C.taken node.link frame.now core.old))
        link.old link.new K.faults K.is_infallible keeper.old keeper.new }
    ensures fault { IfErr result (λ fault. FailsKeeping fault
        (λ (node : Side C V). IsNode node link.old core.old services.old)
        (λ (kept : Bool) (node : Side C V). hears (rules_of C.taken V.noted V.served kept) clock frame.now node)
        (λ kept. IsKept kept (HasFailed K.faults K.is_infallible keeper.old keeper.new))
        (HasFailed K.faults K.is_infallible keeper.old keeper.new)) }
{
    match link.hear(frame, verifies, core, keeper)? {
        Tried::Plan(from, message) => {
            take(link, core, services, keeper, from, &message, clock, news)
        }
        Tried::Service(from, message) => {
            serve(link, core, services, keeper, from, &message, clock, news)?;
            Ok(true)
        }
        Tried::Other => Ok(true),
        Tried::Dropped(answer) => {
            tell_dropped(news, answer)?;
            Ok(true)
        }
    }
}

/// Takes the bytes of a datagram as a whole input by itself: each of its frames in order, and each reply is sent
/// before the next frame is tried. What `known` says to verify takes no digest.
pub(crate) fn receive<K: Keeper, C: Core, V: Services<C>>(
    alloc: Global,
    link: &mut Link,
    core: &mut C,
    services: &mut V,
    keeper: &mut K,
    known: &Datagram<'_>,
    datagram: &[u8],
    clock: u64,
) -> Result<Vec<News>, NodeFault>
    ensures done { IfOk result (λ news. (node : Side C V) → IsNode node link.old core.old services.old
        → NodeDidKeeping (λ (keeps : List Bool). receives_keeping
        (rules_of C.taken V.noted V.served) clock keeps datagram.now node)
        (AllKept (HasFailed K.faults K.is_infallible keeper.old keeper.new)) link.new core.new services.new
        news.items) }
    ensures keeps { LinkKeeps (result_err result) (Holds (K.contents keeper.old) (C.stored core.old) link.old.low)
        (Holds (K.contents keeper.new) (C.stored core.new) link.new.low)
        ((node : Side C V) → IsNode node link.old core.old services.old
        → GivenUpIn C.taken C.stored (rules_of C.taken V.noted V.served) clock
        (AllKept (HasFailed K.faults K.is_infallible keeper.old keeper.new)) (K.contents keeper.new)
        (frames_of (final_parse node.link.extras false datagram.now)) node) link.old link.new K.faults K.is_infallible
        keeper.old keeper.new }
    ensures fault { IfErr result (λ fault. FailsKeeping fault
        (λ (node : Side C V). IsNode node link.old core.old services.old)
        (λ (keeps : List Bool) (node : Side C V). receives_keeping
        (rules_of C.taken V.noted V.served) clock keeps datagram.now node)
        (AllKept (HasFailed K.faults K.is_infallible keeper.old keeper.new))
        (HasFailed K.faults K.is_infallible keeper.old keeper.new)) }
{
    let mut news = Vec::new(alloc);
    let mut place = 0;
    while place < datagram.len() {
        let (front, size) = front_at(link.extras(), false, &datagram[place..]);
        match front {
            Some(frame) => {
                let verifies = link.verifies_in(known, &frame);
                hear(
                    link, core, services, keeper, &frame, verifies, clock, &mut news,
                )?;
            }
            None => {}
        }
        place += size;
    }
    Ok(news)
}

/// Takes a piece of a stream: each frame by which the parse of the stream grows with it, in order, and each reply is
/// sent before the next frame is tried. Returns how many bytes it took, which is all of them.
pub(crate) fn part<K: Keeper, C: Core, V: Services<C>>(
    alloc: Global,
    link: &mut Link,
    core: &mut C,
    services: &mut V,
    keeper: &mut K,
    piece: &[u8],
    clock: u64,
) -> Result<(usize, Vec<News>), NodeFault>
    ensures count { IfOk result (λ part. part.0 ≡ length piece.now) }
    ensures done { IfOk result (λ part. (node : Side C V) (taken : List ℕ) (given : List StreamEvent)
        → IsNode node link.old core.old services.old → HasRead taken given link.old
        → NodePart (rules_of C.taken V.noted V.served) clock node (taken ++ piece.now) given
        (AllKept (HasFailed K.faults K.is_infallible keeper.old keeper.new)) link.new core.new services.new
        part.1.items) }
    ensures stored { OnOk result (Holds (K.contents keeper.old) (C.stored core.old) link.old.low
        → Holds (K.contents keeper.new) (C.stored core.new) link.new.low) }
    ensures given { IfErr result (λ fault. Holds (K.contents keeper.old) (C.stored core.old) link.old.low
        → (node : Side C V) (taken : List ℕ) (given events : List StreamEvent)
        → IsNode node link.old core.old services.old → HasRead taken given link.old
        → GrowsBy link.old.endpoint.extras (taken ++ piece.now) given events
        → GivenUpIn C.taken C.stored (rules_of C.taken V.noted V.served) clock
        (AllKept (HasFailed K.faults K.is_infallible keeper.old keeper.new)) (K.contents keeper.new)
        (frames_of events) node) }
    ensures serves { Serves K.faults K.is_infallible keeper.old keeper.new }
    ensures fault { IfErr result (λ fault. PartFails fault
        (λ (node : Side C V). IsNode node link.old core.old services.old) link.old piece.now
        (λ (packets : List Packet) (node : Side C V). SpentKeeping
        (AllKept (HasFailed K.faults K.is_infallible keeper.old keeper.new))
        (λ keeps. hears_keeping (rules_of C.taken V.noted V.served) clock keeps packets node))
        (HasFailed K.faults K.is_infallible keeper.old keeper.new)) }
{
    let mut news = Vec::new(alloc);
    let mut place = 0;
    'reading: loop {
        let (size, frame) = link.read(&piece[place..]);
        place += size;
        let Some(frame) = frame else {
            return Ok((place, news));
        };
        let bytes = FrameBytes::of(&frame);
        let raw = bytes.raw();
        let verifies = link.verifies(&raw);
        hear(
            link, core, services, keeper, &raw, verifies, clock, &mut news,
        )?;
    }
}

/// One tick of the core.
pub(crate) fn tick<K: Keeper, C: Core, V>(
    alloc: Global,
    link: &mut Link,
    core: &mut C,
    _services: &V,
    keeper: &mut K,
    clock: u64,
) -> Result<Vec<News>, NodeFault>
    ensures done { IfOk result (λ news. (node : Side C V) → IsNode node link.old core.old _services.now
        → NodeDid (steps clock node.link node.services (C.waited node.core)) link.new core.new _services.now []
        news.items) }
    ensures keeps { LinkKeeps (result_err result) (Holds (K.contents keeper.old) (C.stored core.old) link.old.low)
        (Holds (K.contents keeper.new) (C.stored core.new) link.new.low)
        (HoldsFrom (K.contents keeper.new) (C.stored core.old) link.old.low) link.old link.new K.faults K.is_infallible
        keeper.old keeper.new }
    ensures fault { IfErr result (λ fault. Fails fault
        (λ (node : Side C V). IsNode node link.old core.old _services.now)
        (λ (node : Side C V). steps clock node.link node.services (C.waited node.core))
        (HasFailed K.faults K.is_infallible keeper.old keeper.new)) }
{
    let mut news = Vec::new(alloc);
    let step = core.wait();
    link.say(step, clock, core, keeper, &mut news)?;
    Ok(news)
}

/// Sends a message by itself.
pub(crate) fn send<K: Keeper, C: Core>(
    alloc: Global,
    link: &mut Link,
    core: &C,
    keeper: &mut K,
    message: &Message,
    clock: u64,
) -> Result<Vec<News>, NodeFault>
    ensures sent { IfOk result (λ news. (end : LinkState) → IsLink end link.old
        → LinkDid (sends clock message.now end) link.new [] news.items) }
    ensures keeps { LinkKeeps (result_err result) (Holds (K.contents keeper.old) (C.stored core.now) link.old.low)
        (Holds (K.contents keeper.new) (C.stored core.now) link.new.low)
        (HoldsFrom (K.contents keeper.new) (C.stored core.now) link.new.low) link.old link.new K.faults K.is_infallible
        keeper.old keeper.new }
    ensures fault { IfErr result (λ fault. Fails fault (λ (end : LinkState). IsLink end link.old)
        (λ (end : LinkState). sends clock message.now end)
        (HasFailed K.faults K.is_infallible keeper.old keeper.new)) }
{
    let mut news = Vec::new(alloc);
    link.send(message, clock, core, keeper, &mut news)?;
    Ok(news)
}
