// A node's end of its links.
ghost use Rattle.std.specs.Prelude.{◌≡◌, ◌≤◌, ◌<◌, ◌^◌, ◌++◌, ℕ, List, [], Option, map, Some, None, length, take};
ghost use Rattle.std.specs.Prelude.{IfOk, IfErr, OnOk, IfSome};
ghost use Rattle.std.specs.Result.{result_err};
ghost use Rattle.mav_profile.specs.Messages.{extras_of};
ghost use Rattle.mav_profile.specs.Profile.{profile_definitions};
ghost use Rattle.field_layout.specs.Payload.{Represents};
ghost use Rattle.mav_messages.specs.Plans.{plan_of as plan_carried};
ghost use Rattle.mav_messages.specs.Messages.{definition_of, values_of, profile_definition};
ghost use Rattle.mav_nodes.specs.Payloads.{plan_in, service_in, service_of as service_carried, ItemFits, ServiceFits};
ghost use Rattle.mav_frame.specs.Packet.{SignatureBlock};
ghost use Rattle.mav_sign.specs.Endpoints.{HasProfile};
ghost use Rattle.mav_sign.specs.History.{answer_to, stream_of};
ghost use Rattle.mav_sign.specs.declared.admission.Admit.TheVariants.{Admitted};
ghost use Rattle.mav_sign.specs.Signing.{verified};
ghost use Rattle.mav_sign.specs.Streams.{reader_of, ReadTo};
ghost use Rattle.mav_frame.specs.declared.events.Event.{Event};
ghost use Rattle.mav_nodes.specs.LowBounds.{bound_for, raised, raised_for, raised_if};
ghost use Rattle.mav_nodes.specs.Stores.{Holds, HoldsNearly, StoredBefore, Serves, HasFailed, HasFailedAt, HoldsFrom};
ghost use Rattle.mav_nodes.specs.Stores.{IsRaised};
ghost use Rattle.mav_nodes.specs.Links.{Link as LinkState, IsEnd, IsLink, new_link, started_link, tries, sends};
ghost use Rattle.mav_nodes.specs.Links.{sends_all};
ghost use Rattle.mav_nodes.specs.News.{NodeEvent, shown};
ghost use Rattle.mav_nodes.specs.Steps.{answers};
ghost use Rattle.mav_nodes.specs.Cores.{said_of_plans, said_of_outcome, says};
ghost use Rattle.mav_nodes.specs.Promises.{Did, LinkDid, LinkKeeps, IsAnswer, IsTried, Fails};
ghost use Rattle.mav_nodes.specs.Streams.{HasRead};

use crate::news::tell_sent;
use crate::steps::{Core, Step, tell_outcome, tell_plans};
use crate::stores::save_bound;
use crate::{News, NoMemory, NodeFault};
use mav_frame::{Frame, RawFrame};
use mav_messages::Message;
use mav_names::{Name, Stream};
use mav_sign::{Admit, Datagram, Endpoint, Key, SignedFrame};
use plan_items::PlanMsg;
use plan_store::Keeper;
use std::alloc::Global;
use std::marker::Model;
use x25_check::Extras;

// A stored low bound is so far above the timestamp for which it was raised, in units of 10 microseconds.
const HEADROOM: u64 = 5_000;

// The greatest timestamp of 6 bytes.
const GREATEST_STAMP: u64 = 0xFFFF_FFFF_FFFF;

/// An endpoint, which knows the messages of the profile, and the low bound of timestamps that the node's store has, if
/// it has one. Contracts see both.
#[derive(Drop)]
pub(crate) struct Link {
    alloc: Global,
    endpoint: Endpoint,
    low: Option<u64>,
}

/// The result of a frame.
#[derive(Clone, Copy)]
pub(crate) enum Tried {
    /// An admitted plan message of a stream.
    Plan(Stream, PlanMsg),
    /// An admitted message of a stream for the node's services.
    Service(Stream, Message),
    /// It was admitted, and has no message that is for a node.
    Other,
    /// It wasn't admitted.
    Dropped(Admit),
}

impl Model for Link {
    ghost use Rattle.std.specs.Prelude.{◌≡◌, ◌<◌, ◌^◌, IfSome};
    ghost use Rattle.mav_nodes.specs.Links.{LinkView};

    ghost Value = { LinkView };

    ghost view = { λ l. record { endpoint = l.endpoint; low = l.low } };

    ghost invariant = { λ l. IfSome l.low (λ low. low < 2 ^ 48) };
}

// The CRC_EXTRA bytes of the profile.
fn profile_extras() -> Extras
    ensures same { result ≡ extras_of profile_definitions }
    ensures profile { HasProfile result }
{
    mav_profile::profile_extras()
}

// The plan message of a message that a payload represents.
fn plan_of(id: u32, payload: &[u8], message: &Message) -> Option<PlanMsg>
    ensures { profile_definition id ≡ Some (definition_of message.now)
        → Represents (definition_of message.now) payload.now (values_of message.now)
        → result ≡ plan_in id payload.now }
{
    signed_fit(message);
    message.to_plan()
}

// A message has signed numbers of 32 bits.
fn signed_fit(message: &Message)
    ensures { ItemFits (plan_carried message.now) }
{
    if let Message::MissionItemInt(item) = message {
        let _x = item.x;
        let _y = item.y;
    }
}

// The message for services that a payload represents, if it is one.
fn service_of(_id: u32, _payload: &[u8], message: &Message) -> Option<Message>
    ensures { profile_definition _id ≡ Some (definition_of message.now)
        → Represents (definition_of message.now) _payload.now (values_of message.now)
        → result ≡ service_in _id _payload.now }
{
    service_numbers_fit(message);
    as_service(message)
}

fn as_service(message: &Message) -> Option<Message>
    ensures { result ≡ service_carried message.now }
{
    match message {
        Message::ParamRequestRead(_)
        | Message::ParamRequestList(_)
        | Message::ParamValue(_)
        | Message::ParamSet(_)
        | Message::CommandLong(_)
        | Message::CommandAck(_)
        | Message::FileTransferProtocol(_) => Some(*message),
        _ => None,
    }
}

// Its signed numbers are those of their words.
fn service_numbers_fit(message: &Message)
    ensures { ServiceFits message.now }
{
    match message {
        Message::ParamRequestRead(request) => {
            let _index = request.param_index;
        }
        Message::CommandAck(ack) => {
            let _result = ack.result_param2;
        }
        _ => {}
    }
}

// The greatest timestamp that an admitted frame brings, if it is admitted.
fn admitted_stamp(answer: Admit, frame: &RawFrame<'_>) -> Option<u64>
    ensures small { IfSome result (λ stamp. stamp < 2 ^ 48) }
    ensures raises { (low : Option ℕ) → raised_if low answer frame.now.block ≡ raised_for low result }
{
    match (answer, frame.block()) {
        (Admit::Admitted, Some(block)) => Some(block.stamp),
        _ => None,
    }
}

// The low bound that is stored for a timestamp.
fn bound_for(stamp: u64) -> u64
    requires { stamp < 2 ^ 48 }
    ensures bound { result ≡ bound_for stamp }
    ensures small { result < 2 ^ 48 }
{
    (stamp + HEADROOM).min(GREATEST_STAMP)
}

impl Link {
    /// A link that has received and sent nothing, and knows the messages of the profile.
    pub(crate) fn new(alloc: Global, key: Key, me: Stream) -> Result<Link, NoMemory>
        ensures new { IfOk result (λ link. IsLink (new_link key me (extras_of profile_definitions)) link) }
        ensures stream { IfOk result (λ link. HasRead [] [] link) }
    {
        let endpoint = Endpoint::new(alloc, key, me, profile_extras())?;
        Ok(Link {
            alloc,
            endpoint,
            low: None,
        })
    }

    /// A link that starts again with the low bound that was stored.
    pub(crate) fn start(alloc: Global, key: Key, me: Stream, low: u64) -> Result<Link, NoMemory>
        requires { low < 2 ^ 48 }
        ensures started { IfOk result (λ link. IsLink
            (started_link key me (extras_of profile_definitions) (Some low)) link) }
        ensures stream { IfOk result (λ link. HasRead [] [] link) }
    {
        let endpoint = Endpoint::start(alloc, key, me, profile_extras(), low)?;
        Ok(Link {
            alloc,
            endpoint,
            low: Some(low),
        })
    }

    /// Drops it where nothing else is owned.
    pub(crate) fn discard(self) {}

    pub(crate) fn extras(&self) -> &Extras
        ensures { result.now ≡ self.now.endpoint.extras }
    {
        self.endpoint.extras()
    }

    pub(crate) fn alloc(&self) -> Global {
        self.alloc
    }

    /// The low bound that the store has, if it has one.
    pub(crate) fn low(&self) -> Option<u64>
        ensures low { result ≡ self.now.low }
        ensures small { IfSome result (λ low. low < 2 ^ 48) }
    {
        self.low
    }

    /// Takes bytes of a stream, and returns how many it took and the next frame of the stream, which isn't tried.
    /// Without a frame it took the whole piece.
    pub(crate) fn read(&mut self, piece: &[u8]) -> (usize, Option<Frame>)
        ensures count { result.0 ≤ length piece.now }
        ensures read { (taken : List ℕ) (given : List Event) → HasRead taken given self.old
            → ReadTo self.old.endpoint.extras (taken ++ take result.0 piece.now) given result.1
            (reader_of self.new.endpoint) }
        ensures none { result.1 ≡ None → result.0 ≡ length piece.now }
        ensures link { (link : LinkState) → IsLink link self.old → IsLink link self.new }
        ensures low { self.new.low ≡ self.old.low }
    {
        self.endpoint.read(piece)
    }

    /// Whether a frame verifies.
    pub(crate) fn verifies(&self, frame: &RawFrame<'_>) -> bool
        ensures { result ≡ verified self.now.endpoint.key frame.now frame.now.block }
    {
        self.endpoint.verifies(frame)
    }

    /// Whether a frame of a datagram verifies. What is known to verify takes no digest.
    pub(crate) fn verifies_in(&self, datagram: &Datagram<'_>, frame: &RawFrame<'_>) -> bool
        ensures { result ≡ verified self.now.endpoint.key frame.now frame.now.block }
    {
        self.endpoint.verifies_in(datagram, frame)
    }

    // Before a timestamp is admitted or sent, the store has a bound that isn't below it.
    fn raise<K: Keeper, C: Core>(
        &mut self,
        stamp: u64,
        core: &C,
        keeper: &mut K,
    ) -> Result<(), NodeFault>
        requires { stamp < 2 ^ 48 }
        ensures low { OnOk result (self.new ≡ record self.old { low = raised self.old.low stamp }) }
        ensures stored { OnOk result (Holds (K.contents keeper.old) (C.stored core.now) self.old.low
            → Holds (K.contents keeper.new) (C.stored core.now) self.new.low) }
        ensures settled { OnOk result (1 ≤ stamp → HoldsNearly (K.contents keeper.old) (C.stored core.now) self.old.low
            → Holds (K.contents keeper.new) (C.stored core.now) self.new.low) }
        ensures endpoint { self.new.endpoint ≡ self.old.endpoint }
        ensures raised { IsRaised self.old.low self.new.low }
        ensures given { IfErr result (λ fault. HoldsNearly (K.contents keeper.old) (C.stored core.now) self.old.low
            → HoldsFrom (K.contents keeper.new) (C.stored core.now) self.new.low) }
        ensures serves { Serves K.faults K.is_infallible keeper.old keeper.new }
        ensures fault { IfErr result (λ fault. HasFailedAt fault K.faults K.is_infallible keeper.old keeper.new) }
    {
        if stamp <= self.low.unwrap_or(0) {
            return Ok(());
        }
        let bound = bound_for(stamp);
        save_bound(core, keeper, self.alloc, bound)?;
        self.low = Some(bound);
        Ok(())
    }

    // Stores a bound for the frame's timestamp, if the frame will be admitted by this verdict.
    fn raise_for<K: Keeper, C: Core>(
        &mut self,
        answer: Admit,
        frame: &RawFrame<'_>,
        core: &C,
        keeper: &mut K,
    ) -> Result<(), NodeFault>
        ensures low { OnOk result (self.new ≡ record self.old {
          low = raised_if self.old.low answer
              frame.now.block;
        }) }
        ensures stored { OnOk result (Holds (K.contents keeper.old) (C.stored core.now) self.old.low
            → Holds (K.contents keeper.new) (C.stored core.now) self.new.low) }
        ensures endpoint { self.new.endpoint ≡ self.old.endpoint }
        ensures raised { IsRaised self.old.low self.new.low }
        ensures given { IfErr result (λ fault. HoldsNearly (K.contents keeper.old) (C.stored core.now) self.old.low
            → HoldsFrom (K.contents keeper.new) (C.stored core.now) self.new.low) }
        ensures serves { Serves K.faults K.is_infallible keeper.old keeper.new }
        ensures fault { IfErr result (λ fault. HasFailedAt fault K.faults K.is_infallible keeper.old keeper.new) }
    {
        match admitted_stamp(answer, frame) {
            Some(stamp) => self.raise(stamp, core, keeper),
            None => Ok(()),
        }
    }

    // Tries one frame, of which it is known whether it verifies.
    fn admit<K: Keeper, C: Core>(
        &mut self,
        frame: &RawFrame<'_>,
        verifies: bool,
        core: &C,
        keeper: &mut K,
    ) -> Result<Admit, NodeFault>
        requires { verifies ≡ verified self.old.endpoint.key frame.now frame.now.block }
        ensures answer { IfOk result (λ answer. (link : LinkState) → IsLink link self.old
            → answer ≡ answer_to link.key link.history frame.now) }
        ensures link { OnOk result ((link : LinkState) → IsLink link self.old
            → IsLink (tries frame.now link) self.new) }
        ensures keeps { LinkKeeps (result_err result) (Holds (K.contents keeper.old) (C.stored core.now) self.old.low)
            (Holds (K.contents keeper.new) (C.stored core.now) self.new.low)
            (HoldsFrom (K.contents keeper.new) (C.stored core.now) self.new.low) self.old self.new K.faults
            K.is_infallible keeper.old keeper.new }
        ensures fault { IfErr result (λ fault. HasFailedAt fault K.faults K.is_infallible keeper.old keeper.new) }
    {
        let answer = self.endpoint.test_judged(frame, verifies);
        self.raise_for(answer, frame, core, keeper)?;
        self.endpoint.keep_verdict(frame, answer);
        Ok(answer)
    }

    /// Tries one frame, of which it is known whether it verifies, and returns the message that it carries for the
    /// node. The store has a bound for its timestamp before it is admitted.
    #[inline]
    pub(crate) fn hear<K: Keeper, C: Core>(
        &mut self,
        frame: &RawFrame<'_>,
        verifies: bool,
        core: &C,
        keeper: &mut K,
    ) -> Result<Tried, NodeFault>
        requires { verifies ≡ verified self.old.endpoint.key frame.now frame.now.block }
        ensures tried { IfOk result (λ tried. (link : LinkState) → IsLink link self.old
            → IsTried link frame.now tried) }
        ensures link { OnOk result ((link : LinkState) → IsLink link self.old
            → IsLink (tries frame.now link) self.new) }
        ensures keeps { LinkKeeps (result_err result) (Holds (K.contents keeper.old) (C.stored core.now) self.old.low)
            (Holds (K.contents keeper.new) (C.stored core.now) self.new.low)
            (HoldsFrom (K.contents keeper.new) (C.stored core.now) self.new.low) self.old self.new K.faults
            K.is_infallible keeper.old keeper.new }
        ensures fault { IfErr result (λ fault. HasFailedAt fault K.faults K.is_infallible keeper.old keeper.new) }
    {
        let answer = self.admit(frame, verifies, core, keeper)?;
        Ok(result_of(frame, answer))
    }

    /// Sends a message, and reports it. The store has a bound for its timestamp before.
    pub(crate) fn send<K: Keeper, C: Core>(
        &mut self,
        message: &Message,
        clock: u64,
        core: &C,
        keeper: &mut K,
        news: &mut Vec<News>,
    ) -> Result<(), NodeFault>
        ensures sent { OnOk result ((link : LinkState) → IsLink link self.old
            → LinkDid (sends clock message.now link) self.new news.old.items news.new.items) }
        ensures keeps { LinkKeeps (result_err result)
            (HoldsNearly (K.contents keeper.old) (C.stored core.now) self.old.low)
            (Holds (K.contents keeper.new) (C.stored core.now) self.new.low)
            (HoldsFrom (K.contents keeper.new) (C.stored core.now) self.new.low) self.old self.new K.faults
            K.is_infallible keeper.old keeper.new }
        ensures fault { IfErr result (λ fault. Fails fault (λ (link : LinkState). IsLink link self.old)
            (λ (link : LinkState). sends clock message.now link)
            (HasFailed K.faults K.is_infallible keeper.old keeper.new)) }
    {
        let stamp = self.endpoint.ahead(clock)?;
        self.raise(stamp, core, keeper)?;
        self.transmit(message, clock, news)
    }

    // Sends a message, and reports it.
    #[inline]
    fn transmit(
        &mut self,
        message: &Message,
        clock: u64,
        news: &mut Vec<News>,
    ) -> Result<(), NodeFault>
        ensures sent { OnOk result ((link : LinkState) → IsEnd link self.old.endpoint
            → Did (sends clock message.now link) (λ end. IsEnd end self.new.endpoint) news.old.items news.new.items) }
        ensures low { self.new.low ≡ self.old.low }
        ensures reader { reader_of self.new.endpoint ≡ reader_of self.old.endpoint }
        ensures fault { IfErr result (λ fault. Fails fault (λ (link : LinkState). IsEnd link self.old.endpoint)
            (λ (link : LinkState). sends clock message.now link) ⊥) }
    {
        let mut frame = SignedFrame::new();
        self.endpoint.send_bytes(message, clock, &mut frame)?;
        tell_sent(news, frame, message)
    }

    /// Sends a reply, if there is one.
    pub(crate) fn answer<K: Keeper, C: Core>(
        &mut self,
        answer: Option<PlanMsg>,
        clock: u64,
        core: &C,
        keeper: &mut K,
        news: &mut Vec<News>,
    ) -> Result<(), NodeFault>
        ensures sent { OnOk result ((link : LinkState) → IsLink link self.old
            → LinkDid (answers clock answer link) self.new news.old.items news.new.items) }
        ensures keeps { LinkKeeps (result_err result)
            (StoredBefore answer (K.contents keeper.old) (C.stored core.now) self.old.low)
            (Holds (K.contents keeper.new) (C.stored core.now) self.new.low)
            (HoldsFrom (K.contents keeper.new) (C.stored core.now) self.new.low) self.old self.new K.faults
            K.is_infallible keeper.old keeper.new }
        ensures fault { IfErr result (λ fault. Fails fault (λ (link : LinkState). IsLink link self.old)
            (λ (link : LinkState). answers clock answer link)
            (HasFailed K.faults K.is_infallible keeper.old keeper.new)) }
    {
        match answer {
            Some(message) => {
                let message = Message::of_plan(&message);
                self.send(&message, clock, core, keeper, news)
            }
            None => Ok(()),
        }
    }

    /// Sends messages, one after another.
    pub(crate) fn send_all<K: Keeper, C: Core>(
        &mut self,
        messages: &[Message],
        clock: u64,
        core: &C,
        keeper: &mut K,
        news: &mut Vec<News>,
    ) -> Result<(), NodeFault>
        ensures sent { OnOk result ((link : LinkState) → IsLink link self.old
            → LinkDid (sends_all clock messages.now link) self.new news.old.items news.new.items) }
        ensures keeps { LinkKeeps (result_err result) (Holds (K.contents keeper.old) (C.stored core.now) self.old.low)
            (Holds (K.contents keeper.new) (C.stored core.now) self.new.low)
            (HoldsFrom (K.contents keeper.new) (C.stored core.now) self.new.low) self.old self.new K.faults
            K.is_infallible keeper.old keeper.new }
        ensures fault { IfErr result (λ fault. Fails fault (λ (link : LinkState). IsLink link self.old)
            (λ (link : LinkState). sends_all clock messages.now link)
            (HasFailed K.faults K.is_infallible keeper.old keeper.new)) }
    {
        let mut index = 0;
        while index < messages.len() {
            self.send(&messages[index], clock, core, keeper, news)?;
            index += 1;
        }
        Ok(())
    }

    /// Does what a core's step asks for: reports its first news, sends its reply, and reports its outcome.
    pub(crate) fn say<K: Keeper, C: Core>(
        &mut self,
        step: Step,
        clock: u64,
        core: &C,
        keeper: &mut K,
        news: &mut Vec<News>,
    ) -> Result<(), NodeFault>
        ensures said { OnOk result ((link : LinkState) (first last : List NodeEvent) → IsLink link self.old
            → said_of_plans step.plans ≡ map shown first → said_of_outcome step.outcome ≡ map shown last
            → LinkDid (says clock first step.answer last link) self.new news.old.items news.new.items) }
        ensures keeps { LinkKeeps (result_err result)
            (StoredBefore step.answer (K.contents keeper.old) (C.stored core.now) self.old.low)
            (Holds (K.contents keeper.new) (C.stored core.now) self.new.low)
            (HoldsFrom (K.contents keeper.new) (C.stored core.now) self.new.low) self.old self.new K.faults
            K.is_infallible keeper.old keeper.new }
        ensures fault { IfErr result (λ fault. (first last : List NodeEvent)
            → Fails fault (λ (link : LinkState). IsLink link self.old)
            (λ (link : LinkState). says clock first step.answer last link)
            (HasFailed K.faults K.is_infallible keeper.old keeper.new)) }
    {
        tell_plans(news, step.plans)?;
        self.answer(step.answer, clock, core, keeper, news)?;
        tell_outcome(news, step.outcome)
    }
}

// The message that an admitted frame of a stream carries for the node.
fn carried(from: Stream, frame: &RawFrame<'_>) -> Tried
    ensures { (block : SignatureBlock) → from ≡ stream_of frame.now block
        → IsAnswer Admitted frame.now (Some block) result }
{
    let id = frame.id();
    let payload = frame.payload();
    let Some(message) = Message::read(id, payload) else {
        return Tried::Other;
    };
    match plan_of(id, payload, &message) {
        Some(plan) => Tried::Plan(from, plan),
        None => match service_of(id, payload, &message) {
            Some(service) => Tried::Service(from, service),
            None => Tried::Other,
        },
    }
}

// The result of a frame, by the verdict on it.
fn result_of(frame: &RawFrame<'_>, answer: Admit) -> Tried
    ensures { (link : LinkState) → answer ≡ answer_to link.key link.history frame.now → IsTried link frame.now result }
{
    match (answer, frame.block()) {
        (Admit::Admitted, Some(block)) => {
            let Name { sys, comp } = frame.from();
            let from = Stream {
                sys,
                comp,
                link: block.link,
            };
            carried(from, frame)
        }
        _ => Tried::Dropped(answer),
    }
}
