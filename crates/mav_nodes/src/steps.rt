// What a node's core does, and how it is reported.
ghost use Rattle.std.specs.Prelude.{◌≡◌, ◌++◌, ◌∷◌, [], OnOk, IfErr};
ghost use Rattle.plan_upload.specs.Outcomes.{told_of};
ghost use Rattle.mav_nodes.specs.News.{Shows_installed, Shows_emptied, Shows_ended, events_of};
ghost use Rattle.mav_nodes.specs.Cores.{said_of_plans, said_of_outcome};

use crate::news::tell;
use crate::{News, NoMemory, NodeFault};
use mav_names::Stream;
use plan_items::{PlanKind, PlanMsg};
use plan_upload::Outcome;
use std::alloc::Global;

/// What was done to a drone's plans.
#[derive(Drop)]
pub(crate) enum PlanNews {
    Same,
    /// A plan of so many items was installed, uploaded by this stream.
    Installed(PlanKind, u16, Stream),
    /// The plan of this kind, or with None all three, became empty, even if it already was.
    Emptied(Option<PlanKind>),
}

/// A step of a core: the plans' news are reported before the reply is sent, and the outcome after it.
#[derive(Drop)]
pub(crate) struct Step {
    pub(crate) plans: PlanNews,
    pub(crate) answer: Option<PlanMsg>,
    pub(crate) outcome: Option<Outcome>,
}

/// The core of a node. It has no link, no clock and no store, and allocates only what is to be stored.
pub(crate) trait Core {
    ghost use Rattle.std.specs.Prelude.{◌≡◌, ◌≢◌, ◌≤◌, ◌<◌, ◌^◌, Bool, ℕ, List, None, true, false, vec_len, IfOk};
    ghost use Rattle.std.specs.Prelude.{IfSome};
    ghost use Rattle.mav_names.specs.declared.names.Stream.{Stream};
    ghost use Rattle.plan_items.specs.declared.messages.PlanMsg.{PlanMsg};
    ghost use Rattle.mav_nodes.specs.Steps.{CoreStep};
    ghost use Rattle.mav_nodes.specs.Cores.{IsStep};

    /// Its step at a plan message of a stream, if the store keeps what the step changes, or doesn't.
    ghost taken: { Bool → Self → Stream → PlanMsg → CoreStep Self };

    /// Its step at a tick.
    ghost waited: { Self → CoreStep Self };

    /// Which bytes a store may have of it with a low bound of timestamps.
    ghost stored: { Self → ℕ → List ℕ → Type 0 };

    /// What is to be stored, with this low bound; None if it stores nothing.
    fn image(&self, alloc: Global, low: u64) -> Result<Option<Vec<u8>>, NoMemory>
        requires { low < 2 ^ 48 }
        ensures bytes { IfOk result (λ bytes. IfSome bytes (λ b. stored self.now low b.items)) }
        ensures short { IfOk result (λ bytes. IfSome bytes (λ b. vec_len b ≤ 65536)) }
        ensures none { IfOk result (λ bytes. bytes ≡ None → (low : ℕ) → (b : List ℕ) → stored self.now low b) };

    /// What is to be stored before a step at a message, with this low bound; None if the step changes nothing that is
    /// stored.
    fn image_after(
        &self,
        alloc: Global,
        low: u64,
        from: Stream,
        message: &PlanMsg,
    ) -> Result<Option<Vec<u8>>, NoMemory>
        requires { low < 2 ^ 48 }
        ensures bytes { IfOk result (λ bytes. IfSome bytes
            (λ b. stored (taken true self.now from message.now).core low b.items)) }
        ensures short { IfOk result (λ bytes. IfSome bytes (λ b. vec_len b ≤ 65536)) }
        ensures changed { IfOk result (λ bytes. bytes ≢ None → (kept : Bool)
            → (taken kept self.now from message.now).answer ≢ None) }
        ensures same { IfOk result (λ bytes. bytes ≡ None → (low : ℕ) → (b : List ℕ) → stored self.now low b
            → stored (taken true self.now from message.now).core low b) }
        ensures one { IfOk result (λ bytes. bytes ≢ None → (low : ℕ) → (a b : List ℕ) → stored self.now low a
            → stored self.now low b → a ≡ b) }
        ensures unkept { (low : ℕ) → (b : List ℕ) → stored self.now low b
            → stored (taken false self.now from message.now).core low b };

    /// Does its step; `kept` says whether the store has what it changes.
    fn take(&mut self, kept: bool, from: Stream, message: &PlanMsg) -> Step
        ensures { IsStep (taken kept self.old from message.now) self.new result };

    fn wait(&mut self) -> Step
        ensures step { IsStep (waited self.old) self.new result }
        ensures stored { (low : ℕ) → (b : List ℕ) → stored self.old low b → stored self.new low b }
        ensures same { (low : ℕ) → (b : List ℕ) → stored self.new low b → stored self.old low b };
}

/// Reports what was done to the plans.
pub(crate) fn tell_plans(news: &mut Vec<News>, plans: PlanNews) -> Result<(), NodeFault>
    ensures told { OnOk result (events_of news.new.items ≡ events_of news.old.items ++ said_of_plans plans) }
    ensures fault { IfErr result (λ fault. fault ≡ NodeFault.NoMemory) }
{
    match plans {
        PlanNews::Same => Ok(()),
        PlanNews::Installed(kind, count, by) => tell_installed(news, kind, count, by),
        PlanNews::Emptied(Some(kind)) => tell_emptied(news, kind),
        PlanNews::Emptied(None) => {
            tell_emptied(news, PlanKind::Mission)?;
            tell_emptied(news, PlanKind::Fence)?;
            tell_emptied(news, PlanKind::Rally)
        }
    }
}

// The compiler zeroes a function's locals whether they are used or not, so each rare piece of news has a function of
// its own.
#[inline(never)]
fn tell_installed(
    news: &mut Vec<News>,
    kind: PlanKind,
    count: u16,
    by: Stream,
) -> Result<(), NodeFault>
    ensures told { OnOk result (events_of news.new.items ≡ events_of news.old.items ++ Shows_installed kind count by
        ∷ []) }
    ensures fault { IfErr result (λ fault. fault ≡ NodeFault.NoMemory) }
{
    tell(news, News::Installed { kind, count, by })
}

#[inline(never)]
fn tell_emptied(news: &mut Vec<News>, kind: PlanKind) -> Result<(), NodeFault>
    ensures told { OnOk result (events_of news.new.items ≡ events_of news.old.items ++ Shows_emptied kind ∷ []) }
    ensures fault { IfErr result (λ fault. fault ≡ NodeFault.NoMemory) }
{
    tell(news, News::Emptied { kind })
}

#[inline(never)]
fn tell_ended(news: &mut Vec<News>, outcome: Outcome) -> Result<(), NodeFault>
    ensures told { OnOk result (events_of news.new.items ≡ events_of news.old.items ++ Shows_ended (told_of outcome)
        ∷ []) }
    ensures fault { IfErr result (λ fault. fault ≡ NodeFault.NoMemory) }
{
    tell(news, News::Outcome(outcome))
}

/// Reports an outcome, if there is one.
pub(crate) fn tell_outcome(news: &mut Vec<News>, outcome: Option<Outcome>) -> Result<(), NodeFault>
    ensures told { OnOk result (events_of news.new.items ≡ events_of news.old.items ++ said_of_outcome outcome) }
    ensures fault { IfErr result (λ fault. fault ≡ NodeFault.NoMemory) }
{
    match outcome {
        Some(outcome) => tell_ended(news, outcome),
        None => Ok(()),
    }
}
