// What a node does beside its plan core.
ghost use Rattle.std.specs.Prelude.{◌≡◌, ◌++◌, ◌∷◌, [], OnOk};

use crate::steps::PlanNews;
use crate::{News, NoMemory};
use mav_messages::Message;
use mav_names::Stream;
use std::alloc::Global;

/// What services did: the messages that are sent, and what ended with it.
#[derive(Drop)]
pub(crate) struct Served {
    pub(crate) answers: Vec<Message>,
    pub(crate) last: Vec<News>,
}

/// One message more that is sent.
pub(crate) fn reply(answers: &mut Vec<Message>, message: Message) -> Result<(), NoMemory>
    ensures { OnOk result (answers.new.items ≡ answers.old.items ++ message ∷ []) }
{
    answers.push(message)?;
    Ok(())
}

/// The services of a node with a core. They have no link, no clock and no store.
pub(crate) trait Services<C> {
    ghost use Rattle.std.specs.Prelude.{◌≡◌, List, map, IfOk};
    ghost use Rattle.mav_names.specs.declared.names.Stream.{Stream};
    ghost use Rattle.mav_messages.specs.declared.messages.Message.{Message};
    ghost use Rattle.mav_nodes.specs.Services.{ServiceStep};
    ghost use Rattle.mav_nodes.specs.News.{NodeEvent, shown};
    ghost use Rattle.mav_nodes.specs.Cores.{IsServed, said_of_plans};

    /// What they make of the events of a step of the plan core.
    ghost noted: { Self → List NodeEvent → Self };

    /// Their step at a message of a stream that is none of the mission protocol.
    ghost served: { C → Self → Stream → Message → ServiceStep Self };

    /// Hears what a step of the plan core did to the plans, before the step's reply is sent.
    fn note(&mut self, plans: &PlanNews)
        ensures { (events : List NodeEvent) → said_of_plans plans.now ≡ map shown events
            → self.new ≡ noted self.old events };

    fn serve(
        &mut self,
        alloc: Global,
        core: &C,
        from: Stream,
        message: &Message,
    ) -> Result<Served, NoMemory>
        ensures { IfOk result (IsServed (served core.now self.old from message.now) self.new) };
}
