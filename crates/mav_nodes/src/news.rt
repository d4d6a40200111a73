// What happens in a node.
ghost use Rattle.std.specs.Prelude.{◌≡◌, ◌++◌, ◌∷◌, [], OnOk, IfErr};
ghost use Rattle.mav_nodes.specs.declared.news.News.TheVariants.{Sent, Dropped};
ghost use Rattle.mav_nodes.specs.News.{said_by, events_of};

use crate::{NoMemory, NodeFault};
use field_layout::Label;
use mav_messages::Message;
use mav_names::Stream;
use mav_sign::{Admit, SignedFrame};
use param_proto::Param;
use plan_items::PlanKind;
use plan_upload::Outcome;

/// How what a station asked of files has ended.
#[derive(Drop)]
pub enum FileEnd {
    /// It is done, and gives these bytes: the entries of a list, those of a file, or none.
    Done(Label),
    /// The drone refused it, with this error code.
    Refused(u8),
    /// No reply came.
    NoAnswer,
}

/// What happened in a node, in order.
pub enum News {
    /// The node sent this frame, which carries the message.
    Sent(SignedFrame, Message),
    /// A plan was installed.
    Installed {
        kind: PlanKind,
        count: u16,
        by: Stream,
    },
    /// A plan was emptied, even if it already was empty.
    Emptied {
        kind: PlanKind,
    },
    /// A frame wasn't admitted.
    Dropped(Admit),
    /// The station's operation has ended.
    Outcome(Outcome),
    /// The station's command has ended: with its result, or without an acknowledgement.
    Command(Option<u8>),
    /// The parameter that the station read or set has this value.
    Param(Param),
    /// The station's list of parameters has ended with so many values; or, with None, what it asked of parameters has
    /// ended without an answer.
    Params(Option<u16>),
    /// The drone reached the item of this number.
    Reached(u16),
    /// The drone took a picture, and has taken so many.
    Captured(u32),
    /// What the station asked of files has ended.
    File(FileEnd),
}

// By hand, so that whoever drops a piece of news proves one call.
impl Drop for News {
    fn drop(self) {
        match self {
            News::Sent(_frame, _message) => {}
            News::Outcome(_outcome) => {}
            News::Param(_param) => {}
            News::File(_end) => {}
            News::Installed {
                kind: _kind,
                count: _count,
                by: _by,
            } => {}
            News::Emptied { kind: _kind } => {}
            News::Dropped(_answer) => {}
            News::Command(_result) => {}
            News::Params(_count) => {}
            News::Reached(_item) => {}
            News::Captured(_total) => {}
        }
    }
}

// Most calls tell one thing: the first piece of news takes room for itself alone.
fn make_room(news: &mut Vec<News>)
    ensures { news.new.items ≡ news.old.items }
{
    if news.is_empty() {
        if let Err(_) = news.reserve_exact(1) {}
    }
}

/// One piece of news more.
#[inline]
pub(crate) fn tell(news: &mut Vec<News>, piece: News) -> Result<(), NodeFault>
    ensures told { OnOk result (news.new.items ≡ news.old.items ++ piece ∷ []) }
    ensures fault { IfErr result (λ fault. fault ≡ NodeFault.NoMemory) }
{
    make_room(news);
    news.push(piece)?;
    Ok(())
}

/// The same, by what contracts see of it.
pub(crate) fn report(news: &mut Vec<News>, piece: News) -> Result<(), NoMemory>
    ensures { OnOk result (events_of news.new.items ≡ events_of news.old.items ++ said_by piece ∷ []) }
{
    make_room(news);
    news.push(piece)?;
    Ok(())
}

/// A frame that was sent, and the message that it carries.
#[inline]
pub(crate) fn tell_sent(
    news: &mut Vec<News>,
    frame: SignedFrame,
    message: &Message,
) -> Result<(), NodeFault>
    ensures told { OnOk result (news.new.items ≡ news.old.items ++ Sent frame message.now ∷ []) }
    ensures fault { IfErr result (λ fault. fault ≡ NodeFault.NoMemory) }
{
    make_room(news);
    news.push(News::Sent(frame, *message))?;
    Ok(())
}

/// A frame that wasn't admitted. The compiler zeroes a function's locals whether they are used or not, so what is rare
/// has a function of its own.
#[inline(never)]
pub(crate) fn tell_dropped(news: &mut Vec<News>, answer: Admit) -> Result<(), NodeFault>
    ensures told { OnOk result (news.new.items ≡ news.old.items ++ Dropped answer ∷ []) }
    ensures fault { IfErr result (λ fault. fault ≡ NodeFault.NoMemory) }
{
    tell(news, News::Dropped(answer))
}

/// These pieces of news more.
pub(crate) fn tell_all(news: &mut Vec<News>, pieces: Vec<News>) -> Result<(), NodeFault>
    ensures told { OnOk result (news.new.items ≡ news.old.items ++ pieces.items) }
    ensures fault { IfErr result (λ fault. fault ≡ NodeFault.NoMemory) }
{
    let mut pieces = pieces;
    news.append(&mut pieces)?;
    Ok(())
}
