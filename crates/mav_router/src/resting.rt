// How the one thread of a run rests.
ghost use Rattle.std.specs.Prelude.{◌≡◌, ◌<◌, List, length};
ghost use Rattle.mav_router.specs.Journal.{SwitchState};
ghost use Rattle.mav_router.specs.declared.lane.Lane.{Lane};
ghost use Rattle.mav_router.specs.Runs.{RunGoesOn};

use mav_links::{Bell, Link};
use std::sync::Arc;

// Has what would end the port's rest end that of the bell's port, unless the bell is its own.
fn wake_by<L: Link>(link: &mut L, bell: &Arc<Bell>, is_own: bool)
    ensures kept { L.state link.new ≡ L.state link.old }
{
    if is_own {
        return;
    }
    let Ok(bell) = bell.clone() else {
        return;
    };
    link.wakes(bell);
}

// Has what would end the rest of any other port end that of this one, which has this bell.
fn wake_one<L: Link>(links: &mut [L], bell: &Arc<Bell>, port: usize)
    ensures length { length links.new ≡ length links.old }
    ensures kept { (switch : SwitchState) (lanes : List Lane)
        → RunGoesOn L.state switch switch links.old links.new lanes lanes }
{
    for at in 0..links.len() {
        wake_by(&mut links[at], bell, at == port);
    }
}

// The same of a port, if it has a bell.
fn join_rest<L: Link>(links: &mut [L], port: usize)
    requires { port < length links.old }
    ensures length { length links.new ≡ length links.old }
    ensures kept { (switch : SwitchState) (lanes : List Lane)
        → RunGoesOn L.state switch switch links.old links.new lanes lanes }
{
    let Some(bell) = links[port].bell() else {
        return;
    };
    wake_one(links, &bell, port);
}

/// Has a rest of any port end by what happens at any other, if they are read at all.
pub(crate) fn join_rests<L: Link>(links: &mut [L], turns: u64)
    ensures length { length links.new ≡ length links.old }
    ensures kept { (switch : SwitchState) (lanes : List Lane)
        → RunGoesOn L.state switch switch links.old links.new lanes lanes }
{
    if turns == 0 {
        return;
    }
    for at in 0..links.len() {
        join_rest(links, at);
    }
}

/// Whether a read of a port returns without waiting.
pub(crate) fn is_ready_at<L: Link>(links: &mut [L], at: usize) -> bool
    requires { at < length links.old }
    ensures length { length links.new ≡ length links.old }
    ensures kept { (switch : SwitchState) (lanes : List Lane)
        → RunGoesOn L.state switch switch links.old links.new lanes lanes }
{
    links[at].is_ready()
}

/// Waits until a read of the port returns without waiting, or something happens at another, unless any was read.
pub(crate) fn rest_unless<L: Link>(any: bool, links: &mut [L], at: usize)
    requires { at < length links.old }
    ensures length { length links.new ≡ length links.old }
    ensures kept { (switch : SwitchState) (lanes : List Lane)
        → RunGoesOn L.state switch switch links.old links.new lanes lanes }
{
    if any {
        return;
    }
    links[at].rest();
}
