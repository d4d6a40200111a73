// A port that words name, before its first call.
ghost use Rattle.std.specs.Prelude.{◌≡◌, IfOk, Some, true};
ghost use Rattle.command_line.specs.PortTexts.{target_text};
ghost use Rattle.real_ports.specs.Opened.{just_opened, is_open, is_of_target, target_of};

use crate::files::files_link;
use crate::sockets::{datagrams_link, stream_link};
use crate::{NoMemory, RealLink};
use command_line::{Files, Port, Socket, SocketKind, Target};
use mav_links::{Beat, Bell, Link, Pace, Watch};
use std::alloc::Global;
use std::sync::Arc;

/// What a port is opened from at its first call, in the thread that makes it.
pub struct Opening {
    rt: HostRuntime,
    target: Target,
    beat: Beat,
    watch: Option<Watch>,
}

// By hand, so that whoever drops a link proves one call for it.
impl Drop for Opening {
    fn drop(self) {
        let Opening {
            rt: _rt,
            target: _target,
            beat: _beat,
            watch: _watch,
        } = self;
    }
}

// A copy of what a port names.
fn copy_of(alloc: Global, target: &Target) -> Result<Target, NoMemory>
    ensures { IfOk result (λ copy. target_text copy ≡ target_text target.now) }
{
    match target {
        Target::Socket(socket) => Ok(Target::Socket(Socket {
            kind: socket.kind,
            host: String::from_str(alloc, socket.host.as_str())?,
            number: socket.number,
        })),
        Target::Files(files) => Ok(Target::Files(Files {
            kind: files.kind,
            input: String::from_str(alloc, files.input.as_str())?,
            output: String::from_str(alloc, files.output.as_str())?,
        })),
    }
}

/// A port that is opened at its first call, and idles at this beat if it is a socket. One that can't be opened fails
/// at each call.
pub fn open_link(rt: &HostRuntime, port: &Port, beat: Beat) -> Result<RealLink, NoMemory>
    ensures opened { IfOk result (λ link. ⟦<RealLink as Link>⟧.state link ≡ just_opened) }
    ensures target { IfOk result (λ link. target_of link ≡ Some (target_text port.now.target)) }
{
    Ok(RealLink::Unopened(Opening {
        rt: *rt,
        target: copy_of(rt.alloc(), &port.target)?,
        beat,
        watch: Watch::new(rt, rt.alloc()).ok(),
    }))
}

impl Opening {
    /// Opens it.
    pub(crate) fn open(&mut self) -> RealLink
        ensures opened { ⟦<RealLink as Link>⟧.state result ≡ just_opened }
        ensures open { is_open result ≡ true }
        ensures kind { is_of_target self.old.target result ≡ true }
    {
        let pace = Pace::new(self.rt, self.beat);
        match &self.target {
            Target::Files(files) => files_link(&self.rt, files),
            Target::Socket(socket) => match socket.kind {
                SocketKind::Tcp | SocketKind::Listen => {
                    stream_link(&self.rt, socket, self.watch.take(), pace)
                }
                SocketKind::Udp | SocketKind::UdpListen => {
                    datagrams_link(&self.rt, socket, self.watch.take(), pace)
                }
            },
        }
    }

    /// What ends its rest once it is opened.
    pub(crate) fn bell(&self) -> Option<Arc<Bell>> {
        match &self.watch {
            Some(watch) => watch.bell(),
            None => None,
        }
    }
}
