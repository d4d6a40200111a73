// A link to the outside world.
ghost use Rattle.std.specs.Prelude.{◌≡◌, true};
ghost use Rattle.real_ports.specs.Opened.{is_open, IsOpenedFrom};

use crate::Opening;
use log_rows::Replay;
use mav_links::{Bell, FileLink, Link, TcpLink, UdpLink, WaitingStream};
use mav_ports::{Got, Put};
use std::fs::File;
use std::sync::Arc;

/// A port before its first call; then a link over files, a log that is played, a TCP connection or a UDP socket.
pub enum RealLink {
    Unopened(Opening),
    Files(FileLink<File, File>),
    Log(Replay<FileLink<File, File>>),
    Stream(TcpLink<WaitingStream<HostRuntime>>),
    Datagrams(UdpLink<HostRuntime>),
}

// By hand, so that whoever boxes a link proves one call for its drop.
impl Drop for RealLink {
    fn drop(self) {
        match self {
            RealLink::Unopened(_opening) => {}
            RealLink::Files(_link) => {}
            RealLink::Log(_link) => {}
            RealLink::Stream(_link) => {}
            RealLink::Datagrams(_link) => {}
        }
    }
}

impl RealLink {
    // Opens it at its first call.
    fn open(&mut self)
        ensures kept { ⟦<RealLink as Link>⟧.state self.new ≡ ⟦<RealLink as Link>⟧.state self.old }
        ensures open { is_open self.new ≡ true }
        ensures from { IsOpenedFrom self.old self.new }
    {
        let opened = match self {
            RealLink::Unopened(opening) => opening.open(),
            _ => return,
        };
        *self = opened;
    }
}

/// It is the link in it.
impl Link for RealLink {
    ghost use Rattle.real_ports.specs.Opened.{just_opened};
    ghost use Rattle.real_ports.specs.declared.links.RealLink.TheVariants.{Unopened, Files, Log, Stream, Datagrams};

    ghost state = { elim [
      | Unopened opening ↦ just_opened
      | Files link ↦ ⟦<FileLink<File, File> as Link>⟧.state link
      | Log link ↦ ⟦<Replay<FileLink<File, File>> as Link>⟧.state link
      | Stream link ↦ ⟦<TcpLink<WaitingStream<HostRuntime>> as Link>⟧.state link
      | Datagrams link ↦ ⟦<UdpLink<HostRuntime> as Link>⟧.state link
    ] };

    fn read(&mut self, buf: &mut [u8]) -> Got {
        self.open();
        match self {
            RealLink::Unopened(_) => unreachable!(),
            RealLink::Files(link) => link.read(buf),
            RealLink::Log(link) => link.read(buf),
            RealLink::Stream(link) => link.read(buf),
            RealLink::Datagrams(link) => link.read(buf),
        }
    }

    fn write(&mut self, bytes: &[u8]) -> Put {
        self.open();
        match self {
            RealLink::Unopened(_) => unreachable!(),
            RealLink::Files(link) => link.write(bytes),
            RealLink::Log(link) => link.write(bytes),
            RealLink::Stream(link) => link.write(bytes),
            RealLink::Datagrams(link) => link.write(bytes),
        }
    }

    fn sent(&self) -> &[u8] {
        match self {
            RealLink::Unopened(_) => &[],
            RealLink::Files(link) => link.sent(),
            RealLink::Log(link) => link.sent(),
            RealLink::Stream(link) => link.sent(),
            RealLink::Datagrams(link) => link.sent(),
        }
    }

    fn is_ready(&mut self) -> bool {
        self.open();
        match self {
            RealLink::Stream(link) => link.is_ready(),
            RealLink::Datagrams(link) => link.is_ready(),
            _ => true,
        }
    }

    fn rest(&mut self) {
        match self {
            RealLink::Stream(link) => link.rest(),
            RealLink::Datagrams(link) => link.rest(),
            _ => {}
        }
    }

    fn room(&mut self) -> usize {
        self.open();
        match self {
            RealLink::Stream(link) => link.room(),
            _ => usize::MAX,
        }
    }

    fn bell(&self) -> Option<Arc<Bell>> {
        match self {
            RealLink::Unopened(opening) => opening.bell(),
            RealLink::Stream(link) => link.bell(),
            RealLink::Datagrams(link) => link.bell(),
            _ => None,
        }
    }

    fn wakes(&mut self, bell: Arc<Bell>) {
        self.open();
        match self {
            RealLink::Stream(link) => link.wakes(bell),
            RealLink::Datagrams(link) => link.wakes(bell),
            _ => {}
        }
    }
}
