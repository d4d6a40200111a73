// The ports of a relay over the system.
ghost use Rattle.std.specs.Prelude.{◌≡◌, None, IfOk};
ghost use Rattle.relay_hub.specs.Seats.{no_seats};

use crate::Target;
use crate::system::System;
use crate::wires::Wires;
use relay_hub::{Hub, HubNews, Stranger};
use std::io;
use std::net::SocketAddr;
use std::time::Duration;

// The sender of the last datagram of somebody who has no link.
#[derive(Clone, Copy)]
struct Asker {
    port: u8,
    peer: SocketAddr,
}

/// A hub over the system: TCP, UDP, character devices and files.
pub struct RelayPorts {
    system: System,
    wires: Wires,
    asker: Option<Asker>,
}

// By hand, so that whoever drops it proves one call.
impl Drop for RelayPorts {
    fn drop(self) {
        let RelayPorts {
            system: _system,
            wires: _wires,
            asker: _,
        } = self;
    }
}

impl RelayPorts {
    /// Of these ports, of which the first eight are opened, from the first call of `next` on. It allocates all its
    /// memory here; it fails if there is none, or the system has nothing to wait with.
    pub fn new(rt: &HostRuntime, targets: Vec<Target>) -> io::Result<RelayPorts>
        ensures start { IfOk result (λ hub. ⟦<RelayPorts as Hub>⟧.seats hub ≡ no_seats) }
        ensures untold { IfOk result (λ hub. ⟦<RelayPorts as Hub>⟧.state hub ≡ None) }
    {
        let wires = Wires::new(rt.alloc())?;
        let system = System::new(rt, targets)?;
        Ok(RelayPorts {
            system,
            wires,
            asker: None,
        })
    }
}

impl Hub for RelayPorts {
    ghost use Rattle.std.specs.Option.{option_map};
    ghost use Rattle.relay_ports.specs.declared.relay_ports.Asker.{Asker as Sender};

    ghost seats = { λ h. record { ports = h.wires; stranger = option_map (λ (a : Sender). a.port) h.asker } };

    ghost state = { λ h. None };

    fn wait(&mut self, most: Duration) {
        self.system.wait(&self.wires, most);
    }

    fn next(&mut self) -> Option<HubNews> {
        self.system.news(&mut self.wires)
    }

    fn read(&mut self, index: usize, buf: &mut [u8]) -> usize {
        self.system.read(&self.wires, index, buf)
    }

    fn write(&mut self, index: usize, bytes: &[u8]) -> usize {
        self.system.write(&self.wires, index, bytes)
    }

    fn stranger(&mut self, buf: &mut [u8]) -> Option<Stranger> {
        self.asker = None;
        let (stranger, peer) = self.system.stranger(&self.wires, buf)?;
        self.asker = Some(Asker {
            port: stranger.port,
            peer,
        });
        Some(stranger)
    }

    fn adopt(&mut self, _from: usize) -> bool {
        let Some(asker) = self.asker.take() else {
            return false;
        };
        if !self.wires.has_room(asker.port) {
            self.system.refuse(asker.port);
            return false;
        }
        self.system.adopt(&mut self.wires, asker.port, asker.peer);
        true
    }

    ghost agrees = { λ hub. tt };
}
