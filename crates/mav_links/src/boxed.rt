// A link that its caller boxed.

use crate::{Bell, Link};
use mav_ports::{Got, Put};
use std::sync::Arc;

/// A box is the link in it.
impl Link for Box<dyn Link> {
    ghost state = { λ b. (Link-box b).state b.value };

    fn read(&mut self, buf: &mut [u8]) -> Got {
        (**self).read(buf)
    }

    fn write(&mut self, bytes: &[u8]) -> Put {
        (**self).write(bytes)
    }

    fn sent(&self) -> &[u8] {
        (**self).sent()
    }

    fn is_ready(&mut self) -> bool {
        (**self).is_ready()
    }

    fn rest(&mut self) {
        (**self).rest()
    }

    fn room(&mut self) -> usize {
        (**self).room()
    }

    fn bell(&self) -> Option<Arc<Bell>> {
        (**self).bell()
    }

    fn wakes(&mut self, bell: Arc<Bell>) {
        (**self).wakes(bell)
    }
}
