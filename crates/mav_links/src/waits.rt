// Streams that wait for their bytes.

use crate::Bell;
use std::sync::Arc;

/// How a stream waits. One that leaves these out waits in its reads alone.
pub trait Waits {
    /// Whether a read returns without waiting.
    fn is_ready(&mut self) -> bool {
        true
    }

    /// Waits until a read returns without waiting, the bell rings, or a while is over.
    fn rest(&mut self) {}

    /// How many bytes writes take now without waiting; none if a write would wait.
    fn room(&mut self) -> usize {
        usize::MAX
    }

    /// What ends its rest from another thread.
    fn bell(&self) -> Option<Arc<Bell>> {
        None
    }

    /// What ends its rest ends that of the bell's port too.
    fn wakes(&mut self, bell: Arc<Bell>) {
        let _bell = bell;
    }
}
