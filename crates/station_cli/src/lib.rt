//! All that the program does, over any inputs, output, clock, ports and stores.
//!
//! [`wanted`] says what the words ask to be opened, and [`run`] does what they ask for; [`run_alone`] does the same
//! and starts no thread. Both only read the words and pass what they name to their command. Their contract is one
//! record, `RunPromises`, with a field for each command, which has all that the command promises of a run, and fields
//! for words that are of no command. Nothing here opens a file or ends a process, and only a `route` of `run` waits.
#![tactic(auto)]

mod making;
mod runs;
mod wants;
mod words;

pub use command_inputs::Inputs;
pub use command_line::{Files, FilesKind, Port, Socket, SocketKind, Target, WantedFault};
pub use live_node::Store;
pub use runs::{run, run_alone};
pub use wants::Wanted;
pub use words::wanted;
