// The inputs of a run.

/// The inputs that the words name; the others are empty, and aren't read.
#[derive(Drop)]
pub struct Inputs<S> {
    pub main: S,
    pub defs: S,
    pub key: S,
}
