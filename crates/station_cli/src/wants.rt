// What a run needs from its caller.
use command_line::Port;

/// What the words ask `main` to make, in this order. What they don't name is None or empty.
pub struct Wanted {
    /// The main input: the word FILE, or what `--file` names; `-` is standard input.
    pub main: Option<String>,
    /// The definitions, which `--defs` names.
    pub defs: Option<String>,
    /// The key, which `--key` names.
    pub key: Option<String>,
    /// The words PORT, in their order.
    pub ports: Vec<Port>,
    /// The file of a drone's plans, which `--store` names.
    pub store: Option<String>,
    /// How many stores that is.
    pub keepers: u8,
}

// By hand, so that whoever drops it proves one call.
impl Drop for Wanted {
    fn drop(self) {
        let Wanted {
            main: _main,
            defs: _defs,
            key: _key,
            ports: _ports,
            store: _store,
            keepers: _,
        } = self;
    }
}
