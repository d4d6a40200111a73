//! What no contract says of whole runs: inputs that fail, give nothing or are too long, an output that fails, and an
//! input that waits for what was written. Beside them the calls over logs that no command makes, runs that are proved
//! from the contract of `run` alone, the ports over memory and over the real things, and worked examples of lines and
//! reports, computed from the definitions by the lemmas of proofs/.
#![tactic(auto)]

#[cfg(test)]
mod faults;
#[cfg(test)]
mod live;
#[cfg(test)]
mod logs;
#[cfg(test)]
mod ports;
#[cfg(test)]
mod routes;
#[cfg(test)]
mod streaming;
#[cfg(test)]
mod worked;
