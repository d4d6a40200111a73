//! What no contract of the plan crates states: worked examples of the protocol's tables, computed from the definitions
//! alone by the lemmas of proofs/, that a plan may move to another thread, that a store over memory or over a real
//! file gives back what it was given, a plan that is read from a file, a stored image that is written, read and
//! restored, and an upload to a drone whose store fails in every way.
#![tactic(auto)]

#[cfg(test)]
mod failing_stores;
#[cfg(test)]
mod images;
#[cfg(test)]
mod plan_files;
#[cfg(test)]
mod plans;
#[cfg(test)]
mod stores;
