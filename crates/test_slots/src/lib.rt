//! Tests of the store in two slots: what each crash inside a save leaves on a disk in memory, the bytes that saves
//! write, and a store in a file. Nothing depends on it.
#![tactic(auto)]

#[cfg(test)]
mod crashes;
#[cfg(test)]
mod files;
