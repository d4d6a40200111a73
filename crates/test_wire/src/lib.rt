//! The outside values of the crates of the wire: published vectors, and results of outside programs.
//!
//! What the definitions make of them is computed in `proofs`. The tests run the calls that no run of the program
//! makes.
#![tactic(auto)]

#[cfg(test)]
mod links;
#[cfg(test)]
mod packing;
#[cfg(test)]
mod scans;
#[cfg(test)]
mod streams;
