//! Tests of scripts, of sets of frame numbers, of machines in memory, and of a saver over machines and a sink that
//! fail.
//!
//! Responsible for:
//!
//! - `StandingMachine`, whose guest never runs, and the proof that it meets the trait `Machine` too
//! - which call of a machine is which, how many there are, and when the first pages are written, of which no contract
//!   tells as much
//!
//! They are in a crate of their own, since a crate with tests is proved twice. A function that holds a script, a host
//! or a machine hands it to one that borrows it, and the tests hold plain values. The reason is that a proof considers
//! a drop wherever the function that holds it may end.
#![tactic(auto)]

#[cfg(test)]
mod faulty;
#[cfg(test)]
mod hosts;
#[cfg(test)]
mod judged;
#[cfg(test)]
mod made;
#[cfg(test)]
mod running;
#[cfg(test)]
mod saves;
#[cfg(test)]
mod scripts;
#[cfg(test)]
mod sets;
mod standing;
#[cfg(test)]
mod standing_tests;
#[cfg(test)]
mod streams;

pub use standing::StandingMachine;
