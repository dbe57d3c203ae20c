//! The order of the records of a stream.
//!
//! Responsible for: whether a record's type may come behind the types of the records before it, in a stream of a
//! version and a kind of guest. Where it may not, a cause says why. It knows no lengths, bodies or bytes, and takes no
//! memory.
//!
//! What the layers above rely on:
//!
//! - A `Gate` stands for the list of the types that it let pass, by a truth value for each condition "some earlier
//!   record is".
//! - A step answers exactly the fault of the type behind that list, of several broken rules the least.
//! - After a refusal the gate is as it was.
//!
//! A type has no fault exactly where it is optional, or supported, of the stream's kind and in order.
#![tactic(auto)]

mod gate;
mod law;
mod sort;

pub use gate::Gate;
pub use law::order_law;
