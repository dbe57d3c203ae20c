//! The form of an input said once, as a term of which its judging and its refusals are two readings.
//!
//! Responsible for: forms as terms, conditions with two readings, and the laws that join, for every form, judging with what
//! is spelled and what is refused in words. It has no code of its own, and knows nothing of streams and images.
#![tactic(auto)]

mod laws;

pub use laws::{
    accepted_or_refused, named_is_least, never_both, one_refusal, passes_spelled, refused_so,
    then_judged,
};
