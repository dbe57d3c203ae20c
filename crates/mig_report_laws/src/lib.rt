//! What the program prints and how it ends, worked through over whole tables.
//!
//! Responsible for:
//!
//! - the text of each cause, with its number, its name and its arguments
//! - the name that `show` gives each type of record
//! - the exit code of each status
//! - the words of `exercise`
//! - the number that each limit is
//!
//! Left to others: which cause stands (mig_headers tells their numbers), what is printed of it (mig_headers_text,
//! mig_show, mig_tool_report) and what a limit bounds, since here are laws alone.
#![tactic(auto)]

mod limits_law;
mod text_law;

pub use limits_law::worked_limits;
pub use text_law::{
    worked_cause_texts, worked_exercise_words, worked_exit_codes, worked_image_cause_texts,
    worked_legacy_cause_texts, worked_place_texts, worked_record_names, worked_unsound_texts,
    worked_walk_end_texts,
};
