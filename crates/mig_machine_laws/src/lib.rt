//! What the definitions of a machine, its script and a live save say, in words of their own and worked through.
//!
//! Responsible for:
//!
//! - how many rounds a save has, and which log ends them
//! - how many entries are in a record
//! - in which order and batches the records of a canonical stream are
//! - what a slot of a table or of a P2M frame says
//! - which types of frame a field of a vCPU may name
//! - where a line of a script applies, what it leaves and what it logs
//! - worked through: the host and the script of the exercise, the headers of a canonical stream, the record types of
//!   content, static data and vCPUs, and two counts
//!
//! Left to others: to do it, since here are laws alone.
#![tactic(auto)]

mod canon_law;
mod exercise_law;
mod frames_law;
mod numbers_law;
mod rounds_law;
mod script_law;

pub use canon_law::{canonical_batches_are_full, canonical_records_ascend};
pub use exercise_law::{worked_exercise_host, worked_exercise_numbers, worked_exercise_pages};
pub use frames_law::{p2m_slots_say_machine_frames, slots_name_frames, worked_field_types};
pub use numbers_law::{worked_counts, worked_headers, worked_record_lists};
pub use rounds_law::{entries_behind_are_few, five_rounds_are_rounds, rounds_go_on_up_to_five};
pub use script_law::{
    lines_apply_where_asked, lines_leave_all_else, lines_leave_what_they_say,
    lines_log_what_they_name,
};
