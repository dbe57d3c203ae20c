ghost use Rattle.std.specs.Prelude.{◌≡◌, ℕ, ◌+◌, ◌/◌, ◌<◌, ◌≤◌, length, drop, get_or, slice_get, Some};
ghost use Rattle.mig_machine_script.specs.Common.{pfns_of_words};
ghost use Rattle.mig_machine_script.specs.ScriptLines.{line_said};
ghost use Rattle.mig_machine_script.specs.Groups.{ends_group, first_group, first_length};
ghost use Rattle.mig_machine_script.specs.HostLines.{after, after_line, logs, with_logged, logged_after, room_of, room_for};

use crate::change::apply;
use crate::script::{Line, Script};
use mig_guest::pfn_set::insert;
use mig_host::Host;

/// Applies a line, and logs the frame number that it changed.
fn run_line(host: &mut Host, line: &Line, log: &mut [u64])
    requires words { length log.old ≡ (host.old.host.width + 63) / 64 }
    requires room { room_of (line_said line.now) ≤ host.old.spare }
    ensures host { host.new.host ≡ after_line host.old.host (line_said line.now) }
    ensures log { pfns_of_words log.new ≡ with_logged (logs host.old.host (line_said line.now)) (pfns_of_words log.old) }
    ensures kind { host.new.host.kind ≡ host.old.host.kind }
    ensures width { host.new.host.width ≡ host.old.host.width }
    ensures spare { host.old.spare ≤ host.new.spare + room_of (line_said line.now) }
{
    let _width = host.width();
    if let Some(pfn) = apply(host, line) {
        insert(log, pfn);
    }
}

/// Whether a group ends at this line.
fn is_dot(line: &Line) -> bool
    ensures { result ≡ ends_group (line_said line.now) }
{
    matches!(line, Line::Dot)
}

/// Runs the lines of a script from this one on up to the next dot. The answer is where the lines behind it begin.
fn run_group(host: &mut Host, script: &Script, from: usize, log: &mut [u64]) -> usize
    requires words { length log.old ≡ (host.old.host.width + 63) / 64 }
    requires room { room_for (drop from script.now) ≤ host.old.spare }
    ensures host { host.new.host ≡ after host.old.host (first_group (drop from script.now)) }
    ensures log { pfns_of_words log.new ≡ logged_after host.old.host (first_group (drop from script.now)) (pfns_of_words log.old) }
    ensures place { result ≡ from + first_length (drop from script.now) }
    ensures room { room_for (drop result script.now) ≤ host.new.spare }
{
    let count = script.len();
    let mut at = from;
    while at < count {
        let Some(line) = script.line(at) else {
            unreachable!();
        };
        at += 1;
        if is_dot(line) {
            return at;
        }
        run_line(host, line, log);
    }
    at
}

/// The same, where the log is kept in a vector.
pub fn run_logged(host: &mut Host, script: &Script, from: usize, log: &mut Vec<u64>) -> usize
    requires words { length log.old.items ≡ (host.old.host.width + 63) / 64 }
    requires room { room_for (drop from script.now) ≤ host.old.spare }
    ensures host { host.new.host ≡ after host.old.host (first_group (drop from script.now)) }
    ensures log { pfns_of_words log.new.items ≡ logged_after host.old.host (first_group (drop from script.now)) (pfns_of_words log.old.items) }
    ensures place { result ≡ from + first_length (drop from script.now) }
    ensures room { room_for (drop result script.now) ≤ host.new.spare }
    ensures size { length log.new.items ≡ length log.old.items }
{
    run_group(host, script, from, log)
}

/// How many spare frames a line may take.
fn room_of_line(line: &Line) -> usize
    ensures { result ≡ room_of (line_said line.now) }
{
    match line {
        Line::Retype { .. } | Line::Add { .. } => 1,
        _ => 0,
    }
}

/// How many spare frames the lines of a script may take.
pub fn room_in(script: &Script) -> usize
    ensures { result ≡ room_for script.now }
{
    let count = script.len();
    let mut room = 0;
    for at in 0..count {
        let Some(line) = script.line(at) else {
            unreachable!();
        };
        room += room_of_line(line);
    }
    room
}
