ghost use Rattle.std.specs.Prelude.{◌≡◌, ℕ, ◌+◌, ◌/◌, ◌^◌, ◌≤◌, ◌<◌, length, IfOk};
ghost use Rattle.mig_machine.specs.Common.{pfns_of_words, no_pfns, All};

use mig_bytes::Memory;
use mig_guest::pfn_set::{clear, contains, insert, none};
use std::alloc::Global;

/// How many logs can be taken.
const MOST_LOGS: usize = 8;

/// A set without members, with room for frame numbers below the width.
pub(crate) fn no_members(alloc: Global, width: u64) -> Result<Vec<u64>, Memory>
    requires { width < 2 ^ 63 }
    ensures empty { IfOk result (λ words. pfns_of_words words.items ≡ no_pfns) }
    ensures size { IfOk result (λ words. length words.items ≡ (width + 63) / 64) }
{
    match none(alloc, width) {
        Ok(words) => Ok(words),
        Err(_) => Err(Memory),
    }
}

/// A log that was taken, and what was asked since the one before it.
#[derive(Drop)]
pub(crate) struct KeptLog {
    pub(crate) read: Vec<u64>,
    pub(crate) twice: bool,
    pub(crate) calls: u64,
    pub(crate) log: Vec<u64>,
}

impl KeptLog {
    ghost use Rattle.mig_guest.specs.History.{and_call};
    ghost use Rattle.mig_machine.specs.Noted.{log_in};

    /// Room for a log of frame numbers below the width.
    fn new(alloc: Global, width: u64) -> Result<KeptLog, Memory>
        requires { width < 2 ^ 63 }
        ensures read { IfOk result (λ l. length l.read.items ≡ (width + 63) / 64) }
        ensures log { IfOk result (λ l. length l.log.items ≡ (width + 63) / 64) }
    {
        Ok(KeptLog {
            read: no_members(alloc, width)?,
            twice: false,
            calls: 0,
            log: no_members(alloc, width)?,
        })
    }

    /// Keeps a log, with the call that took it.
    fn keep(&mut self, read: &[u64], log: &[u64], twice: bool, calls: u64)
        requires read { length read.now ≡ length self.old.read.items }
        requires log { length log.now ≡ length self.old.log.items }
        ensures took { log_in self.new ≡ record { asked = and_call (record { read = pfns_of_words read.now; twice = twice; calls = calls }); log = pfns_of_words log.now } }
        ensures read { length self.new.read.items ≡ length self.old.read.items }
        ensures log { length self.new.log.items ≡ length self.old.log.items }
    {
        self.read.copy_from_slice(read);
        self.log.copy_from_slice(log);
        self.twice = twice;
        self.calls = calls.saturating_add(1);
    }
}

/// Room for as many logs as can be taken, each of frame numbers below the width.
fn kept_logs(alloc: Global, width: u64) -> Result<Vec<KeptLog>, Memory>
    requires { width < 2 ^ 63 }
    ensures number { IfOk result (λ logs. length logs.items ≡ 8) }
    ensures sizes { IfOk result (λ logs. All (λ l. (length l.read.items ≡ (width + 63) / 64) × (length l.log.items ≡ (width + 63) / 64)) logs.items) }
{
    let Ok(mut logs) = Vec::with_capacity(alloc, MOST_LOGS) else {
        return Err(Memory);
    };
    for _place in 0..MOST_LOGS {
        let log = KeptLog::new(alloc, width)?;
        if logs.push(log).is_err() {
            return Err(Memory);
        }
    }
    Ok(logs)
}

/// The history of a machine, in sets and numbers that were made beforehand.
#[derive(Drop)]
pub(crate) struct Notes {
    pub(crate) read: Vec<u64>,
    pub(crate) twice: bool,
    pub(crate) calls: u64,
    pub(crate) logs: Vec<KeptLog>,
    pub(crate) taken: usize,
    pub(crate) live: usize,
    ghost room: { length logs.items ≡ 8 },
    ghost sizes: { All (λ l. (length l.read.items ≡ length read.items) × (length l.log.items ≡ length read.items)) logs.items },
    ghost live_in: { live ≤ taken },
    ghost taken_in: { taken ≤ 8 },
}

impl Notes {
    ghost use Rattle.mig_guest.specs.History.{no_history, after_peek, after_call, after_log};
    ghost use Rattle.mig_machine.specs.Noted.{history_in};

    /// Nothing was asked yet of a machine of this width.
    pub(crate) fn new(alloc: Global, width: u64) -> Result<Notes, Memory>
        requires { width < 2 ^ 63 }
        ensures history { IfOk result (λ n. history_in n ≡ no_history) }
        ensures size { IfOk result (λ n. length n.read.items ≡ (width + 63) / 64) }
    {
        let read = no_members(alloc, width)?;
        let logs = kept_logs(alloc, width)?;
        Ok(Notes {
            read,
            twice: false,
            calls: 0,
            logs,
            taken: 0,
            live: 0,
        })
    }

    /// A frame number was peeked.
    pub(crate) fn note_read(&mut self, pfn: u64)
        requires { pfn / 64 < length self.old.read.items }
        ensures history { history_in self.new ≡ after_peek pfn (history_in self.old) }
        ensures size { length self.new.read.items ≡ length self.old.read.items }
    {
        self.twice = self.twice || contains(&self.read, pfn);
        insert(&mut self.read, pfn);
        self.calls = self.calls.saturating_add(1);
    }

    /// A call was made that peeks nothing and takes no log.
    pub(crate) fn note_call(&mut self)
        ensures history { history_in self.new ≡ after_call (history_in self.old) }
        ensures size { length self.new.read.items ≡ length self.old.read.items }
    {
        self.calls = self.calls.saturating_add(1);
    }

    /// A log was taken.
    pub(crate) fn note_log(&mut self, log: &[u64], paused: bool)
        requires size { length log.now ≡ length self.old.read.items }
        requires few { length (history_in self.old).taken < 8 }
        ensures history { history_in self.new ≡ after_log paused (pfns_of_words log.now) (history_in self.old) }
        ensures size { length self.new.read.items ≡ length self.old.read.items }
    {
        self.logs[self.taken].keep(&self.read, log, self.twice, self.calls);
        clear(&mut self.read);
        self.twice = false;
        self.calls = 0;
        self.taken += 1;
        if !paused {
            self.live += 1;
        }
    }
}
