ghost use Rattle.std.specs.Prelude.{◌≡◌, ◌≤◌, false, IfOk};
ghost use Rattle.mig_test_machine.specs.Common.{most_saved_width, is_paused, history_of, no_history};

use crate::hosts::{wide, worked};
use mig_bytes::{MemSink, MemSource};
use mig_dirtysave::{SaveAnswer, SaveReport, Saver};
use mig_guest::Guest;
use mig_guest::mig_machine_api::Machine;
use mig_image::Host;
use mig_libxl::read_any;
use mig_machine::{FailingMachine, ForgetfulMachine, ScriptMachine};
use mig_machine_script::Script;
use std::alloc::Global;
use std::test::Fail;

type Saved = Result<SaveReport, SaveAnswer>;

// How a page begins, and whether all its bytes are alike; none where there is no stream.
type Page = Option<(u8, bool)>;

// The number of a write that isn't made.
const NEVER: u64 = u64::MAX;

// Appends so many dots, and then this text.
fn append_script(text: &mut Vec<u8>, dots: u32, last: &[u8]) -> Result<(), Fail> {
    for _ in 0..dots {
        text.extend_from_slice(b".\n")?;
    }
    text.extend_from_slice(last)?;
    Ok(())
}

// The script of a text.
fn script_in(alloc: Global, text: Vec<u8>) -> Result<Script, Fail> {
    let mut src = MemSource::new(text, Vec::new(alloc), Vec::new(alloc));
    match Script::read(alloc, &mut src) {
        Ok(script) => Ok(script),
        Err(_) => Err("no script".into()),
    }
}

fn script(alloc: Global, dots: u32, last: &[u8]) -> Result<Script, Fail> {
    let mut text = Vec::new(alloc);
    append_script(&mut text, dots, last)?;
    script_in(alloc, text)
}

// A machine that was asked nothing.
fn started(alloc: Global, host: Host, script: Script) -> Result<ScriptMachine, Fail>
    requires narrow { host.host.width ≤ most_saved_width }
    ensures unpaused { IfOk result (λ machine. is_paused machine ≡ false) }
    ensures history { IfOk result (λ machine. history_of machine ≡ no_history) }
{
    match ScriptMachine::new(alloc, host, script) {
        Ok(machine) => Ok(machine),
        Err(_) => Err("no memory".into()),
    }
}

fn started_worked(alloc: Global, script: Script) -> Result<ScriptMachine, Fail>
    ensures unpaused { IfOk result (λ machine. is_paused machine ≡ false) }
    ensures history { IfOk result (λ machine. history_of machine ≡ no_history) }
{
    let host = worked(alloc)?;
    started(alloc, host, script)
}

fn started_wide(alloc: Global, script: Script) -> Result<ScriptMachine, Fail>
    ensures unpaused { IfOk result (λ machine. is_paused machine ≡ false) }
    ensures history { IfOk result (λ machine. history_of machine ≡ no_history) }
{
    let host = wide(alloc)?;
    started(alloc, host, script)
}

// The worked host, with no script.
fn quiet(alloc: Global) -> Result<ScriptMachine, Fail>
    ensures unpaused { IfOk result (λ machine. is_paused machine ≡ false) }
    ensures history { IfOk result (λ machine. history_of machine ≡ no_history) }
{
    let script = script(alloc, 0, b"")?;
    started_worked(alloc, script)
}

// The worked host, whose guest writes into frame 1 in call 8, counted from 0: behind the read of that frame.
fn writing(alloc: Global) -> Result<ScriptMachine, Fail>
    ensures unpaused { IfOk result (λ machine. is_paused machine ≡ false) }
    ensures history { IfOk result (λ machine. history_of machine ≡ no_history) }
{
    let script = script(alloc, 8, b"w 1 0 ff\n")?;
    started_worked(alloc, script)
}

// The wide host, whose guest writes into frame 0 in call 1100, counted from 0.
fn writing_late(alloc: Global) -> Result<ScriptMachine, Fail>
    ensures unpaused { IfOk result (λ machine. is_paused machine ≡ false) }
    ensures history { IfOk result (λ machine. history_of machine ≡ no_history) }
{
    let script = script(alloc, 1100, b"w 0 0 ff\n")?;
    started_wide(alloc, script)
}

// A sink whose write with this number fails.
fn sink(alloc: Global, fails: u64) -> Result<MemSink, Fail> {
    Ok(MemSink::new(alloc, vec![in alloc; fails; 1]?))
}

// What a save answers.
fn save<M: Machine>(alloc: Global, machine: &mut M, sink: &mut MemSink) -> Result<Saved, Fail>
    requires unpaused { (M.state machine.old).paused ≡ false }
    requires unread { (M.state machine.old).history ≡ no_history }
{
    match Saver::prepare(alloc, machine) {
        Ok(saver) => Ok(saver.run(machine, sink)),
        Err(_) => Err("no memory".into()),
    }
}

// What a save answers whose sink fails at this write.
fn answer<M: Machine>(alloc: Global, machine: &mut M, fails: u64) -> Result<Saved, Fail>
    requires unpaused { (M.state machine.old).paused ≡ false }
    requires unread { (M.state machine.old).history ≡ no_history }
{
    let mut out = sink(alloc, fails)?;
    save(alloc, machine, &mut out)
}

fn page_of(guest: &Guest, pfn: u64) -> Result<Page, Fail> {
    match guest.page(pfn) {
        Some(page) => Ok(Some((page[0], page.iter().all(|byte| *byte == page[0])))),
        None => Err("no page".into()),
    }
}

// The page of a frame in the guest of a stream.
fn page_in(alloc: Global, stream: Vec<u8>, pfn: u64) -> Result<Page, Fail> {
    let mut src = MemSource::new(stream, Vec::new(alloc), Vec::new(alloc));
    match read_any(alloc, &mut src) {
        Ok(reading) => page_of(&reading.guest, pfn),
        Err(_) => Ok(None),
    }
}

// What a save into a sink answers, and the page of frame 1 in what was written.
fn save_into<M: Machine>(
    alloc: Global,
    machine: &mut M,
    out: &mut MemSink,
) -> Result<(Saved, Page), Fail>
    requires unpaused { (M.state machine.old).paused ≡ false }
    requires unread { (M.state machine.old).history ≡ no_history }
{
    let answer = save(alloc, machine, out)?;
    let stream = out.bytes().to_vec(alloc)?;
    Ok((answer, page_in(alloc, stream, 1)?))
}

// The same, where the sink fails at this write.
fn answer_and_page<M: Machine>(
    alloc: Global,
    machine: &mut M,
    fails: u64,
) -> Result<(Saved, Page), Fail>
    requires unpaused { (M.state machine.old).paused ≡ false }
    requires unread { (M.state machine.old).history ≡ no_history }
{
    let mut out = sink(alloc, fails)?;
    save_into(alloc, machine, &mut out)
}

// What a save of the worked host answers of which this call fails, with no script.
fn save_failing(alloc: Global, call: u64) -> Result<Saved, Fail> {
    let calls = vec![in alloc; call; 1]?;
    let inner = quiet(alloc)?;
    let mut machine = FailingMachine::new(inner, calls);
    answer(alloc, &mut machine, NEVER)
}

// Calls 0 to 19 read: 16 frame numbers, and the frame that each of the 4 tables names. Then come the log, the pause, the log
// again, and the 3 frames that the vCPU names.
#[test]
fn each_call_of_a_machine_fails(rt: HostRuntime) -> Result<(), Fail> {
    for call in 0..26 {
        let answer = save_failing(rt.alloc(), call)?;
        assert_eq!(rt; answer, Err(SaveAnswer::MachineFault), "call {call}");
    }
    let done = SaveReport {
        rounds: 1,
        entries: 16,
    };
    assert_eq!(rt; save_failing(rt.alloc(), 26)?, Ok(done));
    Ok(())
}

fn save_writing(alloc: Global) -> Result<(Saved, Page), Fail> {
    let mut machine = writing(alloc)?;
    answer_and_page(alloc, &mut machine, NEVER)
}

// What was written behind its round is sent again.
#[test]
fn a_page_is_sent_again(rt: HostRuntime) -> Result<(), Fail> {
    let (answer, page) = save_writing(rt.alloc())?;
    let done = SaveReport {
        rounds: 1,
        entries: 17,
    };
    assert_eq!(rt; answer, Ok(done));
    assert_eq!(rt; page, Some((0xff, false)));
    Ok(())
}

fn save_forgetful(alloc: Global) -> Result<(Saved, Page), Fail> {
    let forgotten = vec![in alloc; 1; 1]?;
    let inner = writing(alloc)?;
    let mut machine = ForgetfulMachine::new(inner, forgotten);
    answer_and_page(alloc, &mut machine, NEVER)
}

// The same of a machine that never logs frame 1: the page comes as it was read first.
#[test]
fn a_forgotten_page_stays_as_it_was(rt: HostRuntime) -> Result<(), Fail> {
    let (answer, page) = save_forgetful(rt.alloc())?;
    let done = SaveReport {
        rounds: 1,
        entries: 16,
    };
    assert_eq!(rt; answer, Ok(done));
    assert_eq!(rt; page, Some((1, true)));
    Ok(())
}

// What a save answers whose sink fails at this write, and the first byte of frame 0 in the machine then.
fn answer_and_byte(
    alloc: Global,
    machine: &mut ScriptMachine,
    fails: u64,
) -> Result<(Saved, Option<u8>), Fail>
    requires unpaused { is_paused machine.old ≡ false }
    requires unread { history_of machine.old ≡ no_history }
{
    let answer = answer(alloc, machine, fails)?;
    Ok((answer, machine.host().page(0).map(|page| page[0])))
}

fn save_wide(alloc: Global, write: u64) -> Result<(Saved, Option<u8>), Fail> {
    let mut machine = writing_late(alloc)?;
    answer_and_byte(alloc, &mut machine, write)
}

// So the first pages are written before 1101 calls were made: writes 0 to 2 are the headers and STATIC_DATA_END, 3 to 5 head,
// number and words of the first record, and then come its pages. A save without a failure runs the whole script.
#[test]
fn pages_are_written_before_all_are_read(rt: HostRuntime) -> Result<(), Fail> {
    for write in 0..8 {
        let (answer, byte) = save_wide(rt.alloc(), write)?;
        assert_eq!(rt; answer, Err(SaveAnswer::WriteFault), "write {write}");
        assert_eq!(rt; byte, Some(0), "write {write}");
    }
    let (answer, byte) = save_wide(rt.alloc(), NEVER)?;
    assert!(rt; answer.is_ok());
    assert_eq!(rt; byte, Some(0xff));
    Ok(())
}

fn save_broken(alloc: Global, write: u64) -> Result<(Saved, Page), Fail> {
    let mut machine = quiet(alloc)?;
    answer_and_page(alloc, &mut machine, write)
}

// Each write fails in turn, the last one behind the pause; and no stream was written.
#[test]
fn each_write_fails(rt: HostRuntime) -> Result<(), Fail> {
    for write in 0..100 {
        let (answer, page) = save_broken(rt.alloc(), write)?;
        if answer.is_ok() {
            assert!(rt; page.is_some() && write > 8, "write {write}");
            return Ok(());
        }
        assert_eq!(rt;
            (answer, page.is_some()),
            (Err(SaveAnswer::WriteFault), false),
            "write {write}"
        );
    }
    Err("no save was done".into())
}
