ghost use Rattle.std.specs.Prelude.{◌≡◌, length, OnOk, IfOk, IfSome};
ghost use Rattle.std.specs.FinMap as maps;
ghost use Rattle.mig_dirtysave_parts.specs.Common.{Pv};
ghost use Rattle.mig_dirtysave_parts.specs.KeptParts.{is_early as is_early_code, is_setting as is_setting_code, kept_parts, parts_alone};

use crate::settings::{is_early, is_setting};
use mig_bytes::Memory;
use mig_guest::mig_machine_api::Machine;
use mig_guest::{Guest, PartKey};
use mig_headers::Kind;
use std::alloc::{AllocError, Global};

/// Sets a part of the machine's host in a guest.
fn copy_part<M: Machine>(guest: &mut Guest, machine: &M, key: PartKey) -> Result<(), Memory>
    ensures { OnOk result (IfSome (maps.get (M.state machine.now).host.parts key) (λ bytes. guest.new ≡ record guest.old { parts = maps.insert guest.old.parts key bytes })) }
{
    match machine.part(key) {
        Some(bytes) => guest.set_part(key, bytes),
        None => Ok(()),
    }
}

/// A guest of the machine's kind and width that has neither frames nor parts.
fn bare_guest<M: Machine>(alloc: Global, machine: &M) -> Guest
    ensures { result ≡ parts_alone (M.state machine.now).host.kind (M.state machine.now).host.width maps.empty }
{
    let mut guest = Guest::new(alloc, machine.kind());
    let width = machine.width();
    match machine.kind() {
        Kind::Pv => {
            guest.set_top(width - 1);
            guest
        }
        Kind::Hvm => guest,
    }
}

/// Sets parts of the machine's host in two guests of its kind and width, which have neither frames nor parts. One gets
/// the parts before the frames, the other those behind them, without the context. Where no memory is found, some may be
/// set.
fn fill_parts<M: Machine>(
    early: &mut Guest,
    settings: &mut Guest,
    machine: &M,
) -> Result<(), Memory>
    requires early { early.old ≡ parts_alone (M.state machine.now).host.kind (M.state machine.now).host.width maps.empty }
    requires settings { settings.old ≡ parts_alone (M.state machine.now).host.kind (M.state machine.now).host.width maps.empty }
    ensures early { OnOk result (early.new ≡ parts_alone (M.state machine.now).host.kind (M.state machine.now).host.width (kept_parts is_early_code (M.state machine.now).host.parts)) }
    ensures settings { OnOk result (settings.new ≡ parts_alone (M.state machine.now).host.kind (M.state machine.now).host.width (kept_parts is_setting_code (M.state machine.now).host.parts)) }
{
    let mut after = None;
    while let Some(key) = machine.next_key(after) {
        if is_early(key.code) {
            copy_part(early, machine, key)?;
        } else if is_setting(key.code) {
            copy_part(settings, machine, key)?;
        }
        after = Some(key);
    }
    Ok(())
}

/// Two guests: one has the parts of the machine's host that are before the frames, the other those behind them, without the
/// context.
pub fn copy_parts<M: Machine>(alloc: Global, machine: &M) -> Result<(Guest, Guest), Memory>
    ensures early { IfOk result (λ copied. copied.0 ≡ parts_alone (M.state machine.now).host.kind (M.state machine.now).host.width (kept_parts is_early_code (M.state machine.now).host.parts)) }
    ensures settings { IfOk result (λ copied. copied.1 ≡ parts_alone (M.state machine.now).host.kind (M.state machine.now).host.width (kept_parts is_setting_code (M.state machine.now).host.parts)) }
{
    let mut early = bare_guest(alloc, machine);
    let mut settings = bare_guest(alloc, machine);
    fill_parts(&mut early, &mut settings, machine)?;
    Ok((early, settings))
}

/// So many marks, none of which is set.
fn no_marks(alloc: Global, count: usize) -> Result<Vec<Option<bool>>, AllocError>
    ensures { IfOk result (λ marks. length marks.items ≡ count) }
{
    vec![in alloc; None; count]
}

/// Marks for judging the P2M frames of a PV machine: one for each frame number.
pub fn make_marks<M: Machine>(alloc: Global, machine: &M) -> Result<Vec<Option<bool>>, Memory>
    ensures { IfOk result (λ marks. (M.state machine.now).host.kind ≡ Pv → length marks.items ≡ (M.state machine.now).host.width) }
{
    let width = machine.width() as usize;
    let count = match machine.kind() {
        Kind::Pv => width,
        Kind::Hvm => 0,
    };
    match no_marks(alloc, count) {
        Ok(marks) => Ok(marks),
        Err(_) => Err(Memory),
    }
}
