ghost use Rattle.std.specs.Prelude.{◌≡◌, IfSome};
ghost use Rattle.std.specs.FinMap as maps;
ghost use Rattle.mig_dirtysave_parts.specs.KeptParts.{is_early as is_early_code, is_setting as is_setting_code, kept_parts, parts_alone, part_len, HoldsParts, SameSettings};

use mig_guest::mig_machine_api::Machine;
use mig_guest::{EMULATOR_PAIRS, Guest, PartKey, is_fixed};
use mig_headers::HVM_CONTEXT;

/// Whether a part of this code is before the frames. Its bytes never change while a guest runs.
pub(crate) fn is_early(code: u32) -> bool
    ensures { result ≡ is_early_code code }
{
    is_fixed(code) && code != EMULATOR_PAIRS
}

/// Whether a part of this code is behind the frames. The context isn't among them, which is written where it is.
pub(crate) fn is_setting(code: u32) -> bool
    ensures { result ≡ is_setting_code code }
{
    !is_early(code) && code != HVM_CONTEXT
}

/// Writes the bytes that a part has in the machine over those that it has in a guest.
fn refresh_part<M: Machine>(settings: &mut Guest, machine: &M, key: PartKey)
    requires { part_len (M.state machine.now).host.parts key ≡ part_len settings.old.parts key }
    ensures { IfSome (maps.get (M.state machine.now).host.parts key) (λ bytes. settings.new ≡ record settings.old { parts = maps.insert settings.old.parts key bytes }) }
{
    if let Some(bytes) = machine.part(key) {
        settings.write_part(key, 0, bytes);
    }
}

/// Writes the settings that the machine's host has now over those that are held, which have the same keys and lengths. It
/// takes no memory.
pub fn refresh<M: Machine>(settings: &mut Guest, machine: &M)
    requires held { HoldsParts is_setting_code (M.state machine.now).host.kind (M.state machine.now).host.width settings.old }
    requires same { SameSettings (M.state machine.now).host.parts settings.old.parts }
    ensures { settings.new ≡ parts_alone (M.state machine.now).host.kind (M.state machine.now).host.width (kept_parts is_setting_code (M.state machine.now).host.parts) }
{
    let mut after = None;
    while let Some(key) = machine.next_key(after) {
        if is_setting(key.code) {
            refresh_part(settings, machine, key);
        }
        after = Some(key);
    }
}
