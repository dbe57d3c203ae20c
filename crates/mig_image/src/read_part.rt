ghost use Rattle.std.specs.Prelude.{◌≡◌, ◌==◌, ◌+◌, ◌≤◌, ◌<◌, ⊤, OnOk, IfOk, IfNone, IsErrOf, length, None, if◌then◌else◌};
ghost use Rattle.mig_image.specs.Common.{list_all, TakesBytes, RisesOnReadFault, AgreesWithJudging, Memory, first_named, is_passed, most_policy_entries, IsValid, code_of_number, PartMap, judged_as};
ghost use Rattle.std.specs.FinMap as maps;
ghost use Rattle.mig_headers.specs.declared.kind.Kind.TheVariants.{Pv};
ghost use Rattle.mig_image.specs.GuestImageForm.{part_causes, content_causes, full_policy, part_head_form, part_bytes_form, padding_form, host_part_form, host_parts_form};
ghost use Rattle.mig_image.specs.GuestImageParts.{head_key, code_fits, code_allows, has_part_from};
ghost use Rattle.mig_image.specs.PartCounts.{Counts};

use mig_bytes::{Source, Stop, pad_len, take_long, take_part, u32_le};
use mig_guest::{EMULATOR_PAIRS, PartCode, PartKey};
use mig_headers::{ImageCause, ImagePlace, Kind, MOST_POLICY_ENTRIES};
use mig_host::Host;
use mig_policy::canonical_pairs;
use std::alloc::Global;

/// The codes of the policies' entries.
const CPUID_LEAF: u32 = 17;

const MSR: u32 = 18;

/// How many entries of each policy were read.
#[derive(Clone, Copy)]
pub(crate) struct Entries {
    leaves: u64,
    msrs: u64,
}

impl Entries {
    /// Whether the code is that of a policy's entries, of which there are as many as there may be.
    fn is_full(self, code: u32) -> bool
        ensures { (parts : PartMap) → Counts self parts → result ≡ is_passed (full_policy parts code) }
    {
        (code == CPUID_LEAF && self.leaves >= u64::from(MOST_POLICY_ENTRIES))
            || (code == MSR && self.msrs >= u64::from(MOST_POLICY_ENTRIES))
    }

    /// Counts a part of this code.
    fn count(&mut self, code: u32)
        requires leaves { code ≡ 17 → self.old.leaves < most_policy_entries }
        requires msrs { code ≡ 18 → self.old.msrs < most_policy_entries }
        ensures leaves { self.new.leaves ≡ (if code == 17 then self.old.leaves + 1 else self.old.leaves) }
        ensures msrs { self.new.msrs ≡ (if code == 18 then self.old.msrs + 1 else self.old.msrs) }
    {
        match code {
            CPUID_LEAF => self.leaves += 1,
            MSR => self.msrs += 1,
            _ => {}
        }
    }
}

/// The key in a part's head.
fn key_of(head: &[u8; 16]) -> PartKey
    ensures { result ≡ head_key head.now }
{
    PartKey {
        code: u32_le(head, 0),
        key1: u32_le(head, 4),
        key2: u32_le(head, 8),
    }
}

/// Whether guests of this kind have a part of this key.
fn has_row(kind: Kind, key: PartKey) -> bool
    ensures { result ≡ code_fits (code_of_number key.code) kind key }
{
    match PartCode::from_number(key.code) {
        Some(code) => code.is_of(kind) && code.has_keys(key.key1, key.key2),
        None => false,
    }
}

/// Whether a part of this code may have so many bytes.
fn allows(code: u32, width: u64, len: u32) -> bool
    requires { code ≡ 3 → 1 ≤ width }
    ensures { result ≡ code_allows (code_of_number code) width len }
{
    match PartCode::from_number(code) {
        Some(code) => code.allows(width, len),
        None => false,
    }
}

/// Whether the host has a part of this key or of a greater one.
#[tactic(auto, using(crate::proofs::KeyTests::part_there, crate::proofs::KeyTests::parts_from))]
fn has_from(host: &Host, key: PartKey) -> bool
    ensures { result ≡ has_part_from host.now.host.parts key }
{
    host.part(key).is_some() || host.next_part(Some(key)).is_some()
}

/// What is wrong with the head of a part behind those of the host.
fn part_fault(host: &Host, entries: Entries, head: &[u8; 16]) -> Option<ImageCause>
    requires { Counts entries host.now.host.parts }
    ensures value { result ≡ first_named (part_causes host.now.host head.now) }
    ensures valid { IfNone result (IsValid host.now.host) }
{
    let key = key_of(head);
    let len = u32_le(head, 12);
    if !has_row(host.kind(), key) {
        return Some(ImageCause::PartKey(u64::from(key.code)));
    }
    if has_from(host, key) {
        return Some(ImageCause::PartOrder(u64::from(key.code)));
    }
    if entries.is_full(key.code) {
        return Some(ImageCause::PartMany(u64::from(key.code)));
    }
    if !allows(key.code, host.width(), len) {
        return Some(ImageCause::PartLength(u64::from(len)));
    }
    None
}

/// Takes the head of a part that stands behind those of the host.
#[tactic(auto, unfolding(mig_bytes_form::specs::Form::judged_as))]
fn read_part_head<S: Source>(
    src: &mut S,
    host: &Host,
    entries: Entries,
) -> Result<[u8; 16], Stop<ImageCause>>
    requires { Counts entries host.now.host.parts }
    ensures read { AgreesWithJudging (λ v head. head ≡ v) (S.left src.old) (S.left src.new) (judged_as (part_head_form host.now.host)) result }
    ensures fine { IfOk result (λ head. first_named (part_causes host.now.host head) ≡ None) }
    ensures valid { IfOk result (λ _. IsValid host.now.host) }
    ensures taken { OnOk result (TakesBytes (S.left src.old) (S.left src.new)) }
    ensures faults { RisesOnReadFault (S.faults src.old) (S.faults src.new) result }
    ensures takes_no_memory { ¬ IsErrOf result Memory }
{
    let mut head = [0; 16];
    take_part(src, &mut head, ImageCause::Truncated)?;
    match part_fault(host, entries, &head) {
        Some(cause) => Err(Stop::Refused(cause)),
        None => Ok(head),
    }
}

/// Takes the bytes of a part.
#[tactic(auto, unfolding(mig_bytes_form::specs::Form::judged_as))]
fn read_bytes<S: Source>(
    alloc: Global,
    src: &mut S,
    code: u32,
    len: u32,
) -> Result<Vec<u8>, Stop<ImageCause>>
    ensures read { AgreesWithJudging (λ v bytes. bytes ≡ v.items) (S.left src.old) (S.left src.new) (judged_as (part_bytes_form code len)) result }
    ensures len { IfOk result (λ v. length v.items ≡ len) }
    ensures fine { IfOk result (λ v. first_named (content_causes code v.items) ≡ None) }
    ensures taken { OnOk result (TakesBytes (S.left src.old) (S.left src.new)) }
    ensures faults { RisesOnReadFault (S.faults src.old) (S.faults src.new) result }
{
    let bytes = take_long(alloc, src, len, ImageCause::Truncated)?;
    if code == EMULATOR_PAIRS && !canonical_pairs(&bytes) {
        return Err(Stop::Refused(ImageCause::PartBytes));
    }
    Ok(bytes)
}

/// Whether all these bytes are 0.
fn are_zeros(bytes: &[u8]) -> bool
    ensures { result ≡ list_all (λ b. b == 0) bytes.now }
{
    bytes.iter().all(|byte| *byte == 0)
}

/// Takes the zeros behind so many bytes.
#[tactic(auto, unfolding(mig_bytes_form::specs::Form::judged_as))]
fn read_padding<S: Source>(src: &mut S, len: u32) -> Result<(), Stop<ImageCause>>
    ensures read { AgreesWithJudging (λ _ _. ⊤) (S.left src.old) (S.left src.new) (judged_as (padding_form len)) result }
    ensures taken { OnOk result (TakesBytes (S.left src.old) (S.left src.new)) }
    ensures faults { RisesOnReadFault (S.faults src.old) (S.faults src.new) result }
    ensures takes_no_memory { ¬ IsErrOf result Memory }
{
    let mut zeros = [0; 8];
    let padding = &mut zeros[..pad_len(len)];
    take_part(src, padding, ImageCause::Truncated)?;
    if !are_zeros(padding) {
        return Err(Stop::Refused(ImageCause::PartPadding));
    }
    Ok(())
}

/// Takes a part that stands behind those of the host, and keeps it.
#[tactic(auto, using(crate::proofs::Parts::is_part, crate::proofs::Parts::policy_fits))]
fn read_part<S: Source>(
    alloc: Global,
    src: &mut S,
    host: &mut Host,
    entries: &mut Entries,
) -> Result<(), Stop<ImageCause>>
    requires { Counts entries.old host.old.host.parts }
    ensures read { AgreesWithJudging (λ _ h. host.new.host ≡ h) (S.left src.old) (S.left src.new) (judged_as (host_part_form host.old.host)) result }
    ensures width { OnOk result (host.new.host.width ≡ host.old.host.width) }
    ensures counted { OnOk result (Counts entries.new host.new.host.parts) }
    ensures taken { OnOk result (TakesBytes (S.left src.old) (S.left src.new)) }
    ensures faults { RisesOnReadFault (S.faults src.old) (S.faults src.new) result }
{
    let head = read_part_head(src, host, *entries)?;
    let key = key_of(&head);
    let len = u32_le(&head, 12);
    let bytes = read_bytes(alloc, src, key.code, len)?;
    read_padding(src, len)?;
    entries.count(key.code);
    match host.set_part(key, &bytes) {
        Ok(()) => Ok(()),
        Err(_) => Err(Stop::Memory),
    }
}

/// Takes so many parts.
pub(crate) fn read_parts<S: Source>(
    alloc: Global,
    src: &mut S,
    host: &mut Host,
    count: u64,
) -> Result<(), Stop<(ImagePlace, ImageCause)>>
    requires { host.old.host.parts ≡ maps.empty }
    ensures read { AgreesWithJudging (λ _ h. host.new.host ≡ h) (S.left src.old) (S.left src.new) (judged_as (host_parts_form host.old.host count)) result }
    ensures width { OnOk result (host.new.host.width ≡ host.old.host.width) }
    ensures taken { OnOk result (TakesBytes (S.left src.old) (S.left src.new)) }
    ensures faults { RisesOnReadFault (S.faults src.old) (S.faults src.new) result }
{
    let mut entries = Entries { leaves: 0, msrs: 0 };
    for i in 0..count {
        if let Err(stop) = read_part(alloc, src, host, &mut entries) {
            return Err(stop.at(ImagePlace::Part(i)));
        }
    }
    Ok(())
}
