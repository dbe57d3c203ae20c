ghost use Rattle.std.specs.Prelude.{◌≡◌, ◌≤◌, ◌<◌, ℕ, List, length, Some, IfSome};
ghost use Rattle.mig_pvtables.specs.Common.{nat_cmp, option_map, PartKey, part_cmp, p2m_key, NextPart};
ghost use Rattle.std.specs.FinMap as maps;
ghost use Rattle.mig_pvtables.specs.Blank.{each_value};
ghost use Rattle.mig_pvtables.specs.BlankSteps.{only, with_table_changed, with_other_page, written_where_listed, blanked_code};
ghost use Rattle.mig_pvtables.specs.P2mFrames.{count_in};

use crate::listing::{listed_pfn, sole_key};
use crate::vcpu::VCPU_BASIC;
use mig_guest::{Guest, PartCode, PartKey, Parts};

/// What becomes of a table of a guest.
pub trait TableStep {
    /// The table afterwards, by its level and the table before.
    ghost tables: { Self → ℕ → List ℕ → List ℕ };

    /// What a step relies on.
    ghost can_change: { Self → Type 0 } = { λ _. Unit {0} };

    /// Changes a table of this level.
    fn change_table(&self, page: &mut [u8; 4096], level: u8)
        requires can { can_change self.now }
        requires least { 1 ≤ level }
        requires most { level ≤ 4 }
        ensures table { page.new ≡ tables self.now level page.old }
        ensures size { length page.new ≡ 4096 };
}

/// What becomes of the page of a P2M frame.
pub trait P2mStep {
    /// The page of P2M frame k afterwards.
    ghost pages: { Self → ℕ → List ℕ };

    /// What a step at an index relies on.
    ghost can_write: { Self → ℕ → Type 0 } = { λ _ _. Unit {0} };

    /// Writes the page of P2M frame `index`.
    fn write_page(&self, page: &mut [u8; 4096], index: u64)
        requires { can_write self.now index }
        ensures page { page.new ≡ pages self.now index }
        ensures size { length page.new ≡ 4096 };
}

/// What becomes of the context of a vCPU.
pub trait ContextStep {
    /// The context afterwards, by the vCPU's id and the context before.
    ghost contexts: { Self → ℕ → List ℕ → List ℕ };

    /// What a step relies on.
    ghost can_change: { Self → Type 0 } = { λ _. Unit {0} };

    /// Changes the context of the vCPU with this id.
    fn change_context(&self, context: &mut [u8; 5168], id: u32)
        requires { can_change self.now }
        ensures { context.new ≡ contexts self.now id context.old };
}

/// Changes the page of this frame, where the frame is a table.
fn change_frame<S: TableStep>(guest: &mut Guest, pfn: u64, step: &S)
    requires { S.can_change step.now }
    ensures { guest.new ≡ record guest.old { frames = each_value (only nat_cmp pfn (with_table_changed (S.tables step.now))) guest.old.frames } }
{
    let Some(kind) = guest.frame(pfn) else {
        return;
    };
    let Some(level) = kind.table_level() else {
        return;
    };
    if let Some(page) = guest.page_mut(pfn) {
        step.change_table(page, level);
    }
}

/// Changes each table of a guest, in the order of their frame numbers.
pub fn each_table<S: TableStep>(guest: &mut Guest, step: &S)
    requires { S.can_change step.now }
    ensures { guest.new ≡ record guest.old { frames = each_value (λ _ frame. with_table_changed (S.tables step.now) frame) guest.old.frames } }
{
    let mut from = 0;
    while let Some(pfn) = guest.next_frame(from) {
        change_frame(guest, pfn, step);
        from = pfn + 1;
    }
}

/// The page of this frame becomes that of P2M frame `index`, where it has one.
fn write_frame<S: P2mStep>(guest: &mut Guest, pfn: u64, index: u64, step: &S)
    requires { S.can_write step.now index }
    ensures { guest.new ≡ record guest.old { frames = each_value (only nat_cmp pfn (with_other_page (S.pages step.now index))) guest.old.frames } }
{
    if let Some(page) = guest.page_mut(pfn) {
        step.write_page(page, index);
    }
}

/// How many P2M frames are listed.
fn listed_count(parts: &Parts) -> usize
    ensures { result ≡ count_in (maps.get parts.now p2m_key) }
{
    match parts.get(sole_key(PartCode::P2mFrames)) {
        Some(list) => list.len() / 8,
        None => 0,
    }
}

/// Writes the page of each P2M frame; one that is listed more than once gets the page of its first place. The list is
/// walked from its end, so that this is written last.
pub fn each_p2m_frame<S: P2mStep>(guest: &mut Guest, step: &S)
    requires { (k : ℕ) → k < count_in (maps.get guest.old.parts p2m_key) → S.can_write step.now k }
    ensures { guest.new ≡ record guest.old { frames = each_value (written_where_listed guest.old.parts (S.pages step.now)) guest.old.frames } }
{
    let mut index = listed_count(guest.parts());
    while 0 < index {
        index -= 1;
        if let Some(pfn) = listed_pfn(guest.parts(), index) {
            write_frame(guest, pfn, index as u64, step);
        }
    }
}

/// The context of a vCPU with the least key above `after`, or of all.
pub fn next_context(parts: &Parts, after: Option<PartKey>) -> Option<(PartKey, &[u8; 5168])>
    requires contexts { (key : PartKey) (context : List ℕ) → maps.get parts.now key ≡ Some context → key.code ≡ 4 → length context ≡ 5168 }
    requires code { IfSome after (λ key. key.code ≡ 4) }
    ensures next { NextPart 4 after (maps.entries parts.now) (option_map (λ e. (e.0, e.1.now)) result) }
    ensures code { IfSome result (λ e. e.0.code ≡ 4) }
{
    let (key, bytes) = parts.next_of_code(VCPU_BASIC, after)?;
    Some((key, bytes.as_array::<5168>().unwrap()))
}

/// Changes the context of this key, where there is one.
fn change_vcpu<S: ContextStep>(guest: &mut Guest, key: PartKey, step: &S)
    requires can { S.can_change step.now }
    requires long { IfSome (maps.get guest.old.parts key) (λ context. length context ≡ 5168) }
    ensures { guest.new ≡ record guest.old { parts = each_value (only part_cmp key (S.contexts step.now key.key1)) guest.old.parts } }
{
    let Some(bytes) = guest.part(key) else {
        return;
    };
    let mut context = *bytes.as_array::<5168>().unwrap();
    step.change_context(&mut context, key.key1);
    guest.write_part(key, 0, &context);
}

/// Changes the context of each vCPU of a guest, in the order of their keys.
pub fn each_context<S: ContextStep>(guest: &mut Guest, step: &S)
    requires can { S.can_change step.now }
    requires long { (key : PartKey) (context : List ℕ) → maps.get guest.old.parts key ≡ Some context → key.code ≡ 4 → length context ≡ 5168 }
    ensures { guest.new ≡ record guest.old { parts = each_value (blanked_code 4 (λ key. S.contexts step.now key.key1)) guest.old.parts } }
{
    let mut after = None;
    while let Some((key, _)) = guest.next_of_code(VCPU_BASIC, after) {
        change_vcpu(guest, key, step);
        after = Some(key);
    }
}
