ghost use Rattle.std.specs.Prelude.{◌≡◌, ◌≤◌, ◌<◌, ℕ, List, Option, Some, IfSome, IfNone, length, option_and_then};
ghost use Rattle.std.specs.FinMap as maps;
ghost use Rattle.std.specs.Option.{option_copied, option_map};
ghost use Rattle.mig_walk.specs.Common.{level_of, vcpu_key, Root, said_by, Standing, said_in, in_stream, in_host};
ghost use Rattle.mig_walk.specs.Walks.{IsTableOf};

use mig_guest::{Entry, Guest, PartKey};
use mig_host::Host;
use mig_pagetypes::PageType;
use mig_pvtables::{Frames, VCPU_BASIC, entry, vcpu_frame};

/// The field of a vCPU's context that names its root: ctrlreg[3].
const ROOT: u8 = 17;

/// A guest, wherever it stands, in which addresses are walked.
pub(crate) trait Levels {
    /// How it stands.
    ghost standing: { Self → Standing };

    /// What ctrlreg[3] of a vCPU names.
    fn root(&self, vcpu: u32) -> Option<u64>
        requires { (context : List ℕ) → maps.get (standing self.now).parts (vcpu_key vcpu) ≡ Some context → length context ≡ 5168 }
        ensures { result ≡ option_map (said_by Root) (maps.get (standing self.now).parts (vcpu_key vcpu)) };

    /// The PFN of the frame that a number in a field or an entry names.
    fn named(&self, number: u64) -> Option<u64>
        ensures { result ≡ (standing self.now).names number };

    /// The type of a frame.
    fn kind_of(&self, pfn: u64) -> Option<PageType>
        ensures { result ≡ (standing self.now).types pfn };

    /// What a slot of a frame says, where that is a table of this level.
    fn entry_of(&self, pfn: u64, level: u8, slot: usize) -> Option<Entry>
        requires least { 1 ≤ level }
        requires most { level ≤ 4 }
        requires slot { slot < 512 }
        ensures table { IfSome result (λ e. IsTableOf (standing self.now) level pfn) }
        ensures other { IfNone result (IsTableOf (standing self.now) level pfn → ⊥) }
        ensures said { IfSome result (λ e. (standing self.now).says pfn slot ≡ e) };
}

/// The key of a vCPU's context.
pub(crate) fn key_of(vcpu: u32) -> PartKey
    ensures { result ≡ vcpu_key vcpu }
{
    PartKey {
        code: VCPU_BASIC,
        key1: vcpu,
        key2: 0,
    }
}

/// What ctrlreg[3] names in the context of a vCPU, where that is there.
pub(crate) fn root_in(context: Option<&[u8]>, vcpu: u32) -> Option<u64>
    requires { IfSome (option_copied context) (λ bytes. length bytes ≡ 5168) }
    ensures { result ≡ option_map (said_by Root) (option_copied context.entry) }
{
    vcpu_frame(context?.as_array::<5168>().unwrap(), vcpu, ROOT)
}

/// What a slot of a frame of this type says, where that is a table of this level. One without a page says nothing.
pub(crate) fn entry_in(
    kind: Option<PageType>,
    page: Option<&[u8; 4096]>,
    level: u8,
    slot: usize,
) -> Option<Entry>
    requires least { 1 ≤ level }
    requires most { level ≤ 4 }
    requires slot { slot < 512 }
    ensures table { IfSome result (λ e. option_and_then level_of kind ≡ Some level) }
    ensures other { IfNone result (option_and_then level_of kind ≡ Some level → ⊥) }
    ensures said { IfSome result (λ e. said_in (Some level) (option_copied page.entry) slot ≡ e) }
{
    if kind?.table_level()? != level {
        return None;
    }
    match page {
        Some(page) => Some(entry(page, level, slot)),
        None => Some(Entry::NotPresent),
    }
}

impl Levels for Guest {
    ghost standing = { in_stream };

    fn root(&self, vcpu: u32) -> Option<u64> {
        root_in(self.part(key_of(vcpu)), vcpu)
    }

    fn named(&self, number: u64) -> Option<u64> {
        self.frame(number)?;
        Some(number)
    }

    fn kind_of(&self, pfn: u64) -> Option<PageType> {
        self.frame(pfn)
    }

    fn entry_of(&self, pfn: u64, level: u8, slot: usize) -> Option<Entry> {
        entry_in(self.frame(pfn), self.page(pfn), level, slot)
    }
}

impl Levels for Host {
    ghost standing = { λ h. in_host h.host };

    fn root(&self, vcpu: u32) -> Option<u64> {
        root_in(self.part(key_of(vcpu)), vcpu)
    }

    fn named(&self, number: u64) -> Option<u64> {
        self.pfn_of(number)
    }

    fn kind_of(&self, pfn: u64) -> Option<PageType> {
        self.frame(pfn)
    }

    fn entry_of(&self, pfn: u64, level: u8, slot: usize) -> Option<Entry> {
        entry_in(self.frame(pfn), self.page(pfn), level, slot)
    }
}
