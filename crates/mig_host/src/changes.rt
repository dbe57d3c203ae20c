ghost use Rattle.std.specs.Prelude.{◌≡◌, ℕ, ◌+◌, ◌≤◌, ◌<◌, List, IsSome, Some, None, is_some, true, false, length, replicate};
ghost use Rattle.std.specs.Option.{option_copied, option_map, unwrap_or};
ghost use Rattle.std.specs.FinMap as maps;
ghost use Rattle.mig_pagetypes.specs.declared.page_type.PageType.TheVariants.{Notab};
ghost use Rattle.mig_host.specs.Common.{type_has_data, most_frames, machine_limit, is_type_of, HostFrame, IsValid};
ghost use Rattle.mig_host.specs.HostView.{put_frame, put_part_in};
ghost use Rattle.mig_host.specs.Changes.{raw_page_at, retyped, page_written, typed, exchanged, without_frame};
ghost use Rattle.mig_guest.specs.PartCodes.{is_fixed};

use crate::host::Host;
use mig_guest::PartKey;
use mig_pagetypes::PageType;

impl Host {
    /// Gives a frame another type and page, and takes no memory where it had a page.
    fn retype(&mut self, pfn: u64, kind: PageType, page: Option<&[u8; 4096]>)
        requires there { IsSome (maps.get self.old.host.frames pfn) }
        requires allowed { is_type_of self.old.host.kind kind ≡ true }
        requires paged { is_some page ≡ type_has_data kind }
        requires in_step { is_some (option_copied page) ≡ type_has_data kind }
        requires whole { (bytes : List ℕ) → option_copied page ≡ Some bytes → length bytes ≡ 4096 }
        requires room { raw_page_at self.old.host.frames pfn ≡ None → 1 ≤ self.old.spare }
        ensures host { self.new.host ≡ retyped self.old.host pfn kind (option_copied page.entry) }
        ensures taken { self.old.spare ≤ self.new.spare + 1 }
        ensures in_place { IsSome (raw_page_at self.old.host.frames pfn) → self.old.spare ≤ self.new.spare }
    {
        self.frames.put_spare(pfn, kind, page);
    }

    /// The page of a frame; a zero page where it has none.
    fn page_or_zero(&self, pfn: u64) -> [u8; 4096]
        ensures { result ≡ unwrap_or (raw_page_at self.now.host.frames pfn) (replicate 4096 0) }
    {
        match self.page(pfn) {
            Some(page) => *page,
            None => [0; 4096],
        }
    }

    /// Writes these bytes over those of a frame's raw page, from its byte `at` on. Takes no memory.
    pub fn write(&mut self, pfn: u64, at: usize, bytes: &[u8])
        requires page { IsSome (raw_page_at self.old.host.frames pfn) }
        requires range { at + length bytes.now ≤ 4096 }
        ensures host { self.new.host ≡ page_written self.old.host pfn at bytes.now }
        ensures spare { self.old.spare ≤ self.new.spare }
    {
        let _width = self.width();
        let mut page = self.page_or_zero(pfn);
        page[at..at + bytes.len()].copy_from_slice(bytes);
        if let Some(kind) = self.frame(pfn) {
            self.retype(pfn, kind, Some(&page));
        }
    }

    /// Sets the type of a frame, and takes no memory. A page that comes new is zero, and one that the type doesn't have
    /// goes.
    pub fn set_type(&mut self, pfn: u64, kind: PageType)
        requires there { IsSome (maps.get self.old.host.frames pfn) }
        requires allowed { is_type_of self.old.host.kind kind ≡ true }
        requires room { 1 ≤ self.old.spare }
        ensures host { self.new.host ≡ typed self.old.host pfn kind }
        ensures spare { self.old.spare ≤ self.new.spare + 1 }
    {
        let page = self.page_or_zero(pfn);
        if kind.has_data() {
            self.retype(pfn, kind, Some(&page));
        } else {
            self.retype(pfn, kind, None);
        }
    }

    /// Adds a frame of the ordinary type with a zero page, and takes no memory.
    pub fn add(&mut self, pfn: u64, mfn: u64)
        requires inside { pfn < self.old.host.width }
        requires absent { maps.get self.old.host.frames pfn ≡ None }
        requires some { 0 < mfn }
        requires below { mfn < machine_limit }
        requires unused { (other : ℕ) (frame : HostFrame) → maps.get self.old.host.frames other ≡ Some frame → frame.machine ≡ mfn → ⊥ }
        requires few { length (maps.entries self.old.host.frames) < most_frames }
        requires room { 1 ≤ self.old.spare }
        ensures host { self.new.host ≡ put_frame self.old.host pfn (record { type = Notab; machine = mfn; page = Some (replicate 4096 0) }) }
        ensures spare { self.old.spare ≤ self.new.spare + 1 }
    {
        let page = [0; 4096];
        self.put_spare(pfn, PageType::Notab, mfn, Some(&page));
    }

    /// Takes a frame away. Takes no memory.
    pub fn remove(&mut self, pfn: u64)
        requires { IsSome (maps.get self.old.host.frames pfn) }
        ensures host { self.new.host ≡ without_frame self.old.host pfn }
        ensures spare { self.old.spare ≤ self.new.spare }
    {
        self.frames.remove(pfn);
        self.machines.remove(pfn);
    }

    /// Gives a frame another machine frame, which no frame has. Takes no memory.
    pub fn exchange(&mut self, pfn: u64, mfn: u64)
        requires there { IsSome (maps.get self.old.host.frames pfn) }
        requires some { 0 < mfn }
        requires below { mfn < machine_limit }
        requires unused { (other : ℕ) (frame : HostFrame) → maps.get self.old.host.frames other ≡ Some frame → frame.machine ≡ mfn → ⊥ }
        ensures host { self.new.host ≡ exchanged self.old.host pfn mfn }
        ensures spare { self.old.spare ≤ self.new.spare }
    {
        self.machines.replace(pfn, mfn);
    }

    /// Replaces the bytes of a part by as many others. Takes no memory.
    pub fn put_part(&mut self, key: PartKey, bytes: &[u8])
        requires there { option_map (λ part. length part) (maps.get self.old.host.parts key) ≡ Some (length bytes.now) }
        requires free { is_fixed key.code ≡ false }
        ensures host { self.new.host ≡ put_part_in self.old.host key bytes.now }
        ensures spare { self.new.spare ≡ self.old.spare }
    {
        self.parts.write(key, 0, bytes);
    }
}
