ghost use Rattle.std.specs.Prelude.{◌≡◌, ◌==◌, ℕ, ◌+◌, ◌<◌, ◌≤◌, ◌⊎◌, List, [], length, take, drop, flat_map, not, IsOk, OnOk, OnErr, IfSome, IfNone, IsSome, None, Some, Err, true, is_some, option_and_then};
ghost use Rattle.std.specs.Option.{option_copied, option_copied_mut, option_map, unwrap_or};
ghost use Rattle.std.specs.FinMap as maps;
ghost use Rattle.mig_guest.specs.Common.{sem, type_has_data, pfn_limit, Xtab, spliced};
ghost use Rattle.mig_bytes.specs.declared.stop.Stop.TheVariants as stops;
ghost use Rattle.mig_guest.specs.declared.part_key.PartKey.{PartKey};
ghost use Rattle.mig_guest.specs.Frames.{framed, IsSized, entries_from, NextEntry};
ghost use Rattle.mig_guest.specs.Parts.{NextPart, NextBehind, NextKey};

use crate::part_key::PartKey;
use crate::parts::{Parts, bytes_mut};
use mig_bytes::{Memory, Stop};
use mig_headers::Kind;
use mig_pagestore::{Fill, FrameStore};
use mig_pagetypes::PageType;
use std::alloc::Global;
use std::marker::Model;

/// A guest: its kind, its top, its frames by number (PFN) and its parts by key.
#[derive(Drop)]
pub struct Guest {
    kind: Kind,
    top: u64,
    frames: FrameStore,
    parts: Parts,
}

impl Model for Guest {
    ghost use Rattle.mig_guest.specs.Guests.{GuestOf, guest_code};

    ghost Value = { GuestOf };

    ghost coded = { guest_code };

    ghost view = { λ g. record { kind = g.kind; top = g.top; frames = g.frames.frames; parts = g.parts } };
}

impl Guest {
    ghost use Rattle.mig_guest.specs.Lending.{LendsGuestPage, LendsGuestPart, LendsGuestBytes};

    /// A guest with no frames, no parts and top 0.
    pub fn new(alloc: Global, kind: Kind) -> Guest
        ensures { result ≡ record { kind = kind; top = 0; frames = maps.empty; parts = maps.empty } }
    {
        Guest {
            kind,
            top: 0,
            frames: FrameStore::new(alloc),
            parts: Parts::new(alloc),
        }
    }

    /// The kind of guest.
    pub fn kind(&self) -> Kind
        ensures { result ≡ self.now.kind }
    {
        self.kind
    }

    /// The greatest frame number that a PV guest may use; 0 for HVM.
    pub fn top(&self) -> u64
        ensures { result ≡ self.now.top }
    {
        self.top
    }

    /// Sets the greatest frame number that a PV guest may use.
    pub fn set_top(&mut self, top: u64)
        ensures { self.new ≡ record self.old { top = top } }
    {
        self.top = top;
    }

    /// Sets the type of a frame, and its page where the type has data; XTAB takes the frame away. Where no memory is
    /// found, the guest stays.
    pub fn set_frame(
        &mut self,
        pfn: u64,
        kind: PageType,
        page: Option<&[u8; 4096]>,
    ) -> Result<(), Memory>
        requires small { pfn < pfn_limit }
        requires paged { is_some page ≡ type_has_data kind }
        ensures ok { OnOk result (self.new ≡ record self.old { frames = framed self.old.frames pfn kind (option_copied page.entry) }) }
        ensures err { OnErr result (self.new ≡ self.old) }
        ensures taken { kind ≡ Xtab → IsOk result }
    {
        self.frames.set(pfn, kind, page)
    }

    /// Sets the type of a frame with data, and has its page filled in its place. Behind an error the guest is as it was:
    /// where the filler stopped, or no memory was found, with nothing taken from the source.
    pub fn set_filled<S, F: Fill<S>>(
        &mut self,
        pfn: u64,
        kind: PageType,
        src: &mut S,
        fill: &F,
    ) -> Result<(), Stop<F::Cause>>
        requires small { pfn < pfn_limit }
        requires paged { type_has_data kind ≡ true }
        ensures ok { OnOk result ((page : List ℕ) × F.fills fill.now src.old src.new page result × (self.new ≡ record self.old { frames = framed self.old.frames pfn kind (Some page) })) }
        ensures err { OnErr result (self.new ≡ self.old) }
        ensures stopped { OnErr result (((page : List ℕ) × F.fills fill.now src.old src.new page result) ⊎ ((result ≡ Err stops.Memory) × (src.new ≡ src.old))) }
    {
        self.frames.set_filled(pfn, kind, src, fill)
    }

    /// The type of this frame; none where the guest doesn't have it.
    pub fn frame(&self, pfn: u64) -> Option<PageType>
        ensures { result ≡ option_map (λ f. f.type) (maps.get self.now.frames pfn) }
    {
        match self.frames.get(pfn) {
            Some((kind, _)) => Some(kind),
            None => None,
        }
    }

    /// The page of this frame; none where there is no frame, or its type has no data.
    pub fn page(&self, pfn: u64) -> Option<&[u8; 4096]>
        ensures { option_copied result ≡ option_and_then (λ f. f.page) (maps.get self.now.frames pfn) }
    {
        match self.frames.get(pfn) {
            Some((_, page)) => page,
            None => None,
        }
    }

    /// Lends the page of this frame for writing; none where there is no frame, or its type has no data.
    pub fn page_mut(&mut self, pfn: u64) -> Option<&mut [u8; 4096]>
        ensures* writes_back { sem 𝓛 (LendsGuestPage self.entry pfn result) }
        ensures value { option_copied_mut result ≡ option_and_then (λ f. f.page) (maps.get self.old.frames pfn) }
    {
        self.frames.lend(pfn)
    }

    /// The least PFN that has a frame and is at least `from`, which may be any number.
    pub fn next_frame(&self, from: u64) -> Option<u64>
        ensures none { IfNone result ((k : ℕ) → from ≤ k → maps.get self.now.frames k ≡ None) }
        ensures there { IfSome result (λ q. IsSome (maps.get self.now.frames q)) }
        ensures least { IfSome result (λ q. (from ≤ q) × ((k : ℕ) → from ≤ k → k < q → maps.get self.now.frames k ≡ None)) }
        ensures small { IfSome result (λ q. q < pfn_limit) }
    {
        match self.frames.next(from) {
            Some((pfn, _, _)) => Some(pfn),
            None => None,
        }
    }

    /// The first frame from this number on, with its type and its page.
    pub fn next_entry(&self, from: u64) -> Option<(u64, PageType, Option<&[u8; 4096]>)>
        ensures next { NextEntry from (maps.entries self.now.frames) (option_map (λ e. (e.0, record { type = e.1; page = option_copied e.2 })) result) }
        ensures small { IfSome result (λ e. e.0 < pfn_limit) }
        ensures paged { IfSome result (λ e. is_some e.2 ≡ type_has_data e.1) }
    {
        self.frames.next(from)
    }

    /// The pages of the frames from this number on, where they lie one behind another, at most so many: the number behind
    /// them, how many they are, and their bytes. None need lie so.
    pub fn page_run(&self, from: u64, most: u32) -> (u64, u32, &[u8])
        ensures bytes { result.2.now ≡ flat_map (λ e. unwrap_or e.1.page []) (take result.1 (entries_from from (maps.entries self.now.frames))) }
        ensures next { entries_from result.0 (maps.entries self.now.frames) ≡ drop result.1 (entries_from from (maps.entries self.now.frames)) }
        ensures most { result.1 ≤ most }
    {
        match self.frames.next(from) {
            Some((pfn, _, _)) => {
                let (count, bytes) = self.frames.page_run(pfn, most);
                (pfn + u64::from(count), count, bytes)
            }
            None => (from, 0, &[]),
        }
    }

    /// The number of frames.
    pub fn frames(&self) -> u64
        ensures count { result ≡ maps.len self.now.frames }
        ensures sized { IsSized self.now.frames }
    {
        self.frames.len()
    }

    /// Sets the bytes of a part; where no memory is found, the guest stays.
    pub fn set_part(&mut self, key: PartKey, bytes: &[u8]) -> Result<(), Memory>
        ensures ok { OnOk result (self.new ≡ record self.old { parts = maps.insert self.old.parts key bytes.now }) }
        ensures err { OnErr result (self.new ≡ self.old) }
    {
        self.parts.set(key, bytes)
    }

    /// Writes `bytes` over those of a part from its byte `at` on.
    pub fn write_part(&mut self, key: PartKey, at: usize, bytes: &[u8])
        requires there { IsSome (maps.get self.old.parts key) }
        requires range { IfSome (maps.get self.old.parts key) (λ part. at + length bytes.now ≤ length part) }
        ensures { IfSome (maps.get self.old.parts key) (λ part. self.new ≡ record self.old { parts = maps.insert self.old.parts key (spliced part at bytes.now) }) }
    {
        self.parts.write(key, at, bytes);
    }

    /// The bytes of a part; none where the guest doesn't have it.
    pub fn part(&self, key: PartKey) -> Option<&[u8]>
        ensures { option_copied result ≡ maps.get self.now.parts key }
    {
        self.parts.get(key)
    }

    /// Lends a part as it is kept.
    fn lend_part(&mut self, key: PartKey) -> Option<&mut Vec<u8>>
        ensures* writes_back { sem 𝓛 (LendsGuestPart self.entry key result) }
        ensures value { option_map (λ v. v.items) (option_copied_mut result) ≡ maps.get self.old.parts key }
    {
        self.parts.lend(key)
    }

    /// Lends the bytes of a part for writing, which keep their number; none where the guest doesn't have it.
    pub fn part_mut(&mut self, key: PartKey) -> Option<&mut [u8]>
        ensures* writes_back { sem 𝓛 (LendsGuestBytes self.entry key result) }
        ensures value { option_copied_mut result ≡ maps.get self.old.parts key }
    {
        match self.lend_part(key) {
            Some(part) => Some(bytes_mut(part)),
            None => None,
        }
    }

    /// The least key of a part that is above `after`, or of all parts.
    pub fn next_part(&self, after: Option<PartKey>) -> Option<PartKey>
        ensures { NextKey self.now.parts after result }
    {
        self.parts.next(after)
    }

    /// The part with the least key above `after`, or of all parts, with its bytes.
    pub fn next_behind(&self, after: Option<PartKey>) -> Option<(PartKey, &[u8])>
        ensures next { NextBehind after (maps.entries self.now.parts) (option_map (λ e. (e.0, e.1.now)) result) }
    {
        self.parts.next_behind(after)
    }

    /// The part with the least key among those of this code that are above `after`, or among all of them.
    pub fn next_of_code(&self, code: u32, after: Option<PartKey>) -> Option<(PartKey, &[u8])>
        requires { IfSome after (λ k. k.code ≡ code) }
        ensures next { NextPart code after (maps.entries self.now.parts) (option_map (λ e. (e.0, e.1.now)) result) }
    {
        self.parts.next_of_code(code, after)
    }

    /// Takes all parts of one code away.
    pub fn clear_code(&mut self, code: u32)
        ensures { self.new ≡ record self.old { parts = maps.retain_keys self.old.parts (λ k. not (k.code == code)) } }
    {
        self.parts.clear_code(code);
    }

    /// The frames, to look at.
    pub fn frame_store(&self) -> &FrameStore
        ensures { result.now.frames ≡ self.now.frames }
    {
        &self.frames
    }

    /// The parts, to look at.
    pub fn parts(&self) -> &Parts
        ensures { result.now ≡ self.now.parts }
    {
        &self.parts
    }

    /// The frames, with the room that is spare, and the parts.
    pub fn into_frames_and_parts(self) -> (FrameStore, Parts)
        ensures frames { result.0.frames ≡ self.frames }
        ensures parts { result.1 ≡ self.parts }
    {
        (self.frames, self.parts)
    }
}
