ghost use Rattle.std.specs.Prelude.{◌≡◌, ℕ, ◌+◌, ◌<◌, ◌≤◌, length, IsSome, IsOk, OnOk, OnErr, IfSome, IfNone};
ghost use Rattle.mig_pagestore.specs.Common.{option_copied, option_copied_mut, nat_cmp, sem, pfn_limit};
ghost use Rattle.std.specs.FinMap as map;
ghost use Rattle.mig_pagestore.specs.Pages.{spliced, IsSmall};

use crate::frame_store::{FrameStore, whole};
use mig_bytes::Memory;
use mig_pagetypes::PageType;
use std::alloc::Global;
use std::marker::Model;

/// Pages by frame number (PFN), and room for spare ones: frames that all have the type of an ordinary page.
#[derive(Drop)]
pub struct PageStore {
    frames: FrameStore,
}

impl Model for PageStore {
    ghost use Rattle.mig_pagestore.specs.Pages.{Store, store_code};
    ghost use Rattle.mig_pagestore.specs.PageView.{pages_seen, HasPages};

    ghost Value = { Store };

    ghost coded = { store_code };

    ghost view = { λ s. record { pages = pages_seen s.frames.frames; spare = s.frames.spare } };

    ghost invariant = { λ s. HasPages s.frames.frames };
}

impl PageStore {
    ghost use Rattle.mig_pagestore.specs.Lending.{LendsStoredPage};

    /// An empty store, which has taken no memory.
    #[tactic(auto, using(crate::proofs::PagesSeen::pages_none, crate::proofs::PagesSeen::none_seen))]
    pub fn new(alloc: Global) -> PageStore
        ensures empty { result.pages ≡ map.empty }
        ensures spare { result.spare ≡ 0 }
    {
        PageStore {
            frames: FrameStore::new(alloc),
        }
    }

    /// The number of pages.
    #[tactic(auto, using(crate::proofs::PagesSeen::len_seen, crate::proofs::PagesSeen::small_seen))]
    pub fn len(&self) -> u64
        ensures count { result ≡ map.len self.now.pages }
        ensures small { IsSmall self.now.pages }
    {
        self.frames.len()
    }

    /// The page of this PFN; none where it isn't there.
    #[tactic(auto, using(crate::proofs::PagesSeen::page_absent, crate::proofs::PagesSeen::page_got))]
    pub fn get(&self, pfn: u64) -> Option<&[u8; 4096]>
        ensures value { option_copied result ≡ map.get self.now.pages pfn }
        ensures whole { IfSome result (λ page. length page.now ≡ 4096) }
        ensures small { IsSome result → pfn < pfn_limit }
    {
        let (_, page) = self.frames.get(pfn)?;
        Some(whole(page?))
    }

    /// Lends the page of this PFN for writing; none where it isn't there.
    pub fn lend(&mut self, pfn: u64) -> Option<&mut [u8; 4096]>
        requires { pfn < pfn_limit }
        ensures* writes_back { sem 𝓛 (LendsStoredPage self.entry pfn result) }
        ensures value { option_copied_mut result ≡ map.get self.old.pages pfn }
    {
        self.frames.lend(pfn)
    }

    /// The least PFN that is there and is at least `pfn`, which may be any number.
    #[tactic(auto, using(crate::proofs::PagesSeen::page_absent, crate::proofs::PagesSeen::page_present))]
    pub fn next_from(&self, pfn: u64) -> Option<u64>
        ensures none { IfNone result ((k : ℕ) → pfn ≤ k → map.get self.now.pages k ≡ None) }
        ensures there { IfSome result (λ q. IsSome (map.get self.now.pages q)) }
        ensures least { IfSome result (λ q. (pfn ≤ q) × ((k : ℕ) → pfn ≤ k → k < q → map.get self.now.pages k ≡ None)) }
        ensures small { IfSome result (λ q. q < pfn_limit) }
    {
        let (pfn, _, _) = self.frames.next(pfn)?;
        Some(pfn)
    }

    /// Makes ready at least `more` spare pages, those included that are spare already. Where no memory is found, all stays,
    /// and nothing that was spare is lost.
    pub fn reserve(&mut self, more: usize) -> Result<(), Memory>
        ensures pages { self.new.pages ≡ self.old.pages }
        ensures ready { OnOk result (more ≤ self.new.spare) }
        ensures kept { self.old.spare ≤ self.new.spare }
        ensures enough { more ≤ self.old.spare → IsOk result }
    {
        self.frames.reserve(more)
    }

    /// Sets the page of this PFN, and takes no memory: a PFN that wasn't there takes a spare page.
    #[tactic(auto, using(crate::proofs::PagesSeen::pages_put, crate::proofs::PagesSeen::put_seen, crate::proofs::PagesSeen::page_seen))]
    pub fn put_spare(&mut self, pfn: u64, page: &[u8; 4096])
        requires small { pfn < pfn_limit }
        requires room { map.get self.old.pages pfn ≡ None → 1 ≤ self.old.spare }
        ensures pages { self.new.pages ≡ map.insert self.old.pages pfn page.now }
        ensures taken { self.old.spare ≤ self.new.spare + 1 }
        ensures in_place { IsSome (map.get self.old.pages pfn) → self.new.spare ≡ self.old.spare }
    {
        self.frames.put_spare(pfn, PageType::Notab, Some(page));
    }

    /// Sets the page of this PFN; where no memory is found, the pages stay.
    pub fn put(&mut self, pfn: u64, page: &[u8; 4096]) -> Result<(), Memory>
        requires { pfn < pfn_limit }
        ensures ok { OnOk result (self.new.pages ≡ map.insert self.old.pages pfn page.now) }
        ensures err { OnErr result (self.new.pages ≡ self.old.pages) }
        ensures taken { self.old.spare ≤ self.new.spare + 1 }
        ensures in_place { IsSome (map.get self.old.pages pfn) → IsOk result }
        ensures ready { 1 ≤ self.old.spare → IsOk result }
    {
        if self.get(pfn).is_none() {
            self.reserve(1)?;
        }
        self.put_spare(pfn, page);
        Ok(())
    }

    /// Takes the page of this PFN away, and tells whether it was there.
    #[tactic(auto, using(crate::proofs::PagesSeen::pages_out, crate::proofs::PagesSeen::out_seen))]
    pub fn remove(&mut self, pfn: u64) -> bool
        requires { pfn < pfn_limit }
        ensures was { result ≡ map.contains_key self.old.pages pfn }
        ensures pages { self.new.pages ≡ map.remove self.old.pages pfn }
        ensures spare { self.old.spare ≤ self.new.spare }
    {
        let was = self.get(pfn).is_some();
        self.frames.remove(pfn);
        was
    }

    /// Writes `bytes` over those of one page from its byte `at` on.
    pub fn overwrite(&mut self, pfn: u64, at: usize, bytes: &[u8])
        requires small { pfn < pfn_limit }
        requires there { IsSome (map.get self.old.pages pfn) }
        requires range { at + length bytes.now ≤ 4096 }
        ensures pages { IfSome (map.get self.old.pages pfn) (λ page. self.new.pages ≡ map.insert self.old.pages pfn (spliced page at bytes.now)) }
        ensures spare { self.new.spare ≡ self.old.spare }
    {
        // To the proof a page that is read tells its size, one that is lent doesn't.
        let _page = self.get(pfn);
        let page = self.lend(pfn).unwrap();
        page[at..at + bytes.len()].copy_from_slice(bytes);
    }
}
