ghost use Rattle.std.specs.Prelude.{◌≡◌, ◌<◌, ◌+◌, ℕ, List, ◌++◌, length, Some, None};
ghost use Rattle.std.specs.declared.option.Option.{Option};
ghost use Rattle.std.specs.FinMap as maps;
ghost use Rattle.mig_placed.specs.Common.{type_has_data, PageType, ValueMap, framed};
ghost use Rattle.mig_placed.specs.InFile.{place_limit, place_for, with_place, page_in_file, frames_in_file};
ghost use Rattle.mig_placed.specs.Joined.{EndAllWithin};
ghost use Rattle.mig_placed.specs.Runs.{frames_after};

/// With any file places read as frames, and as many. No places read as none. Places with one set read as the frames
/// with that one set, and its page is the one at this place. From number 0 on they are all frames.
#[tactic(auto, using(crate::proofs::Seen::none_placed, crate::proofs::Seen::set_placed, crate::proofs::Seen::len_placed, crate::proofs::Seen::all_placed))]
pub fn places_read_as_frames()
    ensures none { (file : Option (List ℕ)) → frames_in_file file maps.empty ≡ maps.empty }
    ensures set { (file : Option (List ℕ)) (cells : ValueMap) (pfn : ℕ) (type : PageType) (at : ℕ) → at < place_limit
        → frames_in_file file (with_place cells pfn type at) ≡ framed (frames_in_file file cells) pfn type (page_in_file file (place_for (type_has_data type) at)) }
    ensures count { (file : Option (List ℕ)) (cells : ValueMap) → maps.len (frames_in_file file cells) ≡ maps.len cells }
    ensures all { (file : Option (List ℕ)) (cells : ValueMap) → frames_after file cells 0 ≡ maps.entries (frames_in_file file cells) }
{}

/// The page behind so many bytes of a file is what is there, where that is a whole page. At place 0 there is none.
#[tactic(auto, using(crate::proofs::Seen::page_stands, crate::proofs::Seen::no_page_at_0))]
pub fn page_is_where_it_stands()
    ensures there { (front page rest : List ℕ) → length page ≡ 4096 → page_in_file (Some (front ++ (page ++ rest))) (length front + 1) ≡ Some page }
    ensures none { (file : Option (List ℕ)) → page_in_file file 0 ≡ None }
{}

/// Places that end within a file read the same where more bytes are behind it, and a place behind them as the page among
/// those bytes.
#[tactic(auto, using(crate::proofs::Patches::same_frames, crate::proofs::Patches::page_behind))]
pub fn places_stay_where_more_is_behind()
    ensures within { (all more : List ℕ) (cells : ValueMap) → EndAllWithin (length all) cells → frames_in_file (Some (all ++ more)) cells ≡ frames_in_file (Some all) cells }
    ensures behind { (all more : List ℕ) (at : ℕ) → page_in_file (Some (all ++ more)) ((length all + at) + 1) ≡ page_in_file (Some more) (at + 1) }
{}
