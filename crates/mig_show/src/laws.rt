ghost use Rattle.std.specs.Prelude.{◌≡◌, ℕ, Bool, List, Option, Some, false};
ghost use Rattle.mig_show.specs.Common.{Data, has_float, compact_text, Cause, Place, Kind};
ghost use Rattle.mig_show.specs.declared.record.Seen1.{Seen1};
ghost use Rattle.mig_show.specs.Smallest.{smallest_tree, smallest_text};
ghost use Rattle.mig_show.specs.Shows.{Shows};
ghost use Rattle.mig_show.specs.Tree.{shown_tree};

/// No number of a tree is a float, so that its JSON text is `compact_text` of it.
pub fn trees_have_no_float()
    ensures { (wrapper : Bool) (version : Option ℕ) (kind : Option Kind) (list : List Seen1) (refused : Option (Place × Cause))
        → has_float (shown_tree wrapper version kind list refused) ≡ false }
{}

/// The smallest HVM stream is shown as this JSON text.
pub fn smallest_stream_is_shown()
    ensures { compact_text smallest_tree ≡ smallest_text }
{}

/// What is shown of an input, with a refusal or without one, is the only tree that can be: one front stands before a place.
pub fn one_tree_is_shown()
    ensures { (input : List ℕ) (left also : Option (List ℕ)) (refused : Option (Place × Cause)) (tree other : Data) → Shows (Some input) left refused tree → Shows (Some input) also refused other → tree ≡ other }
{}
