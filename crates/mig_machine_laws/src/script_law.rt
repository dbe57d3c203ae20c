ghost use Rattle.std.specs.Prelude.{◌≡◌, ◌≢◌, ◌≤◌, ◌⊎◌, ◌↔◌, ◌+◌, ◌++◌, ℕ, List, length, take, drop, replicate, true, false, Some, None};
ghost use Rattle.std.specs.FinMap as maps;
ghost use Rattle.mig_machine_laws.specs.Common.{HostFrame, HostOf, LineOf, PageType, Pfns, after_line, applies, logged_after, type_has_data, type_of};
ghost use Rattle.mig_machine_laws.specs.ScriptWords.{IsNamedIn, MayApply, NamesPfn, frame_after, is_allowed_number};
ghost use Rattle.mig_machine_script.specs.ScriptLines.LineOf.{Write, Retype, Add, Remove, Exchange, Put};
ghost use Rattle.mig_pagetypes.specs.declared.page_type.PageType.TheVariants.{Notab};

/// A line of a script applies exactly where what its letter asks for stands.
#[tactic(auto, using(crate::proofs::LinesApply::asked))]
pub fn lines_apply_where_asked()
    ensures { (h : HostOf) (line : LineOf) → (applies h line ≡ true) ↔ MayApply h line }
{}

/// Behind some lines a frame number is in the log exactly where it was in it, or a line `w`, `t`, `a`, `r` or `x` named
/// it and applied. Whether that changed something doesn't matter.
#[tactic(auto, using(crate::proofs::LinesNamed::logged))]
pub fn lines_log_what_they_name()
    ensures { (pfn : ℕ) (h : HostOf) (lines : List LineOf) (log : Pfns) → (logged_after h lines log pfn ≡ true) ↔ ((log pfn ≡ true) ⊎ IsNamedIn pfn h lines) }
{}

/// What a line leaves where it applies: the frame that it names, or the part, has become this.
#[tactic(auto, using(crate::proofs::LinesLeave::write, crate::proofs::LinesLeave::add, crate::proofs::LinesLeave::remove, crate::proofs::LinesLeave::exchange, crate::proofs::LinesLeave::put))]
pub fn lines_leave_what_they_say()
    ensures write { (h : HostOf) (pfn at : ℕ) (bytes page : List ℕ) (frame : HostFrame) → maps.get h.frames pfn ≡ Some frame → frame.page ≡ Some page → at + length bytes ≤ 4096
        → frame_after h (Write pfn at bytes) pfn ≡ Some (record frame { page = Some ((take at page ++ bytes) ++ drop (at + length bytes) page) }) }
    ensures retype_keeps { (h : HostOf) (pfn number : ℕ) (frame : HostFrame) (type : PageType) (page : List ℕ) → maps.get h.frames pfn ≡ Some frame → type_of number ≡ Some type → is_allowed_number h.kind number ≡ true
        → type_has_data type ≡ true → frame.page ≡ Some page → frame_after h (Retype pfn number) pfn ≡ Some (record { type = type; machine = frame.machine; page = Some page }) }
    ensures retype_zeros { (h : HostOf) (pfn number : ℕ) (frame : HostFrame) (type : PageType) → maps.get h.frames pfn ≡ Some frame → type_of number ≡ Some type → is_allowed_number h.kind number ≡ true
        → type_has_data type ≡ true → frame.page ≡ None → frame_after h (Retype pfn number) pfn ≡ Some (record { type = type; machine = frame.machine; page = Some (replicate 4096 0) }) }
    ensures retype_drops { (h : HostOf) (pfn number : ℕ) (frame : HostFrame) (type : PageType) → maps.get h.frames pfn ≡ Some frame → type_of number ≡ Some type → is_allowed_number h.kind number ≡ true
        → type_has_data type ≡ false → frame_after h (Retype pfn number) pfn ≡ Some (record { type = type; machine = frame.machine; page = None }) }
    ensures add { (h : HostOf) (pfn mfn : ℕ) → MayApply h (Add pfn mfn) → frame_after h (Add pfn mfn) pfn ≡ Some (record { type = Notab; machine = mfn; page = Some (replicate 4096 0) }) }
    ensures remove { (h : HostOf) (pfn : ℕ) → MayApply h (Remove pfn) → frame_after h (Remove pfn) pfn ≡ None }
    ensures exchange { (h : HostOf) (pfn mfn : ℕ) (frame : HostFrame) → maps.get h.frames pfn ≡ Some frame → MayApply h (Exchange pfn mfn) → frame_after h (Exchange pfn mfn) pfn ≡ Some (record frame { machine = mfn }) }
    ensures put { (h : HostOf) (code first second : ℕ) (bytes : List ℕ) → MayApply h (Put code first second bytes)
        → maps.get (after_line h (Put code first second bytes)).parts (record { code = code; key1 = first; key2 = second }) ≡ Some bytes }
{}

/// A line changes no frame but the one that it names, no part but that of a `p`, and nothing where it doesn't apply.
#[tactic(auto, using(crate::proofs::LinesLeave::others, crate::proofs::LinesLeave::parts, crate::proofs::LinesLeave::idle))]
pub fn lines_leave_all_else()
    ensures others { (h : HostOf) (line : LineOf) (pfn : ℕ) → (NamesPfn pfn line → ⊥) → frame_after h line pfn ≡ maps.get h.frames pfn }
    ensures parts { (h : HostOf) (line : LineOf) → ((code first second : ℕ) (bytes : List ℕ) → line ≢ Put code first second bytes) → (after_line h line).parts ≡ h.parts }
    ensures idle { (h : HostOf) (line : LineOf) → (MayApply h line → ⊥) → after_line h line ≡ h }
{}
