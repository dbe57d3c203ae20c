ghost use Rattle.std.specs.Prelude.{◌≡◌, ◌≤◌, ◌<◌, ◌^◌, ℕ, List, [], ◌∷◌, length, Option, Some, true, false};
ghost use Rattle.mig_host_laws.specs.Common.{range_with_len, AreBytes, Pv, PartKey, gdt_ents, HostOf, IsValid, pfn_in, long_at, most_gdt_entries, field_at, frame_of_field, is_used, is_used_somewhere, IsSound, view};
ghost use Rattle.std.specs.FinMap as maps;
ghost use Rattle.mig_host_view.specs.RenamedContexts.{renamed_context};
ghost use Rattle.mig_host_laws.specs.Fields.{Field, field_row, IsField, IsNumbered, field_numbered, said_by, with_frame_in};
ghost use Rattle.mig_host_laws.specs.NamedAnew.{AreNamesSmall, SaysAnew, IsSeenAs};
ghost use Rattle.mig_host_laws.specs.WorkedDescriptors.{descriptors_context, AreUsedFor};
ghost use Rattle.mig_host_laws.specs.WorkedUserRoot.{user_root_seen};

/// A value that says a frame says it, and is in blank form. The blank form of a value that a stream uses is the value
/// that says its frame. A value that a host doesn't use is in blank form. No two fields have one place.
#[tactic(auto, using(crate::proofs::Fields::frame_of_value, crate::proofs::Fields::written_blanked, crate::proofs::Fields::value_of_frame, crate::proofs::Fields::unused_blanked, crate::proofs::Fields::one_place))]
pub fn fields_say_values()
    ensures back { (field : Field) (frame : ℕ) → (field_row field).frame ((field_row field).value frame) ≡ frame }
    ensures written { (field : Field) (frame : ℕ) → (field_row field).blanked ((field_row field).value frame) ≡ (field_row field).value frame }
    ensures used { (field : Field) (id ents v : ℕ) → (field_row field).in_stream id ents v ≡ true → (field_row field).value ((field_row field).frame v) ≡ (field_row field).blanked v }
    ensures unused { (field : Field) (id ents v : ℕ) → (field_row field).in_host id ents v ≡ false → (field_row field).blanked v ≡ v }
    ensures places { (field other : Field) → IsField field → IsField other → (field_row field).place ≡ (field_row other).place → field ≡ other }
{}

/// What is said of fields by their numbers, 0 to 18, is what the rows of these fields say. Each field has a number, by
/// which it is found, and which is found at its place.
#[tactic(auto, using(crate::proofs::Fields::agrees, crate::proofs::FieldLaws::has_number))]
pub fn fields_have_numbers()
    ensures rows { (n : ℕ) → n ≤ 18 → IsNumbered n (field_numbered n) }
    ensures each { (field : Field) → IsField field → ((field_row field).number ≤ 18) × (field_numbered (field_row field).number ≡ field) × (field_at (field_row field).place ≡ Some (field_row field).number) }
{}

/// A field of a context says the frame that was put into it, of two the last. To put in what it says in written form
/// changes nothing. All other fields stay.
#[tactic(auto, using(crate::proofs::FieldLaws::back, crate::proofs::FieldLaws::same, crate::proofs::FieldLaws::twice, crate::proofs::FieldLaws::others))]
pub fn field_keeps_what_is_put()
    ensures back { (field : Field) (context : List ℕ) (frame : ℕ) → IsField field → AreBytes context → length context ≡ 5168 → frame < 2 ^ 52 → said_by field (with_frame_in field frame context) ≡ frame }
    ensures same { (field : Field) (context : List ℕ) → IsField field → AreBytes context → length context ≡ 5168
        → (field_row field).value (said_by field context) ≡ long_at context (field_row field).place → with_frame_in field (said_by field context) context ≡ context }
    ensures twice { (field : Field) (context : List ℕ) (frame last : ℕ) → IsField field → AreBytes context → length context ≡ 5168 → with_frame_in field last (with_frame_in field frame context) ≡ with_frame_in field last context }
    ensures others { (field other : Field) (context : List ℕ) (frame : ℕ) → IsField field → IsField other → (other ≡ field → ⊥) → AreBytes context → length context ≡ 5168 → said_by other (with_frame_in field frame context) ≡ said_by other context }
{}

/// In a renamed context each field that is used says the name of the frame that it said, in written form, where it has one;
/// all other numbers stay. In a stream and in a host other fields are used.
pub fn renamed_context_says_names()
    ensures stream { (names : ℕ → Option ℕ) (id : ℕ) (context : List ℕ) → AreNamesSmall names → AreBytes context → SaysAnew (λ row. row.in_stream) names id context (renamed_context is_used names id context) }
    ensures host { (names : ℕ → Option ℕ) (id : ℕ) (context : List ℕ) → AreNamesSmall names → AreBytes context → SaysAnew (λ row. row.in_host) names id context (renamed_context is_used_somewhere names id context) }
{}

/// In the view of a sound PV host, each context is the host's with the PFN of each machine frame that a used field says. What is
/// said of it is said of one context alone.
#[tactic(auto, using(crate::proofs::SeenContexts::context_seen))]
pub fn context_is_seen()
    ensures seen { (h : HostOf) → h.kind ≡ Pv → IsValid h → IsSound h → (key : PartKey) (context : List ℕ) → maps.get h.parts key ≡ Some context → key.code ≡ 4 → AreBytes context
        → (new : List ℕ) × (maps.get (view h).parts key ≡ Some new) × IsSeenAs (pfn_in h.frames) key.key1 context new }
    ensures one { (pfn_of : ℕ → Option ℕ) (id : ℕ) (context new other : List ℕ) → IsSeenAs pfn_of id context new → IsSeenAs pfn_of id context other → new ≡ other }
{}

/// ctrlreg[1], field 18, of a host is used where it isn't 0, whatever its bit 0. 0x138e000 says machine frame 5006,
/// which PFN 7 has in the worked host, so this is seen as 0x7001. 0 is seen as 0. In a stream bit 0 alone says that the
/// field is used.
#[tactic(auto, using(crate::proofs::WorkedUserRoot::unmarked_seen, crate::proofs::WorkedUserRoot::marked_seen, crate::proofs::WorkedUserRoot::zero_seen))]
pub fn worked_user_root()
    ensures unmarked { user_root_seen 0x138e000 ≡ Some 0x7001 }
    ensures marked { user_root_seen 0x138e001 ≡ Some 0x7001 }
    ensures zero { user_root_seen 0 ≡ Some 0 }
    ensures frame { frame_of_field 18 0x138e000 ≡ 5006 }
    ensures host { (id ents : ℕ) → (is_used_somewhere id ents 18 0x138e000 ≡ true) × (is_used_somewhere id ents 18 0 ≡ false) }
    ensures stream { (id ents : ℕ) → (is_used id ents 18 0x138e000 ≡ false) × (is_used id ents 18 0x138e001 ≡ true) }
{}

/// A frame of the GDT holds 512 descriptors. A context whose count of descriptors, at byte 4960, is 0 uses none of the
/// GDT's frames. With 1 or 512 it uses the first one, field 1; with 513 fields 1 and 2; with `most_gdt_entries` 14
/// frames. So it is in a stream and in a host, whatever vCPU it is.
#[tactic(auto, using(crate::proofs::WorkedDescriptors::are_counted, crate::proofs::WorkedDescriptors::for_none, crate::proofs::WorkedDescriptors::for_one, crate::proofs::WorkedDescriptors::for_one_frame, crate::proofs::WorkedDescriptors::for_one_more, crate::proofs::WorkedDescriptors::for_most))]
pub fn worked_descriptors()
    ensures counted { (n : ℕ) → n < 2 ^ 64 → gdt_ents (descriptors_context n) ≡ n }
    ensures none { AreUsedFor 0 [] }
    ensures one { AreUsedFor 1 (1 ∷ []) }
    ensures one_frame { AreUsedFor 512 (1 ∷ []) }
    ensures one_more { AreUsedFor 513 (1 ∷ 2 ∷ []) }
    ensures most { AreUsedFor most_gdt_entries (range_with_len 1 14) }
{}
