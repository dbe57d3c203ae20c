ghost use Rattle.std.specs.Prelude.{◌≡◌, List, fold};
ghost use Rattle.mig_outline.specs.Common.{Kind, GuestOf, fault_by, fault_of_guest, put_content, put_record, empty_guest, sent, Content, StreamRecord};
ghost use Rattle.mig_outline.specs.Forgotten.{forgotten_guest};
ghost use Rattle.mig_outline.specs.Outline.{outline, seen_frames, put_outline_content};

/// What is wrong with a guest at the end of its stream is found without the pages of frames that are no tables.
#[tactic(auto, using(crate::proofs::Faults::same_fault))]
pub fn fault_needs_no_pages()
    ensures { (g : GuestOf) → fault_of_guest (forgotten_guest g) ≡ fault_of_guest g }
{}

/// A record that is put into a guest whose pages were forgotten leaves the same, pages forgotten, as one that is put into
/// the guest.
#[tactic(auto, using(crate::proofs::Forgotten::forgotten_on))]
pub fn forgotten_goes_on()
    ensures { (g : GuestOf) (r : StreamRecord) → forgotten_guest (put_record (forgotten_guest g) r) ≡ forgotten_guest (put_record g r) }
{}

/// So whoever forgets behind each record comes to what is sent, pages forgotten.
#[tactic(auto, using(crate::proofs::Forgotten::forgotten_sent))]
pub fn forgotten_goes_on_whole()
    ensures { (kind : Kind) (records : List StreamRecord) → fold (λ g r. forgotten_guest (put_record g r)) (forgotten_guest (empty_guest kind)) records ≡ forgotten_guest (sent kind records) }
{}

/// The outline of a guest is put on by a content as the guest is.
#[tactic(auto, using(crate::proofs::Outline::outline_on))]
pub fn outline_goes_on()
    ensures { (g : GuestOf) (c : Content) → outline (put_content g c) ≡ put_outline_content (outline g) c }
{}

/// What is wrong with a guest at the end of its stream is what is wrong with its outline, where XALLOC is seen as NOTAB.
#[tactic(auto, using(crate::proofs::Faults::seen_fault))]
pub fn fault_needs_an_outline()
    ensures { (g : GuestOf) → fault_by (seen_frames (outline g).frames) (outline g) ≡ fault_of_guest g }
{}
