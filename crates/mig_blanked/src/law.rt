ghost use Rattle.std.specs.Prelude.{◌≡◌};
ghost use Rattle.mig_guest.specs.Guests.{GuestOf};
ghost use Rattle.mig_headers.specs.declared.kind.Kind.TheVariants.{Pv};
ghost use Rattle.mig_outline.specs.Outline.{outline};
ghost use Rattle.mig_pagestore_index.specs.Indexed.{ValueMap};
ghost use Rattle.mig_pvtables.specs.Blank.{blank};
ghost use Rattle.mig_blanked.specs.Behind.{MarkListed, guest_behind};

/// The outline of a PV guest in its blank form, with marks of its P2M frames and with the guest's frames as they were sent,
/// stands for the blank form of the guest.
pub fn outline_stands_for_its_guest()
    ensures { (g : GuestOf) (marks : ValueMap) → g.kind ≡ Pv → MarkListed (outline g).frames (outline g).parts marks → guest_behind (blank (outline g)) marks g.frames ≡ blank g }
{}
