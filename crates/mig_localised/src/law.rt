ghost use Rattle.std.specs.Prelude.{◌≡◌, ℕ};
ghost use Rattle.mig_guest.specs.Guests.{GuestOf};
ghost use Rattle.mig_headers.specs.declared.kind.Kind.TheVariants.{Pv};
ghost use Rattle.mig_host.specs.Hosted.{mfn_in};
ghost use Rattle.mig_host_view.specs.Localised.{localised};
ghost use Rattle.mig_outline.specs.Outline.{outline};
ghost use Rattle.mig_pvtables.specs.Blank.{blank};
ghost use Rattle.mig_localised.specs.Over.{IsInMachine, guest_over};

/// The outline of a PV guest as it stands in a machine, with the guest's frames as they were sent, stands for the blank form of
/// the guest as that stands in the machine.
pub fn localised_outline_stands_for_its_guest()
    ensures { (g there : GuestOf) (base : ℕ) → g.kind ≡ Pv → IsInMachine base (outline g) there → guest_over there g.frames ≡ localised (mfn_in (blank g).frames base) (blank g) }
{}
