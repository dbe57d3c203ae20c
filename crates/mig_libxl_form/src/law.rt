ghost use Rattle.std.specs.Prelude.{◌≡◌, ◌⊎◌, ℕ, List};
ghost use Rattle.mig_libxl_form.specs.Common.{AreBytes, Passes, Cause, Place, GuestOf, blank, IsOfBytes, IsWhole};
ghost use Rattle.mig_libxl_form.specs.Carried.{IsCarried};
ghost use Rattle.mig_libxl_form.specs.Spelled.{IsStream, AcceptedStream};
ghost use Rattle.mig_libxl_form.specs.Stream.{StreamOf, stream_at, IsStreamRefused};

/// What judging accepts is spelled as the format says.
#[tactic(auto, using(crate::proofs::Laws::accepted_is_stream))]
pub fn accepted_is_stream()
    ensures { (input : List ℕ) (s : StreamOf) (rest : List ℕ) → stream_at input ≡ Passes s rest → IsStream input s rest }
{}

/// What is spelled as the format says is accepted.
#[tactic(auto, using(crate::proofs::Laws::stream_is_accepted))]
pub fn stream_is_accepted()
    ensures { (input : List ℕ) (s : StreamOf) (rest : List ℕ) → IsStream input s rest → stream_at input ≡ Passes s rest }
{}

/// For every input either a front is an accepted stream, or it is refused at a place for a cause.
pub fn accepted_or_refused()
    ensures { (input : List ℕ) → ((guest : GuestOf) × (rest : List ℕ) × AcceptedStream input guest rest)
        ⊎ ((place : Place) × (cause : Cause) × (rest : List ℕ) × IsStreamRefused input place cause rest) }
{}

/// An input with an accepted front has no refusal.
pub fn never_both()
    ensures { (input : List ℕ) (guest : GuestOf) (rest : List ℕ) (place : Place) (cause : Cause) (more : List ℕ) →
        AcceptedStream input guest rest → IsStreamRefused input place cause more → ⊥ }
{}

/// At most one front of an input is an accepted stream, with one guest.
pub fn one_front()
    ensures { (input : List ℕ) (g h : GuestOf) (rest more : List ℕ) → AcceptedStream input g rest → AcceptedStream input h more
        → (g ≡ h) × (rest ≡ more) }
{}

/// An accepted guest of an input of bytes is whole, in its blank form and of bytes, with the parts of its emulators. So the laws
/// of canonical streams hold of it.
pub fn accepted_stream_is_whole()
    ensures whole { (input : List ℕ) (guest : GuestOf) (rest : List ℕ) → AreBytes input → AcceptedStream input guest rest
        → IsWhole guest × (blank guest ≡ guest) × IsOfBytes guest }
    ensures carried { (input : List ℕ) (guest : GuestOf) (rest : List ℕ) → AreBytes input → AcceptedStream input guest rest → IsCarried guest }
{}
