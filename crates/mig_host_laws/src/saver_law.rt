ghost use Rattle.std.specs.Prelude.{◌≡◌, ◌↔◌, ℕ, Option, true};
ghost use Rattle.mig_host_laws.specs.Common.{Unsound, PageType, HostOf, type_at, unsoundness, guest_in};
ghost use Rattle.mig_host_laws.specs.Standing.{in_host, before_saver, is_of_no_type};
ghost use Rattle.mig_host_laws.specs.FirstRow.{first_row, IsWide};
ghost use Rattle.mig_host_laws.specs.Unsoundness.{IsWrong, UnsoundHas, NamesFirstRow};

/// What a saver finds first with the types that it saw last is the host's unsoundness, where these are the host's
/// types. So it is however it is found, also where it is looked for row by row. Whatever the types are, a row that
/// doesn't speak of them is there exactly where it is in the host.
pub fn saver_finds_unsoundness()
    ensures named { (h : HostOf) (seen : ℕ → Option PageType) (found : Option Unsound) → ((pfn : ℕ) → seen pfn ≡ type_at (guest_in h).frames pfn) → NamesFirstRow (before_saver h seen) found → found ≡ unsoundness h }
    ensures row { (h : HostOf) (seen : ℕ → Option PageType) (width : ℕ) → ((pfn : ℕ) → seen pfn ≡ type_at (guest_in h).frames pfn) → IsWide width (in_host h)
        → first_row width (before_saver h seen) ≡ unsoundness h }
    ensures stands { (h : HostOf) (seen : ℕ → Option PageType) (place : ℕ) (cause : Unsound) → is_of_no_type cause ≡ true → IsWrong (before_saver h seen) place cause ↔ UnsoundHas h place cause }
{}
