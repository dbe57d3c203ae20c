ghost use Rattle.std.specs.Prelude.{◌≡◌, ◌≤◌, ℕ, List};
ghost use Rattle.std.specs.FinMap as maps;
ghost use Rattle.mig_image.specs.Common.{AreBytes, HostOf, most_width};
ghost use Rattle.mig_bytes.specs.Judged.Judged.{Passes};
ghost use Rattle.mig_image.specs.GuestImage.{IsGuestImage, IsGuestImageUpTo};
ghost use Rattle.mig_image.specs.GuestImageLaws.{HostsHaveGuestImages, FlagsSayZero, UnsentAreZero, IsAscending, GuestImagesHaveSizes};
ghost use Rattle.mig_image.specs.GuestImageForm.{host_at};

/// The image of a valid host is read as this host, whatever follows it, where the host isn't too wide.
pub fn image_is_judged()
    ensures { (widest : ℕ) (input : List ℕ) (host : HostOf) (rest : List ℕ) → IsGuestImageUpTo widest input host rest → host_at widest input ≡ Passes host rest }
{}

/// Bytes that are read as a host begin with its image, and the host is valid.
pub fn judged_is_image()
    ensures { (widest : ℕ) (input : List ℕ) (host : HostOf) (rest : List ℕ) → widest ≤ most_width → AreBytes input → host_at widest input ≡ Passes host rest → IsGuestImageUpTo widest input host rest }
{}

/// An input begins with the image of at most one host, whatever the versions.
pub fn one_image()
    ensures { (input : List ℕ) (g h : HostOf) (rest more : List ℕ) → IsGuestImage input g rest → IsGuestImage input h more → (g ≡ h) × (rest ≡ more) }
{}

/// A valid host has exactly one image of version 2, and one of version 1 exactly where its width is at most 2^28.
#[tactic(auto, using(crate::proofs::ImageWords::hosts_have_guest_images))]
pub fn hosts_have_guest_images()
    ensures { HostsHaveGuestImages }
{}

/// In version 2 the zero flag of a frame says exactly that each byte of its page is zero, and exactly such a page isn't sent.
pub fn zero_pages_are_left_out()
    ensures flags { FlagsSayZero }
    ensures unsent { UnsentAreZero }
{}

/// The frames of a host stand in its image by ascending PFN.
#[tactic(auto, using(crate::proofs::ImageWords::frames_ascend))]
pub fn frames_ascend()
    ensures { (h : HostOf) → IsAscending (maps.entries h.frames) }
{}

/// How many bytes an image has: 4096 for each page that is sent, so that version 2 has none for a page of zeros.
#[tactic(auto, using(crate::proofs::ImageWords::guest_images_have_sizes))]
pub fn guest_images_have_sizes()
    ensures { GuestImagesHaveSizes }
{}
