ghost use Rattle.std.specs.Prelude.{◌≡◌, ◌≤◌, ℕ, List};
ghost use Rattle.mig_refusals.specs.Common.{AreBytes, le64, SpelledAs, HostOf, most_width, IsGuestImageUpTo, host_at};
ghost use Rattle.mig_bytes.specs.Judged.Judged.{Faulty};
ghost use Rattle.mig_refusals.specs.Refusals.{AreJudged, HasOneRefusal, IsAcceptedOrRefused, IsNeverBoth};
ghost use Rattle.mig_refusals.specs.ImageFileFronts.{EndsInFrames, EndsInParts};
ghost use Rattle.mig_refusals.specs.ImageFileTables.{ImageTablesSay};
ghost use Rattle.mig_refusals.specs.ImageFile.{ImageCausesAscend, ImageTestsSay, PlaceIsOfPart, RefusedGuestImage, count_and_parts, head_and_frames};

/// Judging refuses an input as a guest image for a cause at a place exactly where its form is refused so. Then, behind
/// parts without fault, one isn't whole, or the first condition of its table that holds in it has this cause. What is
/// left is what follows that part. This and what follows hold for images of both versions, and for each greatest width
/// of a host that is taken.
#[tactic(auto, using(crate::proofs::ImageFileVerdicts::agree))]
pub fn image_file_refusals_agree()
    ensures { (widest : ℕ) → AreJudged (RefusedGuestImage widest) (λ input place cause rest. host_at widest input ≡ Faulty (place, cause) rest) }
{}

/// An input has at most one refusal as a guest image.
#[tactic(auto, using(crate::proofs::ImageFileVerdicts::one))]
pub fn image_file_one_refusal()
    ensures { (widest : ℕ) → HasOneRefusal (RefusedGuestImage widest) }
{}

/// For every input of bytes either a front is the image of a host, a valid one, or there is a refusal.
pub fn image_file_accepted_or_refused()
    ensures { (widest : ℕ) (input : List ℕ) → widest ≤ most_width → AreBytes input → IsAcceptedOrRefused (RefusedGuestImage widest) (IsGuestImageUpTo widest) input }
{}

/// An input that begins with the image of a host has no refusal.
#[tactic(auto, using(crate::proofs::ImageFileVerdicts::never))]
pub fn image_file_never_both()
    ensures { (widest : ℕ) → IsNeverBoth (RefusedGuestImage widest) (IsGuestImageUpTo widest) }
{}

/// The tables of causes are in the order of the causes' numbers: of several causes that stand in a part the least is named.
#[tactic(auto, using(crate::proofs::ImageFileVerdicts::ascend))]
pub fn image_file_causes_ascend()
    ensures { ImageCausesAscend }
{}

/// What the truth values in the conditions say: which types no frame of a kind of guest has, what stands already, whether bytes
/// are zero or canonical pairs, and what the row of a part's code allows.
#[tactic(auto, using(crate::proofs::ImageFileTests::tests_say))]
pub fn image_file_tests_say()
    ensures { ImageTestsSay }
{}

/// A refusal is in the head, at a frame, in the number of parts, or at a part. Before a frame are a faultless head and
/// exactly so many frames; before the number a head and all its frames; before a part these, the number and exactly so
/// many parts.
#[tactic(auto, using(crate::proofs::ImageFilePlaces::place_is_of_part))]
pub fn image_file_place_is_of_part()
    ensures { PlaceIsOfPart }
{}

/// A front of bytes with which a refusal begins is spelled as an image is. Up to a frame it is a faultless head and the
/// frames of a valid host. Up to a part it is the image of a valid host, but for the number of its parts.
pub fn image_file_front_is_spelled()
    ensures frames { (widest : ℕ) (front head : List ℕ) (n : ℕ) (host : HostOf) → widest ≤ most_width → AreBytes front → n ≤ le64 head 24 → SpelledAs (head_and_frames widest n) front (head, host) → EndsInFrames widest front head n host }
    ensures parts { (widest : ℕ) (front : List ℕ) (count n : ℕ) (framed host : HostOf) → widest ≤ most_width → AreBytes front → SpelledAs (count_and_parts widest n) front ((framed, count), host) → EndsInParts front count n host }
{}

/// The tables of causes say what the format says of a file's head, of a frame's head and page, and of a part's head,
/// bytes and padding. Some condition that holds has a cause exactly where the cause stands in words.
#[tactic(auto, using(crate::proofs::ImageFileTables::tables_say))]
pub fn image_file_tables_say()
    ensures { ImageTablesSay }
{}
