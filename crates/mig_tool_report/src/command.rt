ghost use Rattle.std.specs.Prelude.{◌≡◌, ◌↔◌, ◌<◌, ◌^◌, ◌∷◌, [], ℕ, IfSome, IfNone, IsTrue, decimal, codes, length, ◌≤◌};
ghost use Rattle.mig_tool_report.specs.Words.{texts_of, IsBase, IsFrameNumber, hex_value as value_of_letter, hex_behind, IsAddress, ArePlace, Names};
ghost use Rattle.mig_tool_report.specs.declared.command.Command.{Command};
ghost use Rattle.mig_tool_report.specs.Common.{vcpu_limit};

use itoa::Buffer;
use mig_headers::VCPU_LIMIT;
use mig_pagetypes::{MACHINE_LIMIT, MOST_FRAMES};

/// The machine frame of a restored guest's first frame, where no base is given.
const USUAL_BASE: u64 = 1 << 20;

/// The greatest base: from there on as many frames as a guest may have lie below the limit of machine frames.
const MOST_BASE: u64 = MACHINE_LIMIT - MOST_FRAMES;

/// How few and how many frames the host of `exercise` may have.
const LEAST_EXERCISE_FRAMES: u64 = 8;

const MOST_EXERCISE_FRAMES: u64 = 65536;

/// An address has at most so many digits.
const MOST_DIGITS: usize = 16;

/// What the program is to do. It takes its input, writes on the output, and says on the report.
#[derive(Clone, Copy, Debug, PartialEq, Eq)]
pub enum Command {
    /// Take a stream, and write it in its canonical form.
    Normalise,
    /// Take a stream, and write the image of its guest's host, with machine frames counted up from this base.
    Restore(u64),
    /// Take a stream, and say what it is.
    Verify,
    /// Take a legacy stream, and write the canonical stream of its guest.
    Convert,
    /// Take the image of a host and a script, write the host as a stream while the script runs, and say how it was saved.
    Save,
    /// Take nothing, and say what a save came to of a host of so many frames, whose contents and script follow from the seed.
    Exercise { seed: u64, frames: u64 },
    /// Take a stream, and say which frame of its guest the address means to the vCPU.
    Walk { vcpu: u32, address: u64 },
    /// Take the image of a host, and say which machine frame the address means to the vCPU there.
    WalkImage { vcpu: u32, address: u64 },
    /// Take a stream, write what was taken once that is judged, and say how much that was.
    Relay,
    /// Take a stream, and write a JSON text of the records in front of its end, or of the part that is refused.
    Show,
}

/// Whether the word is this one.
fn is_word(word: &str, this: &str) -> bool
    ensures { IsTrue result ↔ (word.now ≡ this.now) }
{
    word == this
}

/// Whether it is a base.
fn is_base(base: u64) -> bool
    ensures { IsTrue result ↔ IsBase base }
{
    0 < base && base <= MOST_BASE
}

/// Whether the host of `exercise` may have so many frames.
fn is_frame_number(frames: u64) -> bool
    ensures { IsTrue result ↔ IsFrameNumber frames }
{
    LEAST_EXERCISE_FRAMES <= frames && frames <= MOST_EXERCISE_FRAMES
}

/// The number that a word spells.
fn number_in(word: &str) -> Option<u64>
    ensures some { IfSome result (λ n. (word.now ≡ decimal n) × (n < 2 ^ 64)) }
    ensures none { IfNone result ((n : ℕ) → word.now ≡ decimal n → n < 2 ^ 64 → ⊥) }
{
    let Ok(number) = word.parse::<u64>() else {
        return None;
    };
    let mut digits = Buffer::new();
    if !is_word(word, digits.format(number)) {
        return None;
    }
    Some(number)
}

/// The base that a word spells.
fn base_in(word: &str) -> Option<u64>
    ensures some { IfSome result (λ base. (word.now ≡ decimal base) × IsBase base) }
    ensures none { IfNone result ((base : ℕ) → word.now ≡ decimal base → IsBase base → ⊥) }
{
    let base = number_in(word)?;
    if is_base(base) { Some(base) } else { None }
}

/// The number of frames that a word spells.
fn frames_in(word: &str) -> Option<u64>
    ensures some { IfSome result (λ frames. (word.now ≡ decimal frames) × IsFrameNumber frames) }
    ensures none { IfNone result ((frames : ℕ) → word.now ≡ decimal frames → IsFrameNumber frames → ⊥) }
{
    let frames = number_in(word)?;
    if is_frame_number(frames) {
        Some(frames)
    } else {
        None
    }
}

/// The command of one word.
fn plain(word: &str) -> Option<Command>
    ensures some { IfSome result (Names (word.now ∷ [])) }
    ensures none { IfNone result ((command : Command) → Names (word.now ∷ []) command → ⊥) }
{
    if is_word(word, "normalise") {
        return Some(Command::Normalise);
    }
    if is_word(word, "verify") {
        return Some(Command::Verify);
    }
    if is_word(word, "restore") {
        return Some(Command::Restore(USUAL_BASE));
    }
    if is_word(word, "convert") {
        return Some(Command::Convert);
    }
    if is_word(word, "save") {
        return Some(Command::Save);
    }
    if is_word(word, "relay") {
        return Some(Command::Relay);
    }
    if is_word(word, "show") {
        return Some(Command::Show);
    }
    None
}

/// The command of a word and a base.
fn with_base(word: &str, base: &str) -> Option<Command>
    ensures some { IfSome result (Names (word.now ∷ base.now ∷ [])) }
    ensures none { IfNone result ((command : Command) → Names (word.now ∷ base.now ∷ []) command → ⊥) }
{
    if !is_word(word, "restore") {
        return None;
    }
    let base = base_in(base)?;
    Some(Command::Restore(base))
}

/// What a letter stands for in a number to base 16.
fn hex_value(letter: u8) -> Option<u64>
    ensures value { result ≡ value_of_letter letter }
    ensures small { IfSome result (λ value. value < 16) }
{
    match letter {
        b'0'..=b'9' => Some(u64::from(letter - b'0')),
        b'a'..=b'f' => Some(u64::from(letter - b'a' + 10)),
        _ => None,
    }
}

/// The number that up to 16 letters spell to base 16.
fn hex_number(letters: &[u8]) -> Option<u64>
    requires { length letters.now ≤ 16 }
    ensures { result ≡ hex_behind 0 letters.now }
{
    let mut number = 0;
    for letter in letters {
        number = 16 * number + hex_value(*letter)?;
    }
    Some(number)
}

/// The address that a word spells.
fn address_in(word: &str) -> Option<u64>
    ensures some { IfSome result (IsAddress word.now) }
    ensures none { IfNone result ((address : ℕ) → IsAddress word.now address → ⊥) }
{
    let letters = word.as_bytes();
    if letters.is_empty() || letters.len() > MOST_DIGITS {
        return None;
    }
    if letters.len() > 1 && letters[0] == b'0' {
        return None;
    }
    hex_number(letters)
}

/// The id of a vCPU that a word spells.
fn vcpu_in(word: &str) -> Option<u32>
    ensures some { IfSome result (λ id. (word.now ≡ decimal id) × (id < vcpu_limit)) }
    ensures none { IfNone result ((id : ℕ) → word.now ≡ decimal id → id < vcpu_limit → ⊥) }
{
    let id = number_in(word)?;
    if id < u64::from(VCPU_LIMIT) {
        Some(id as u32)
    } else {
        None
    }
}

/// The vCPU's id and the address that two words spell.
fn place_in(vcpu: &str, address: &str) -> Option<(u32, u64)>
    ensures some { IfSome result (λ place. ArePlace vcpu.now address.now place.0 place.1) }
    ensures none { IfNone result ((id at : ℕ) → ArePlace vcpu.now address.now id at → ⊥) }
{
    let vcpu = vcpu_in(vcpu)?;
    let address = address_in(address)?;
    Some((vcpu, address))
}

/// The exercise of a seed and a number of frames.
fn exercise_with(seed: &str, frames: &str) -> Option<Command>
    ensures some { IfSome result (Names (codes "exercise" ∷ seed.now ∷ frames.now ∷ [])) }
    ensures none { IfNone result ((command : Command) → Names (codes "exercise" ∷ seed.now ∷ frames.now ∷ []) command → ⊥) }
{
    let seed = number_in(seed)?;
    let frames = frames_in(frames)?;
    Some(Command::Exercise { seed, frames })
}

/// The walk of an address in a stream's guest.
fn walk_with(vcpu: &str, address: &str) -> Option<Command>
    ensures some { IfSome result (Names (codes "walk" ∷ vcpu.now ∷ address.now ∷ [])) }
    ensures none { IfNone result ((command : Command) → Names (codes "walk" ∷ vcpu.now ∷ address.now ∷ []) command → ⊥) }
{
    let (vcpu, address) = place_in(vcpu, address)?;
    Some(Command::Walk { vcpu, address })
}

/// The walk of an address in an image's host.
fn walk_image_with(vcpu: &str, address: &str) -> Option<Command>
    ensures some { IfSome result (Names (codes "walkimage" ∷ vcpu.now ∷ address.now ∷ [])) }
    ensures none { IfNone result ((command : Command) → Names (codes "walkimage" ∷ vcpu.now ∷ address.now ∷ []) command → ⊥) }
{
    let (vcpu, address) = place_in(vcpu, address)?;
    Some(Command::WalkImage { vcpu, address })
}

/// The command of a word and two numbers.
fn with_two(word: &str, first: &str, second: &str) -> Option<Command>
    ensures some { IfSome result (Names (word.now ∷ first.now ∷ second.now ∷ [])) }
    ensures none { IfNone result ((command : Command) → Names (word.now ∷ first.now ∷ second.now ∷ []) command → ⊥) }
{
    if is_word(word, "exercise") {
        return exercise_with(first, second);
    }
    if is_word(word, "walk") {
        return walk_with(first, second);
    }
    if is_word(word, "walkimage") {
        return walk_image_with(first, second);
    }
    None
}

/// The command that the words name.
pub fn command_in(words: &[String]) -> Option<Command>
    ensures some { IfSome result (Names (texts_of words.now)) }
    ensures none { IfNone result ((command : Command) → Names (texts_of words.now) command → ⊥) }
{
    match words {
        [word] => plain(word.as_str()),
        [word, base] => with_base(word.as_str(), base.as_str()),
        [word, first, second] => with_two(word.as_str(), first.as_str(), second.as_str()),
        _ => None,
    }
}
