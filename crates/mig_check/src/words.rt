ghost use Rattle.std.specs.Prelude.{◌≡◌, ◌↔◌, IfSome, IfNone, IsTrue, codes};
ghost use Rattle.mig_check.specs.Checks.{NamesCheck};
ghost use Rattle.mig_check.specs.declared.words.Check.{Check};
ghost use Rattle.mig_tool_report.specs.Words.{texts_of};

/// What is to be checked.
#[derive(Clone, Copy, Debug, PartialEq, Eq)]
pub enum Check {
    /// A stream.
    Stream,
    /// A legacy stream.
    Legacy,
}

/// Whether the word names a legacy stream.
fn is_legacy(word: &str) -> bool
    ensures { IsTrue result ↔ (word.now ≡ codes "legacy") }
{
    word == "legacy"
}

/// What the words say is to be checked.
pub fn check_in(words: &[String]) -> Option<Check>
    ensures some { IfSome result (NamesCheck (texts_of words.now)) }
    ensures none { IfNone result ((check : Check) → NamesCheck (texts_of words.now) check → ⊥) }
{
    match words {
        [] => Some(Check::Stream),
        [word] => {
            if is_legacy(word.as_str()) {
                Some(Check::Legacy)
            } else {
                None
            }
        }
        _ => None,
    }
}
