ghost use Rattle.std.specs.Prelude.{◌≡◌, ◌⊎◌, ℕ, List};
ghost use Rattle.mig_machine_script.specs.ScriptLines.{LineOf, IsScriptLine};
ghost use Rattle.mig_machine_script.specs.Scripts.{IsScript, IsBadLine};

/// A text is one line at most.
pub fn one_line()
    ensures { (text : List ℕ) (a b : LineOf) → IsScriptLine text a → IsScriptLine text b → a ≡ b }
{}

/// Bytes are the script of one list of lines at most.
pub fn one_script()
    ensures { (bytes : List ℕ) (a b : List LineOf) → IsScript bytes a → IsScript bytes b → a ≡ b }
{}

/// Bytes are a script, or have a first bad line, and never both; no other line is the first bad one.
pub fn script_or_bad_line()
    ensures either { (bytes : List ℕ) → ((lines : List LineOf) × IsScript bytes lines) ⊎ ((number : ℕ) × IsBadLine bytes number) }
    ensures never_both { (bytes : List ℕ) (lines : List LineOf) (number : ℕ) → IsScript bytes lines → IsBadLine bytes number → ⊥ }
    ensures one { (bytes : List ℕ) (m n : ℕ) → IsBadLine bytes m → IsBadLine bytes n → m ≡ n }
{}
