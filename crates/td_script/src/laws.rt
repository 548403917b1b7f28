//! What holds of every text: laws of the definition of scripts.
ghost use Rattle.std.specs.Prelude.{◌≡◌, ℕ, List, []};
ghost use Rattle.td_script.specs.declared.lines.Line.{Line};
ghost use Rattle.td_script.specs.Script.{IsScript, FirstOutside, Numbered};

/// No bytes are a script and have a first line of no form.
pub fn apart()
    ensures { (bytes : List ℕ) (lines : List Line) (n : ℕ) → IsScript bytes lines → FirstOutside bytes n → ⊥ }
{}

/// There is one first line of no form at most.
pub fn one_line()
    ensures { (bytes : List ℕ) (m n : ℕ) → FirstOutside bytes m → FirstOutside bytes n → m ≡ n }
{}

/// Bytes are a script in one way at most.
pub fn one_script()
    ensures { (bytes : List ℕ) (a b : List Line) → IsScript bytes a → IsScript bytes b → a ≡ b }
{}

/// Each statement line of a script is of a session from 1 to 64, and its ordinal counts the statement lines of its
/// session from 1, over all phases.
pub fn numbered()
    ensures { (bytes : List ℕ) (lines : List Line) → IsScript bytes lines → Numbered [] lines }
{}
