//! The laws of the text of logs. The functions do nothing: the contract of each is a law over the
//! definitions that the reader and the writer cite.

ghost use Rattle.std.specs.Prelude.{◌≡◌, ℕ, List};
ghost use Rattle.audit_text.specs.declared.line.LogLine.{LogLine};
ghost use Rattle.audit_text.specs.Grammar.{IsHashed, IsLineOf, IsWritable, line_text};

/// The text of what a line says says just this.
pub fn what_is_written_is_read()
    ensures { (said : LogLine) → IsWritable said → IsLineOf (line_text said) said }
{}

/// What is read of a line that isn't skipped can be written, and its text is this line.
pub fn what_is_read_is_written()
    ensures { (line : List ℕ) (said : LogLine) → IsLineOf line said → (IsHashed line → ⊥) →
        IsWritable said × (line ≡ line_text said) }
{}

/// A line says one thing.
pub fn a_line_says_one_thing()
    ensures { (line : List ℕ) (a b : LogLine) → IsLineOf line a → IsLineOf line b → a ≡ b }
{}

/// Different lines have different texts.
pub fn each_line_has_a_text_of_its_own()
    ensures { (a b : LogLine) → IsWritable a → IsWritable b → line_text a ≡ line_text b → a ≡ b }
{}
