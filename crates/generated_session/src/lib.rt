//! The text that `session_generate` gives for a number is a session within the limits, and each number has one such text.
#![tactic(auto)]

ghost use Rattle.std.specs.Prelude.{◌≡◌, ◌≤◌, ℕ, List, length};
ghost use Rattle.session_script.specs.declared.session.Session.{Session};
ghost use Rattle.session_script.specs.Script.{IsSessionOf};
ghost use Rattle.session_generate.specs.Generated.{IsGenerated};
ghost use Rattle.generated_session.specs.Shape.{IsOfShape};

/// A law, and no step of a program: the text of each number breaks no rule of a session script and passes no limit. Its session has two instances
/// of each stock code, eight cables that each lead to a later instance, two outs, and an action every eight blocks.
pub fn is_session()
    ensures session { (seed : ℕ) (text : List ℕ) → IsGenerated seed text → (session : Session) × IsSessionOf text session × IsOfShape session }
    ensures short { (seed : ℕ) (text : List ℕ) → IsGenerated seed text → length text ≤ 4608 }
{}

/// A law, and no step of a program: a number has one text.
pub fn one_text()
    ensures { (seed : ℕ) (a b : List ℕ) → IsGenerated seed a → IsGenerated seed b → a ≡ b }
{}

/// A law, and no step of a program: each number has a text.
pub fn some_text()
    ensures { (seed : ℕ) → (text : List ℕ) × IsGenerated seed text }
{}
