// What the spelling of journals says by itself.
ghost use Rattle.std.specs.Prelude.{◌≡◌, ℕ, List};
ghost use Rattle.std.specs.List.{AllByRecursion};
ghost use Rattle.relay_model.specs.{Act};
ghost use Rattle.journal_text.specs.Lines.{spelt};
ghost use Rattle.journal_text.specs.Ranges.{IsAct};
ghost use Rattle.journal_text.specs.Texts.{IsTextOf, IsFirstBadLine, kept};

/// No two journals have one text, and what was written reads as that journal: acts are the same but for the
/// room of what their turns name.
pub fn one_journal()
    ensures text { (text : List ℕ) (acts others : List Act) → IsTextOf text acts → IsTextOf text others → kept acts ≡ kept others }
    ensures again { (acts others : List Act) → AllByRecursion IsAct acts → IsTextOf (spelt acts) others → kept others ≡ kept acts }
{}

/// The text of a journal has no bad line, and no text has two first ones.
pub fn one_bad_line()
    ensures none { (text : List ℕ) (acts : List Act) (number : ℕ) → IsTextOf text acts → ¬ (IsFirstBadLine text number) }
    ensures first { (text : List ℕ) (number other : ℕ) → IsFirstBadLine text number → IsFirstBadLine text other → number ≡ other }
{}
