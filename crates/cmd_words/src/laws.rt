// What the definitions say by themselves.
ghost use Rattle.std.specs.Prelude.{◌≡◌, ℕ, List, Err};
ghost use Rattle.cmd_words.specs.declared.faults.CommandFault.TheVariants as faults;
ghost use Rattle.cmd_words.specs.Commands.{command};

/// No words are said to want memory: that fault is a call's alone.
pub fn command_is_told()
    ensures { (words : List (List ℕ)) → command words ≡ Err faults.Memory → ⊥ }
{}
