// What the definitions say by themselves.
ghost use Rattle.std.specs.Prelude.{◌≡◌, ℕ, List, Err};
ghost use Rattle.addr_words.specs.{Token};
ghost use Rattle.addr_grammar.specs.declared.faults.GrammarFault.TheVariants.{Memory};
ghost use Rattle.addr_grammar.specs.FirstFaults.{OptionsBeginBehindCommas};
ghost use Rattle.addr_grammar.specs.Grammar.{Piece, head_of, options_of, single_of, address_of, reading};

/// No text, and no part of one, is said to want memory: that fault is a call's alone.
pub fn addresses_are_told()
    ensures text { (text : List ℕ) → reading text ≡ Err Memory → ⊥ }
    ensures address { (tokens : List Token) → address_of tokens ≡ Err Memory → ⊥ }
    ensures single { (tokens : List Token) → single_of tokens ≡ Err Memory → ⊥ }
    ensures head { (tokens : List Token) → head_of tokens ≡ Err Memory → ⊥ }
    ensures options { (parts : List Piece) → options_of parts ≡ Err Memory → ⊥ }
{}

/// The options of an address begin just behind the commas that part it.
pub fn options_begin()
    ensures { OptionsBeginBehindCommas }
{}
