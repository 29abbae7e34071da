// What the definitions say by themselves.
ghost use Rattle.std.specs.Prelude.{◌≡◌, ℕ, Bool, List, Err};
ghost use Rattle.relay_model.specs.{Options};
ghost use Rattle.addr_grammar.specs.{Named, Parts};
ghost use Rattle.addr_kinds.specs.declared.faults.KindFault.TheVariants.{Memory};
ghost use Rattle.addr_kinds.specs.declared.uses.Asked.{Asked};
ghost use Rattle.addr_kinds.specs.declared.kinds.Kind.{Kind};
ghost use Rattle.addr_kinds.specs.Kinds.{KnownKind};
ghost use Rattle.addr_kinds.specs.Targets.{target_of};
ghost use Rattle.addr_kinds.specs.Resolving.{kind_of, with_options, resolution};

/// No address, and no part of one, is said to want memory: that fault is a call's alone.
pub fn resolutions_are_told()
    ensures whole { (parts : Parts) (asked : Asked) (general : Bool) → resolution parts asked general ≡ Err Memory → ⊥ }
    ensures kind { (keyword : List ℕ) → kind_of keyword ≡ Err Memory → ⊥ }
    ensures target { (kind : Kind) (params : List (List ℕ)) → target_of kind params ≡ Err Memory → ⊥ }
    ensures options { (known : KnownKind) (general : Bool) (place : ℕ) (more : List Named) (options : Options) → with_options known general place more options ≡ Err Memory → ⊥ }
{}
