ghost use Rattle.std.specs.Prelude.{◌≡◌, ℕ, List, Some};
ghost use Rattle.sy_spec.specs.declared.contract.SpecTree.{SpecTree};
ghost use Rattle.sy_domain.specs.declared.meaning.Meaning.{Meaning};
ghost use Rattle.sy_domain.specs.Names.{all_names, meaning_in};
ghost use Rattle.sy_apart.specs.Things.{StandsFor};

/// That what a name stands for is there and has that name, in every specification; and no program.
pub fn meanings_are_of_things()
    ensures { (spec : SpecTree) (name : List ℕ) (meaning : Meaning)
        → meaning_in (all_names spec).table name ≡ Some meaning → StandsFor spec name meaning }
{}
