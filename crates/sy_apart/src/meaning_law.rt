ghost use Rattle.std.specs.Prelude.{◌≡◌, ℕ, Some, slice_get};
ghost use Rattle.sy_words.specs.declared.form.Form.TheVariants as form;
ghost use Rattle.sy_lex.specs.declared.written.Written.{Written};
ghost use Rattle.sy_spec.specs.declared.contract.DeclTree.{DeclTree};
ghost use Rattle.sy_spec.specs.declared.contract.ParamTree.{ParamTree};
ghost use Rattle.sy_spec.specs.declared.contract.SpecTree.{SpecTree};
ghost use Rattle.sy_spec.specs.declared.domain.EnumTree.{EnumTree};
ghost use Rattle.sy_spec.specs.declared.domain.TypeTree.{TypeTree};
ghost use Rattle.sy_spec.specs.declared.domain.TypeTree.TheVariants as a_type;
ghost use Rattle.sy_spec.specs.declared.position.ObligTree.{ObligTree};
ghost use Rattle.sy_spec.specs.declared.position.PowerTree.{PowerTree};
ghost use Rattle.sy_domain.specs.Chains.{type_name};
ghost use Rattle.sy_domain.specs.declared.meaning.Meaning.TheVariants as meaning;
ghost use Rattle.sy_domain.specs.declared.meaning.Sort.TheVariants as sort;
ghost use Rattle.sy_domain.specs.Names.{Named, all_names, declared, meaning_in};
ghost use Rattle.sy_apart.specs.Apart.{DeclaresOnce};

/// That each name of a specification whose names are apart stands for what it is declared as, and
/// no program.
pub fn names_mean_their_things()
    ensures names { (spec : SpecTree) → DeclaresOnce spec → (i : ℕ) (n : Named)
        → slice_get (declared spec) i ≡ Some n → meaning_in (all_names spec).table n.name.text ≡ Some n.meaning }
    ensures types { (spec : SpecTree) → DeclaresOnce spec → (i : ℕ) (tree : TypeTree)
        → slice_get spec.domain.types i ≡ Some tree
        → meaning_in (all_names spec).table (type_name tree).text ≡ Some (meaning.Type (sort.Declared i)) }
    ensures constants { (spec : SpecTree) → DeclaresOnce spec → (i k : ℕ) (name : Written) (enumeration : EnumTree) (constant : Written)
        → slice_get spec.domain.types i ≡ Some (a_type.Enumeration name enumeration)
        → slice_get enumeration.constants k ≡ Some constant
        → meaning_in (all_names spec).table constant.text ≡ Some (meaning.Constant i k) }
    ensures parameters { (spec : SpecTree) → DeclaresOnce spec → (i : ℕ) (parameter : ParamTree)
        → slice_get spec.contract.parameters i ≡ Some parameter
        → meaning_in (all_names spec).table parameter.name.text ≡ Some (meaning.Parameter i) }
    ensures declarations { (spec : SpecTree) → DeclaresOnce spec → (i : ℕ) (declaration : DeclTree)
        → slice_get spec.contract.declarations i ≡ Some declaration
        → meaning_in (all_names spec).table declaration.name.text ≡ Some (meaning.Declaration i) }
    ensures obligations { (spec : SpecTree) → DeclaresOnce spec → (i : ℕ) (obligation : ObligTree)
        → slice_get spec.contract.obligations i ≡ Some obligation
        → meaning_in (all_names spec).table obligation.name.text ≡ Some (meaning.Position form.Obligation i) }
    ensures surviving { (spec : SpecTree) → DeclaresOnce spec → (i : ℕ) (obligation : ObligTree)
        → slice_get spec.contract.surviving i ≡ Some obligation
        → meaning_in (all_names spec).table obligation.name.text ≡ Some (meaning.Position form.Surviving i) }
    ensures powers { (spec : SpecTree) → DeclaresOnce spec → (i : ℕ) (power : PowerTree)
        → slice_get spec.contract.powers i ≡ Some power
        → meaning_in (all_names spec).table power.name.text ≡ Some (meaning.Position form.Power i) }
{}
