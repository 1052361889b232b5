ghost use Rattle.std.specs.Prelude.{◌≡◌, ℕ, Bool, List, None, IsTrue, filter};
ghost use Rattle.std.specs.List.{list_all};
ghost use Rattle.sy_spec.specs.declared.contract.DeclTree.{DeclTree};
ghost use Rattle.sy_spec.specs.declared.contract.SpecTree.{SpecTree};
ghost use Rattle.sy_core.specs.Soundness.{are_distinct};
ghost use Rattle.sy_domain.specs.Checks.{domain_checks, names_apart};
ghost use Rattle.sy_domain.specs.Failures.{fault_of, refusal_of};
ghost use Rattle.sy_apart.specs.Apart.{DeclaresOnce, constant_names, declaration_names, declared_texts, position_names};

/// That a specification whose domain part is accepted has names that are apart, and no program.
/// Then no two of its names have the same text: so no two positions, no two of any of its
/// declarations, and no two constants of one enumeration.
pub fn names_are_apart()
    ensures accepted { (spec : SpecTree) → fault_of (domain_checks spec) ≡ None → refusal_of (names_apart spec) ≡ None }
    ensures passed { (spec : SpecTree) → refusal_of (names_apart spec) ≡ None → DeclaresOnce spec }
    ensures names { (spec : SpecTree) → DeclaresOnce spec → IsTrue (are_distinct (declared_texts spec)) }
    ensures positions { (spec : SpecTree) → DeclaresOnce spec → IsTrue (are_distinct (position_names spec.contract)) }
    ensures declarations { (spec : SpecTree) → DeclaresOnce spec → (test : DeclTree → Bool)
        → IsTrue (are_distinct (declaration_names (filter test spec.contract.declarations))) }
    ensures constants { (spec : SpecTree) → DeclaresOnce spec
        → IsTrue (list_all (λ tree. are_distinct (constant_names tree)) spec.domain.types) }
{}
