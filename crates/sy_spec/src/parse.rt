ghost use Rattle.std.specs.Prelude.{◌≡◌, ◌⊎◌, ◌<◌, ◌^◌, length, IfOk, IfErr};
ghost use Rattle.sy_base.specs.declared.refusal.FileKind.TheVariants as files;
ghost use Rattle.sy_base.specs.declared.refusal.Refusal.{Refusal as ARefusal};
ghost use Rattle.sy_base.specs.declared.refusal.Refused.TheVariants.{Refusal as Because};
ghost use Rattle.sy_lex.specs.Lexemes.{lexemes_of};
ghost use Rattle.sy_reader.specs.Faults.{IsReadAs, IsSyntaxFault};
ghost use Rattle.sy_spec.specs.Spelling.{SpellsSpec};
ghost use Rattle.sy_spec.specs.declared.contract.SpecTree.{SpecTree as ASpec};

use crate::SpecTree;
use std::alloc::Global;
use sy_base::{FileKind, Refused};
use sy_lex::Token;
use sy_reader::parse;

/// Reads a specification from its tokens.
///
/// It is refused as SyntaxFault, in the file `spec`, where the tokens spell none: at the first token
/// after which the tokens so far begin none, with that token's text, or at the end of the source,
/// without words.
pub fn spec(alloc: Global, source: &[u8], tokens: &[Token]) -> Result<SpecTree, Refused>
    requires few { length source.now < 2 ^ 32 }
    // The tokens spell the tree that is answered.
    ensures found { IfOk result (λ tree. SpellsSpec tree (lexemes_of source.now tokens.now)) }
    // Where they spell one, it is answered, unless memory is wanting.
    ensures only { (tree : ASpec) → SpellsSpec tree (lexemes_of source.now tokens.now)
        → IsReadAs result tree }
    ensures refusal { IfErr result (IsSyntaxFault files.Spec SpellsSpec source.now tokens.now) }
    // They have at most one refusal.
    ensures one_refusal { (refusal other : ARefusal)
        → IsSyntaxFault files.Spec SpellsSpec source.now tokens.now (Because refusal)
        → IsSyntaxFault files.Spec SpellsSpec source.now tokens.now (Because other) → refusal ≡ other }
    // They spell a tree or have a refusal.
    ensures either { ((tree : ASpec) × SpellsSpec tree (lexemes_of source.now tokens.now))
        ⊎ ((refusal : ARefusal) × IsSyntaxFault files.Spec SpellsSpec source.now tokens.now (Because refusal)) }
    // They spell at most one.
    ensures one { (tree other : ASpec) → SpellsSpec tree (lexemes_of source.now tokens.now)
        → SpellsSpec other (lexemes_of source.now tokens.now) → tree ≡ other }
{
    parse(alloc, FileKind::Spec, source, tokens)
}
