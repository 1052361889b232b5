ghost use Rattle.std.specs.Prelude.{◌≡◌, ◌⊎◌, ◌<◌, ◌^◌, length, IfOk, IfErr};
ghost use Rattle.sy_base.specs.declared.refusal.FileKind.TheVariants as files;
ghost use Rattle.sy_base.specs.declared.refusal.Refusal.{Refusal as ARefusal};
ghost use Rattle.sy_base.specs.declared.refusal.Refused.TheVariants.{Refusal as Because};
ghost use Rattle.sy_lex.specs.Lexemes.{lexemes_of};
ghost use Rattle.sy_reader.specs.Faults.{IsReadAs, IsSyntaxFault};
ghost use Rattle.sy_binding.specs.Spelling.{SpellsBinding};
ghost use Rattle.sy_binding.specs.declared.tree.BindTree.{BindTree as ABinding};

use crate::BindTree;
use std::alloc::Global;
use sy_base::{FileKind, Refused};
use sy_lex::Token;
use sy_reader::parse;

/// Reads a binding from its tokens. It is refused as a specification is, in the file `bind`.
pub fn binding(alloc: Global, source: &[u8], tokens: &[Token]) -> Result<BindTree, Refused>
    requires few { length source.now < 2 ^ 32 }
    // The tokens spell the tree that is answered.
    ensures found { IfOk result (λ tree. SpellsBinding tree (lexemes_of source.now tokens.now)) }
    // Where they spell one, it is answered, unless memory is wanting.
    ensures only { (tree : ABinding) → SpellsBinding tree (lexemes_of source.now tokens.now)
        → IsReadAs result tree }
    ensures refusal { IfErr result (IsSyntaxFault files.Bind SpellsBinding source.now tokens.now) }
    // They have at most one refusal.
    ensures one_refusal { (refusal other : ARefusal)
        → IsSyntaxFault files.Bind SpellsBinding source.now tokens.now (Because refusal)
        → IsSyntaxFault files.Bind SpellsBinding source.now tokens.now (Because other) → refusal ≡ other }
    // They spell a tree or have a refusal.
    ensures either { ((tree : ABinding) × SpellsBinding tree (lexemes_of source.now tokens.now))
        ⊎ ((refusal : ARefusal) × IsSyntaxFault files.Bind SpellsBinding source.now tokens.now (Because refusal)) }
    // They spell at most one.
    ensures one { (tree other : ABinding) → SpellsBinding tree (lexemes_of source.now tokens.now)
        → SpellsBinding other (lexemes_of source.now tokens.now) → tree ≡ other }
{
    parse(alloc, FileKind::Bind, source, tokens)
}
