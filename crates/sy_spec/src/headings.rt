ghost use Rattle.std.specs.Prelude.{◌≡◌};
ghost use Rattle.sy_spec.specs.Machine.ReadingSpecifications as spec;

use sy_lex::{Keyword, TokenKind};
use sy_reader::Headings;

/// The headings of the parts of a specification, and the words that end a part.
pub(crate) struct SpecHeadings;

impl Headings for SpecHeadings {
    ghost is_heading = { spec.is_heading };

    fn is_heading(kind: TokenKind) -> bool {
        let TokenKind::Reserved(keyword) = kind else {
            return false;
        };
        matches!(
            keyword,
            Keyword::EndDomain
                | Keyword::Declarations
                | Keyword::Preconditions
                | Keyword::Postconditions
                | Keyword::Obligations
                | Keyword::Surviving
                | Keyword::Powers
                | Keyword::Constraints
                | Keyword::EndContract
        )
    }
}
