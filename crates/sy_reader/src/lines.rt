ghost use Rattle.std.specs.Prelude.{◌≡◌, ◌≤◌, Bool, length, OnOk};
ghost use Rattle.sy_lex.specs.declared.token.TokenKind.{TokenKind as AKind};
ghost use Rattle.sy_reader.specs.Machine.Reading.{Reads};
ghost use Rattle.sy_reader.specs.Machine.ReadingLines as reading;
ghost use Rattle.sy_reader.specs.Machine.ReadingLines.{ended_at};

use crate::production::{Production, before};
use crate::{Fault, Reader};
use sy_base::List;
use sy_lex::{Sign, TokenKind};

/// The words that head or end the parts of a file.
pub trait Headings {
    /// Whether it is one of them.
    ghost is_heading: { AKind → Bool };

    /// Whether it is one of them.
    fn is_heading(kind: TokenKind) -> bool
        ensures { result ≡ is_heading kind };
}

/// The headings of a file that has no parts: none.
pub struct NoHeadings;

impl Headings for NoHeadings {
    ghost is_heading = { reading.no_heading };

    fn is_heading(_kind: TokenKind) -> bool {
        false
    }
}

/// Whether a line follows, and not a heading or the end of all.
fn has_line<H: Headings>(reader: &Reader<'_>) -> bool
    ensures { result ≡ reading.has_line H.is_heading reader.now }
{
    match reader.next() {
        Some(kind) => !H::is_heading(kind),
        None => false,
    }
}

/// Reads lines up to the next heading, each with its semicolon.
pub fn ended<T: Production, H: Headings>(reader: &mut Reader<'_>) -> Result<List<T>, Fault>
    ensures gives { Reads result reader.old reader.new (ended_at H.is_heading T.reading) }
    ensures within { OnOk result (length reader.new ≤ length reader.old) }
{
    let mut items = List::new(reader.alloc());
    'line: while has_line::<H>(reader) {
        items.push(before(reader, Sign::Semicolon)?)?;
    }
    Ok(items)
}
