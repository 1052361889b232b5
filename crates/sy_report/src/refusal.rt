ghost use Rattle.std.specs.Prelude.{◌≡◌, ◌++◌, IfOk, OnOk, string_bytes};
ghost use Rattle.sy_report.specs.RefusalText as text;

use std::alloc::{AllocError, Global};
use sy_base::{FaultName, FileKind, Memory, Place, Refusal, Text};

/// A refusal of a whole file, without a place.
pub fn whole(alloc: Global, file: FileKind, name: FaultName) -> Refusal
    ensures { result ≡ text.whole file name }
{
    Refusal {
        file,
        place: None,
        name,
        words: Text::from(Vec::new(alloc)),
    }
}

/// A refusal of a line of a file.
pub fn of_line(alloc: Global, file: FileKind, line: u64, name: FaultName) -> Refusal
    ensures { result ≡ text.of_line file line name }
{
    Refusal {
        file,
        place: Some(Place { line, column: 0 }),
        name,
        words: Text::from(Vec::new(alloc)),
    }
}

/// A line and a blank, where the column is 0; else the line, the column and a blank.
fn line_and_column(alloc: Global, line: u64, column: u64) -> Result<String, AllocError>
    ensures { IfOk result (λ s. string_bytes s ≡ text.line_and_column line column) }
{
    if column == 0 {
        format!(in alloc; "{line} ")
    } else {
        format!(in alloc; "{line}:{column} ")
    }
}

/// The place with a blank behind it, where there is one.
fn place_text(alloc: Global, place: Option<Place>) -> Result<String, AllocError>
    ensures { IfOk result (λ s. string_bytes s ≡ text.place_text place) }
{
    match place {
        None => Ok(String::new(alloc)),
        Some(place) => line_and_column(alloc, place.line, place.column),
    }
}

/// Adds a blank and the words, where there are some.
fn add_words(out: &mut Vec<u8>, words: &[u8]) -> Result<(), AllocError>
    ensures { OnOk result (out.new.items ≡ out.old.items ++ text.words_text words.now) }
{
    match words {
        [] => Ok(()),
        [_, ..] => {
            out.push(b' ')?;
            out.extend_from_slice(words)
        }
    }
}

/// What a refusal says before its words.
fn head_text(
    alloc: Global,
    file: FileKind,
    place: &str,
    name: FaultName,
) -> Result<String, AllocError>
    ensures { IfOk result (λ s. string_bytes s ≡ text.head_text file place.now name) }
{
    format!(in alloc; "refused {file} {place}{name}")
}

/// The line of a refusal.
pub fn refusal_text(alloc: Global, refusal: &Refusal) -> Result<Text, Memory>
    ensures { IfOk result (λ line. line ≡ text.refusal_text refusal.now) }
{
    let place = place_text(alloc, refusal.place)?;
    let head = head_text(alloc, refusal.file, &place, refusal.name)?;
    let mut out = Vec::from_slice(alloc, head.as_bytes())?;
    add_words(&mut out, refusal.words.bytes())?;
    out.push(b'\n')?;
    Ok(Text::from(out))
}
