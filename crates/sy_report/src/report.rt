ghost use Rattle.std.specs.Prelude.{◌≡◌, ◌++◌, ◌∷◌, [], OnOk, IfOk, length, slice_get, All, codes};
ghost use Rattle.std.specs.List.{flat_map};
ghost use Rattle.sy_base.specs.Dates.{date_text};
ghost use Rattle.sy_base.specs.Points.{IsDated};
ghost use Rattle.sy_report.specs.Printing.{IsPrintable};
ghost use Rattle.sy_report.specs.ReportText as text;

use std::alloc::{AllocError, Global};
use sy_base::{Memory, Point, Text, TimeUnit};
use sy_core::{Deed, Mark, Position, StateOf, Table, Verdict, state_word};
use sy_time::write_date;
use sy_words::Form;

/// The word of a position's form.
fn form_word(form: Form) -> &'static [u8]
    ensures { result.now ≡ text.form_word form }
{
    match form {
        Form::Obligation => b"obligation",
        Form::Surviving => b"surviving",
        Form::Power => b"power",
    }
}

/// The word of a verdict.
fn verdict_word(verdict: Verdict) -> &'static [u8]
    ensures { result.now ≡ text.verdict_word verdict }
{
    match verdict {
        Verdict::False => b"False",
        Verdict::Open => b"Open",
        Verdict::True => b"True",
    }
}

/// Adds a line of one word.
fn add_word(out: &mut Vec<u8>, word: &[u8]) -> Result<(), AllocError>
    ensures { OnOk result (out.new.items ≡ out.old.items ++ text.line (word.now ∷ [])) }
{
    out.extend_from_slice(word)?;
    out.push(b'\n')?;
    Ok(())
}

/// Adds a line of two words.
fn add_pair(out: &mut Vec<u8>, first: &[u8], second: &[u8]) -> Result<(), AllocError>
    ensures { OnOk result (out.new.items ≡ out.old.items ++ text.line (first.now ∷ second.now ∷ [])) }
{
    out.extend_from_slice(first)?;
    out.push(b' ')?;
    add_word(out, second)
}

/// Adds a line of three words.
fn add_triple(
    out: &mut Vec<u8>,
    first: &[u8],
    second: &[u8],
    third: &[u8],
) -> Result<(), AllocError>
    ensures { OnOk result (out.new.items ≡ out.old.items ++ text.line (first.now ∷ second.now ∷ third.now ∷ [])) }
{
    out.extend_from_slice(first)?;
    out.push(b' ')?;
    add_pair(out, second, third)
}

/// The name of the position with this number.
fn name_of(positions: &[Position], number: u32) -> &[u8]
    ensures { result.now ≡ text.name_of (slice_get positions.now number) }
{
    match positions.get(number as usize) {
        Some(position) => position.name.bytes(),
        None => b"",
    }
}

/// Adds a line for each position.
fn add_positions(
    out: &mut Vec<u8>,
    positions: &[Position],
    states: &[StateOf],
) -> Result<(), AllocError>
    requires { length states.now ≡ length positions.now }
    ensures { OnOk result (out.new.items ≡ out.old.items ++ text.position_lines positions.now states.now) }
{
    'positions: for (i, position) in positions.iter().enumerate() {
        let state = state_word(states[i]);
        add_triple(out, form_word(position.form), position.name.bytes(), state)?;
    }
    Ok(())
}

/// Adds a line for each postcondition.
fn add_posts(alloc: Global, out: &mut Vec<u8>, posts: &[Verdict]) -> Result<(), AllocError>
    ensures { OnOk result (out.new.items ≡ out.old.items ++ text.post_lines 1 posts.now) }
{
    'posts: for (i, verdict) in posts.iter().enumerate() {
        let number = (i + 1).to_string(alloc)?;
        add_triple(out, b"post", number.as_bytes(), verdict_word(*verdict))?;
    }
    Ok(())
}

/// Adds a line of a word and a date.
fn add_date(out: &mut Vec<u8>, word: &[u8], unit: TimeUnit, point: Point) -> Result<(), AllocError>
    requires { IsDated unit point }
    ensures { OnOk result (out.new.items ≡ out.old.items ++ text.line (word.now ∷ date_text unit point ∷ [])) }
{
    let mut date = [0; 16];
    let length = write_date(unit, point, &mut date);
    add_pair(out, word, &date[..length])
}

/// Adds a line of a word, a date and a name.
fn add_dated(
    out: &mut Vec<u8>,
    word: &[u8],
    unit: TimeUnit,
    point: Point,
    name: &[u8],
) -> Result<(), AllocError>
    requires { IsDated unit point }
    ensures { OnOk result (out.new.items ≡ out.old.items ++ text.line (word.now ∷ date_text unit point ∷ name.now ∷ [])) }
{
    let mut date = [0; 16];
    let length = write_date(unit, point, &mut date);
    add_triple(out, word, &date[..length], name)
}

/// Adds a line for each mark.
fn add_marks(out: &mut Vec<u8>, word: &[u8], deed: &Deed, marks: &[Mark]) -> Result<(), AllocError>
    requires { All (λ m. IsDated deed.now.unit m.point) marks.now }
    ensures { OnOk result (out.new.items ≡ out.old.items ++ flat_map (text.mark_line deed.now word.now) marks.now) }
{
    'marks: for mark in marks {
        let name = name_of(deed.positions.items(), mark.position);
        add_dated(out, word, deed.unit, mark.point, name)?;
    }
    Ok(())
}

/// The report of a table.
pub fn report_text(alloc: Global, deed: &Deed, table: &Table) -> Result<Text, Memory>
    requires { IsPrintable deed.now table.now }
    ensures { IfOk result (λ report. report ≡ text.report_text deed.now table.now) }
{
    let mut out = Vec::new(alloc);
    add_date(&mut out, b"report", deed.unit, table.at)?;
    add_pair(&mut out, b"contract", state_word(table.contract))?;
    add_positions(&mut out, deed.positions.items(), table.states.items())?;
    add_marks(&mut out, b"violation", deed, table.violations.items())?;
    add_marks(&mut out, b"void", deed, table.voids.items())?;
    add_posts(alloc, &mut out, table.posts.items())?;
    add_word(&mut out, b"end")?;
    Ok(Text::from(out))
}
