ghost use Rattle.std.specs.Prelude.{◌≡◌, ◌++◌, IfOk, IsTrue, OnOk, slice_get};
ghost use Rattle.std.specs.List.{flat_map};
ghost use Rattle.std.specs.Fmt.{signed_decimal};
ghost use Rattle.sy_base.specs.Dates.{date_text};
ghost use Rattle.sy_base.specs.Points.{IsDated};
ghost use Rattle.sy_core.specs.Values.{is_value_of};
ghost use Rattle.sy_log.specs.EntryText as text;
ghost use Rattle.sy_log.specs.Happenings.{IsOfDeed, are_values_at, are_values_of, is_what_of};

use std::alloc::{AllocError, Global};
use sy_base::{Memory, Point, Text, TimeUnit};
use sy_core::{AttrDecl, Deed, Happening, Value, What};
use sy_time::write_date;

/// Adds a date, in the unit's form.
fn add_date(out: &mut Vec<u8>, unit: TimeUnit, point: Point) -> Result<(), AllocError>
    requires { IsDated unit point }
    ensures { OnOk result (out.new.items ≡ out.old.items ++ date_text unit point) }
{
    let mut date = [0; 16];
    let length = write_date(unit, point, &mut date);
    out.extend_from_slice(&date[..length])
}

/// Adds a byte, behind a `\` where it is `"` or `\`.
fn add_byte(out: &mut Vec<u8>, byte: u8) -> Result<(), AllocError>
    ensures { OnOk result (out.new.items ≡ out.old.items ++ text.escaped byte) }
{
    if byte == b'"' || byte == b'\\' {
        out.push(b'\\')?;
        out.push(byte)?;
        return Ok(());
    }
    out.push(byte)?;
    Ok(())
}

/// Adds bytes, each `"` and `\` of them behind a `\`.
fn add_escaped(out: &mut Vec<u8>, bytes: &[u8]) -> Result<(), AllocError>
    ensures { OnOk result (out.new.items ≡ out.old.items ++ flat_map text.escaped bytes.now) }
{
    'byte: for byte in bytes {
        add_byte(out, *byte)?;
    }
    Ok(())
}

/// Adds a text between quotes.
fn add_quoted(out: &mut Vec<u8>, bytes: &[u8]) -> Result<(), AllocError>
    ensures { OnOk result (out.new.items ≡ out.old.items ++ text.quoted bytes.now) }
{
    out.push(b'"')?;
    add_escaped(out, bytes)?;
    out.push(b'"')?;
    Ok(())
}

/// Adds a number.
fn add_number(alloc: Global, out: &mut Vec<u8>, number: i64) -> Result<(), AllocError>
    ensures { OnOk result (out.new.items ≡ out.old.items ++ signed_decimal number) }
{
    let decimal = number.to_string(alloc)?;
    out.extend_from_slice(decimal.as_bytes())
}

/// The word of a truth value.
fn truth_word(truth: bool) -> &'static [u8]
    ensures { result.now ≡ text.truth_word truth }
{
    if truth { b"true" } else { b"false" }
}

/// The name of a constant of an enumeration, by their numbers.
fn constant_name(deed: &Deed, of: u32, constant: u32) -> &[u8]
    ensures { result.now ≡ text.constant_name (slice_get deed.now.choices of) constant }
{
    let Some(choices) = deed.choices.items().get(of as usize) else {
        return b"";
    };
    match choices.names.items().get(constant as usize) {
        Some(name) => name.bytes(),
        None => b"",
    }
}

/// Adds a value.
fn add_value(
    alloc: Global,
    out: &mut Vec<u8>,
    deed: &Deed,
    attr: &AttrDecl,
    value: &Value,
) -> Result<(), AllocError>
    requires { IsTrue (is_value_of deed.now attr.now.kind value.now) }
    ensures { OnOk result (out.new.items ≡ out.old.items ++ text.value_text deed.now value.now) }
{
    match value {
        Value::Number(number) => add_number(alloc, out, *number),
        Value::Text(bytes) => add_quoted(out, bytes.bytes()),
        Value::Boolean(truth) => out.extend_from_slice(truth_word(*truth)),
        Value::Date(point) => add_date(out, deed.unit, *point),
        Value::Choice(of, constant) => {
            out.extend_from_slice(constant_name(deed, *of, *constant))
        }
    }
}

/// Adds an attribute and its value.
fn add_field(
    alloc: Global,
    out: &mut Vec<u8>,
    deed: &Deed,
    attr: &AttrDecl,
    value: &Value,
) -> Result<(), AllocError>
    requires { IsTrue (is_value_of deed.now attr.now.kind value.now) }
    ensures { OnOk result (out.new.items ≡ out.old.items ++ text.field_text deed.now attr.now value.now) }
{
    out.extend_from_slice(attr.name.bytes())?;
    out.extend_from_slice(b" := ")?;
    add_value(alloc, out, deed, attr, value)
}

/// Adds attributes and their values, each behind a comma.
fn add_more(
    alloc: Global,
    out: &mut Vec<u8>,
    deed: &Deed,
    attrs: &[AttrDecl],
    values: &[Value],
) -> Result<(), AllocError>
    requires { IsTrue (are_values_of deed.now attrs.now values.now) }
    ensures { OnOk result (out.new.items ≡ out.old.items ++ text.more_text deed.now attrs.now values.now) }
{
    let mut rest = attrs;
    let mut left = values;
    'field: loop {
        let [attr, others @ ..] = rest else {
            return Ok(());
        };
        let [value, later @ ..] = left else {
            return Ok(());
        };
        out.extend_from_slice(b", ")?;
        add_field(alloc, out, deed, attr, value)?;
        rest = others;
        left = later;
    }
}

/// Adds attributes and their values between brackets, where there are some.
fn add_fields(
    alloc: Global,
    out: &mut Vec<u8>,
    deed: &Deed,
    attrs: &[AttrDecl],
    values: &[Value],
) -> Result<(), AllocError>
    requires { IsTrue (are_values_of deed.now attrs.now values.now) }
    ensures { OnOk result (out.new.items ≡ out.old.items ++ text.fields_text deed.now attrs.now values.now) }
{
    match (attrs, values) {
        ([attr, others @ ..], [value, later @ ..]) => {
            out.push(b'[')?;
            add_field(alloc, out, deed, attr, value)?;
            add_more(alloc, out, deed, others, later)?;
            out.push(b']')?;
            Ok(())
        }
        _ => Ok(()),
    }
}

/// Adds the event at a place, with the values of its attributes.
fn add_event(
    alloc: Global,
    out: &mut Vec<u8>,
    deed: &Deed,
    event: u32,
    values: &[Value],
) -> Result<(), AllocError>
    requires { IsTrue (are_values_at deed.now (slice_get deed.now.events event) values.now) }
    ensures { OnOk result (out.new.items
        ≡ out.old.items ++ text.event_text deed.now (slice_get deed.now.events event) values.now) }
{
    match deed.events.items().get(event as usize) {
        Some(event) => {
            out.extend_from_slice(event.name.bytes())?;
            add_fields(alloc, out, deed, event.attrs.items(), values)
        }
        None => Ok(()),
    }
}

/// The name of the position at a place.
fn position_name(deed: &Deed, position: u32) -> &[u8]
    ensures { result.now ≡ text.position_name (slice_get deed.now.positions position) }
{
    match deed.positions.items().get(position as usize) {
        Some(position) => position.name.bytes(),
        None => b"",
    }
}

/// Adds what happens.
fn add_what(alloc: Global, out: &mut Vec<u8>, deed: &Deed, what: &What) -> Result<(), AllocError>
    requires { IsTrue (is_what_of deed.now what.now) }
    ensures { OnOk result (out.new.items ≡ out.old.items ++ text.what_text deed.now what.now) }
{
    match what {
        What::Event(event, values) => {
            out.extend_from_slice(b"happens ")?;
            add_event(alloc, out, deed, *event, values.items())
        }
        What::Exert(power) => {
            out.extend_from_slice(b"exert ")?;
            out.extend_from_slice(position_name(deed, *power))
        }
    }
}

/// The line that tells a happening, without a newline. `printed_entries_read_back` says what it is
/// read as.
pub fn print_entry(alloc: Global, deed: &Deed, happening: &Happening) -> Result<Text, Memory>
    requires { IsOfDeed deed.now happening.now }
    ensures { IfOk result (λ line. line ≡ text.entry_text deed.now happening.now) }
{
    let mut out = Vec::new(alloc);
    out.extend_from_slice(b"at ")?;
    add_date(&mut out, deed.unit, happening.point)?;
    out.push(b' ')?;
    add_what(alloc, &mut out, deed, &happening.what)?;
    Ok(Text::from(out))
}
