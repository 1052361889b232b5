ghost use Rattle.std.specs.Prelude.{◌≡◌, ◌≤◌, ◌<◌, ◌+◌, ◌^◌, ◌⊎◌, ◌++◌, IsTrue, IsNone, IsSome, OnOk, OnErr, IfOk, IfErr, Some, List, [], ℕ, length, drop, false, vec_len};
ghost use Rattle.std.specs.Option.{is_some};
ghost use Rattle.std.specs.Io.{StartsWith, appended_bytes};
ghost use Rattle.std.specs.Io.KnownBytes.{Consumes, IsAtEnd};
ghost use Rattle.sy_outside.specs.Outside.{CauseOf};
ghost use Rattle.sy_outside.specs.Lines.{has_newline};
ghost use Rattle.sy_outside.specs.LineReaderState.{new_line_reader};
ghost use Rattle.sy_outside.specs.LineReading.{CutsLines, Next, ReadsAsNeeded, is_read_fault};
ghost use Rattle.sy_outside.specs.Machine.Filling.{CutsHeld, IsFirstNewline, IsReadingFault, LeavesOff};
ghost use Rattle.sy_outside.specs.declared.lines.LineFault.TheVariants.{ReadFault, Memory as OutOfMemory};

use crate::outside::PIECE;
use crate::{Failed, Source};
use std::alloc::{AllocError, Global};
use std::marker::Model;
use sy_base::{Memory, Text};
use thiserror::Error;

/// A line of input, without its newline. Lines are counted from 1.
#[derive(Debug, Drop)]
pub struct Line {
    pub number: u64,
    pub bytes: Text,
}

/// Why there is no next line.
#[derive(Clone, Copy, Debug, PartialEq, Eq, Error)]
pub enum LineFault {
    #[error("a read of the input failed")]
    ReadFault,
    #[error("the line has more than 4,096 bytes")]
    TooLong,
    #[error("the input has more than 2^32 lines")]
    TooManyLines,
    #[error("out of memory")]
    Memory,
}

impl From<Failed> for LineFault {
    ghost from_gives = { λ _ fault. fault ≡ ReadFault };

    fn from(_: Failed) -> LineFault {
        LineFault::ReadFault
    }
}

impl From<AllocError> for LineFault {
    ghost from_gives = { λ _ fault. fault ≡ OutOfMemory };

    fn from(_: AllocError) -> LineFault {
        LineFault::Memory
    }
}

impl From<Memory> for LineFault {
    ghost from_gives = { λ _ fault. fault ≡ OutOfMemory };

    fn from(_: Memory) -> LineFault {
        LineFault::Memory
    }
}

/// The greatest length of a line, in bytes.
pub const LINE_LIMIT: usize = 4096;

/// The greatest number of lines.
pub const LINE_COUNT: u64 = 1 << 32;

/// Where the first newline stands.
fn newline_at(bytes: &[u8]) -> Option<usize>
    ensures { IsFirstNewline bytes.now result }
{
    'bytes: for (place, byte) in bytes.iter().enumerate() {
        if *byte == b'\n' {
            return Some(place);
        }
    }
    None
}

/// One read of the source onto the end of what is held.
fn read_more<S: Source>(
    piece: &mut [u8],
    held: &mut Vec<u8>,
    ended: &mut bool,
    source: &mut S,
) -> Result<(), LineFault>
    requires { length piece.old ≡ PIECE }

    ensures starts { StartsWith held.new.items held.old.items }
    ensures bytes { Consumes (S.left source.old) (S.left source.new) (appended_bytes held.old.items held.new.items) }
    ensures goes { OnOk result ((length held.old.items < length held.new.items) ⊎ IsTrue ended.new) }
    ensures ended { IsTrue ended.new → IsTrue ended.old ⊎ IsAtEnd (S.left source.new) }
    ensures stays { IsTrue ended.old → IsTrue ended.new }
    ensures piece { length held.new.items ≤ length held.old.items + PIECE }
    ensures kept { OnErr result ((held.new.items ≡ held.old.items) × (ended.new ≡ ended.old)) }
    ensures err { IfErr result IsReadingFault }

    ensures cause { CauseOf is_read_fault (S.faults source.old) (S.faults source.new) result }
    ensures told { is_some (S.left source.new) ≡ is_some (S.left source.old) }
{
    held.reserve(piece.len())?;
    let count = source.read(piece)?;
    if count == 0 {
        *ended = true;
    } else {
        held.extend_from_slice(&piece[..count]).unwrap();
    }
    Ok(())
}

/// Reads until a newline is held, the source has ended, or more is held than a line may have. It
/// says where the newline stands, and looks at each byte that it reads once.
fn fill<S: Source>(
    piece: &mut [u8],
    held: &mut Vec<u8>,
    ended: &mut bool,
    source: &mut S,
) -> Result<Option<usize>, LineFault>
    requires piece { length piece.old ≡ PIECE }
    requires none { has_newline held.old.items ≡ false }

    ensures starts { StartsWith held.new.items held.old.items }
    ensures bytes { Consumes (S.left source.old) (S.left source.new) (appended_bytes held.old.items held.new.items) }
    ensures place { IfOk result (IsFirstNewline held.new.items) }
    ensures whole { IfOk result (λ place. IsNone place → IsTrue ended.new ⊎ (4096 < length held.new.items)) }
    ensures ended { IsTrue ended.new → IsTrue ended.old ⊎ IsAtEnd (S.left source.new) }
    ensures stays { IsTrue ended.old → IsTrue ended.new }
    ensures idle { IsTrue ended.old → held.new.items ≡ held.old.items }
    ensures needed { (held.new.items ≡ held.old.items) ⊎ ReadsAsNeeded held.new.items }
    ensures few { length held.old.items ≤ 4096 + 65536 → length held.new.items ≤ 4096 + 65536 }
    ensures err { IfErr result (LeavesOff held.new.items ended.new) }

    ensures cause { CauseOf is_read_fault (S.faults source.old) (S.faults source.new) result }
    ensures told { is_some (S.left source.new) ≡ is_some (S.left source.old) }
{
    'reads: while !*ended && held.len() <= LINE_LIMIT {
        let before = held.len();
        read_more(piece, held, ended, source)?;
        if let Some(place) = newline_at(&held[before..]) {
            return Ok(Some(before + place));
        }
    }
    Ok(None)
}

/// Takes the first bytes out of the buffer.
fn drop_front(buffer: &mut Vec<u8>, count: usize)
    requires { count ≤ length buffer.old.items }
    ensures { buffer.new.items ≡ drop count buffer.old.items }
{
    let left = buffer.len() - count;
    buffer.rotate_left(count);
    buffer.truncate(left);
}

/// A line, and how many bytes of what is held it took, with its newline.
#[derive(Drop)]
struct Cut {
    line: Line,
    size: usize,
}

/// Cuts off the first line of what is held: up to its newline, or all where it has none.
fn cut_line(
    alloc: Global,
    held: &[u8],
    newline: Option<usize>,
    given: u64,
) -> Result<Option<Cut>, LineFault>
    requires place { IsFirstNewline held.now newline }
    requires count { given ≤ 2 ^ 32 }
    ensures cuts { CutsHeld held.now newline given result }
    ensures no_fault { IfErr result (λ e. is_read_fault e ≡ false) }
{
    if held.is_empty() {
        return Ok(None);
    }
    if given == LINE_COUNT {
        return Err(LineFault::TooManyLines);
    }
    let (length, size) = match newline {
        Some(place) => (place, place + 1),
        None => (held.len(), held.len()),
    };
    if length > LINE_LIMIT {
        return Err(LineFault::TooLong);
    }
    let line = Line {
        number: given + 1,
        bytes: Text::new(alloc, &held[..length])?,
    };
    Ok(Some(Cut { line, size }))
}

/// Finds the first newline of what is held, which stands in the buffer from `at` on. It reads on
/// where there is none yet, and first moves what is held to the front.
fn find_newline<S: Source>(
    piece: &mut [u8],
    buffer: &mut Vec<u8>,
    at: &mut usize,
    ended: &mut bool,
    source: &mut S,
) -> Result<Option<usize>, LineFault>
    requires piece { length piece.old ≡ PIECE }
    requires within { at.old ≤ length buffer.old.items }

    ensures within { at.new ≤ length buffer.new.items }
    ensures starts { StartsWith (drop at.new buffer.new.items) (drop at.old buffer.old.items) }
    ensures bytes { Consumes (S.left source.old) (S.left source.new) (appended_bytes (drop at.old buffer.old.items) (drop at.new buffer.new.items)) }
    ensures place { IfOk result (IsFirstNewline (drop at.new buffer.new.items)) }
    ensures whole { IfOk result (λ place. IsNone place → IsTrue ended.new ⊎ (4096 < length (drop at.new buffer.new.items))) }
    ensures ended { IsTrue ended.new → IsTrue ended.old ⊎ IsAtEnd (S.left source.new) }
    ensures stays { IsTrue ended.old → IsTrue ended.new }
    ensures idle { (IsTrue (has_newline (drop at.old buffer.old.items)) ⊎ IsTrue ended.old) → drop at.new buffer.new.items ≡ drop at.old buffer.old.items }
    ensures needed { (drop at.new buffer.new.items ≡ drop at.old buffer.old.items) ⊎ ReadsAsNeeded (drop at.new buffer.new.items) }
    ensures few { length buffer.old.items ≤ at.old + 4096 + 65536 → length buffer.new.items ≤ at.new + 4096 + 65536 }
    ensures err { IfErr result (LeavesOff (drop at.new buffer.new.items) ended.new) }

    ensures cause { CauseOf is_read_fault (S.faults source.old) (S.faults source.new) result }
    ensures told { is_some (S.left source.new) ≡ is_some (S.left source.old) }
{
    if let Some(place) = newline_at(&buffer[*at..]) {
        return Ok(Some(place));
    }
    drop_front(buffer, *at);
    *at = 0;
    fill(piece, buffer, ended, source)
}

/// Cuts a source into lines. It reads only while it holds no whole line, holds no more bytes than a
/// line may have, and was not told the end.
#[derive(Drop)]
pub struct LineReader {
    alloc: Global,
    /// What a read fills.
    piece: Vec<u8>,
    /// The bytes that were read. Those from `at` on are held: they were not given yet.
    buffer: Vec<u8>,
    at: usize,
    live: bool,
    ended: bool,
    given: u64,
}

impl Model for LineReader {
    ghost use Rattle.std.specs.Prelude.{◌≡◌, ◌≤◌, ◌+◌, ◌^◌, drop, length};
    ghost use Rattle.sy_outside.specs.LineReaderState.{LineReaderState};
    ghost use Rattle.sy_outside.specs.declared.outside.TheConstants.{PIECE};

    ghost Value = { LineReaderState };

    ghost view = { λ r. record { live = r.live; ended = r.ended; held = drop r.at r.buffer.items; given = r.given } };

    ghost invariant = { λ r. (r.given ≤ 2 ^ 32) × (r.at ≤ length r.buffer.items) × (length r.buffer.items ≤ r.at + 4096 + 65536) × (length r.piece.items ≡ PIECE) };
}

impl LineReader {
    /// A reader that has given no line.
    pub fn new(alloc: Global) -> Result<LineReader, Memory>
        ensures { IfOk result (λ r. r ≡ new_line_reader) }
    {
        Ok(LineReader {
            alloc,
            piece: vec![in alloc; 0; PIECE]?,
            buffer: Vec::with_capacity(alloc, LINE_LIMIT + PIECE)?,
            at: 0,
            live: true,
            ended: false,
            given: 0,
        })
    }

    /// Whether `next` may be called: until it answers an error, want of memory included.
    pub fn live(&self) -> bool
        ensures { result ≡ self.now.live }
    {
        self.live
    }

    /// The next line, or none at the end of input. It is TooLong at the byte after the limit of a
    /// line, TooManyLines at the line after the greatest count, and ReadFault where a read failed.
    pub fn next<S: Source>(&mut self, source: &mut S) -> Result<Option<Line>, LineFault>
        requires { IsTrue self.old.live }
        ensures next { Next self.old self.new (S.left source.old) (S.left source.new) result }
        ensures cause { CauseOf is_read_fault (S.faults source.old) (S.faults source.new) result }
        ensures lines { (bytes rest : List ℕ) → S.left source.old ≡ Some bytes → S.left source.new ≡ Some rest
            → (IsTrue self.old.ended → bytes ≡ []) → CutsLines self.old self.new bytes rest result }
        ensures told { is_some (S.left source.new) ≡ is_some (S.left source.old) }
    {
        self.advance(source)
    }

    /// What `next` does. The exact contract stands here, since it alone gives the clause `lines` of
    /// `next`, whichever way the call ends.
    fn advance<S: Source>(&mut self, source: &mut S) -> Result<Option<Line>, LineFault>
        requires { IsTrue self.old.live }
        ensures next { Next self.old self.new (S.left source.old) (S.left source.new) result }
        ensures cause { CauseOf is_read_fault (S.faults source.old) (S.faults source.new) result }
        ensures told { is_some (S.left source.new) ≡ is_some (S.left source.old) }
    {
        self.live = false;
        let newline = find_newline(
            &mut self.piece,
            &mut self.buffer,
            &mut self.at,
            &mut self.ended,
            source,
        )?;
        match cut_line(self.alloc, &self.buffer[self.at..], newline, self.given)? {
            Some(Cut { line, size }) => {
                self.live = true;
                self.at += size;
                self.given += 1;
                Ok(Some(line))
            }
            None => {
                self.live = true;
                Ok(None)
            }
        }
    }
}
