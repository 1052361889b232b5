ghost use Rattle.std.specs.Prelude.{◌≡◌, ◌<◌, ◌≤◌, ◌-◌, ◌++◌, min, true, Some, None, Ok, length, take, [], find, nat_eq, unwrap_or, IfOk};
ghost use Rattle.std.specs.Io.{ReadsAtMost, WritesAtMost};
ghost use Rattle.std.specs.Io.KnownBytes.{ReadConsumes, WriteAppends};
ghost use Rattle.std.specs.Option.{option_copied};
ghost use Rattle.std.specs.Cmp.Lexicographic.{pointwise};
ghost use Rattle.sy_outside.specs.Outside.{HasCause, StandsAt};
ghost use Rattle.sy_outside.specs.Sure.{file_of};

use crate::{Failed, Files, Sink, Source};
use std::alloc::Global;
use std::marker::Model;
use sy_base::{List, Memory, Text};

/// A file by its name.
#[derive(Debug, Drop)]
pub struct Named {
    pub name: Text,
    pub bytes: Text,
}

/// Copies the first of these bytes, at most so many, as far as there is room. It says how many.
pub(crate) fn copy_front(from: &[u8], most: usize, buf: &mut [u8]) -> usize
    ensures within { result ≤ length from.now }
    ensures room { result ≤ length buf.new }
    ensures same { take result buf.new ≡ take result from.now }
    ensures some { result ≡ 0 → 0 < length buf.new → 0 < most → length from.now ≡ 0 }
    ensures count { result ≡ min most (min (length from.now) (length buf.new)) }
{
    let count = most.min(from.len()).min(buf.len());
    buf[..count].copy_from_slice(&from[..count]);
    count
}

/// Copies the bytes of a file from there on, as far as there is room.
pub(crate) fn copy_part(file: &[u8], from: u64, buf: &mut [u8]) -> usize
    ensures stands { StandsAt file.now from result buf.new }
    ensures count { result ≡ min (length file.now - from) (length buf.new) }
{
    let from = from.min(file.len() as u64) as usize;
    copy_front(&file[from..], usize::MAX, buf)
}

/// The first file with this name.
pub(crate) fn find_file<'a>(files: &'a [Named], name: &Text) -> Option<&'a Named>
    ensures { option_copied result ≡ find (λ f. pointwise nat_eq f.name name.now) files.now }
{
    files.iter().find(|f| f.name == *name)
}

/// Files in memory that never fail. Each name is lent. A name that it wasn't given is an empty file,
/// and of a name that it was given twice the first counts.
#[derive(Debug, Drop)]
pub struct SureFiles {
    files: List<Named>,
}

impl Model for SureFiles {
    ghost use Rattle.std.specs.Prelude.{List};
    ghost use Rattle.sy_outside.specs.declared.sure.Named.{Named};
    ghost use Rattle.std.specs.Coded.{coded_list};

    ghost Value = { List Named };

    ghost view = { λ f. f.files };
}

impl SureFiles {
    /// These files and no others.
    pub fn new(files: List<Named>) -> SureFiles
        ensures { result ≡ files }
    {
        SureFiles { files }
    }
}

impl Files for SureFiles {
    ghost lent = { λ _ _. true };

    ghost told = { λ files name. Some (Some (unwrap_or (file_of files name) [])) };

    ghost faults = { λ _. 0 };

    fn read(&mut self, name: &Text, from: u64, buf: &mut [u8]) -> Result<usize, Failed> {
        match find_file(self.files.items(), name) {
            Some(file) => Ok(copy_part(file.bytes.bytes(), from, buf)),
            None => Ok(0),
        }
    }
}

/// A source in memory that never fails and gives at most `most` bytes per read.
#[derive(Debug, Drop)]
pub struct SureSource {
    bytes: Text,
    at: usize,
    most: usize,
}

impl Model for SureSource {
    ghost use Rattle.std.specs.Prelude.{drop, ◌<◌, ◌≤◌, length};
    ghost use Rattle.sy_outside.specs.Sure.{SureSourceState};

    ghost Value = { SureSourceState };

    ghost view = { λ s. record { left = drop s.at s.bytes; most = s.most } };

    ghost invariant = { λ s. (0 < s.most) × (s.at ≤ length s.bytes) };
}

impl SureSource {
    /// A source of these bytes. `most` is at least 1.
    pub fn new(bytes: Text, most: usize) -> SureSource
        requires { 0 < most }
        ensures { result ≡ record { left = bytes; most = most } }
    {
        SureSource { bytes, at: 0, most }
    }
}

impl Source for SureSource {
    ghost left = { λ s. Some s.left };

    ghost faults = { λ _. 0 };

    /// It gives all that is left, as far as `most` and `buf` allow.
    fn read(&mut self, buf: &mut [u8]) -> Result<usize, Failed>
        ensures bound { ReadsAtMost result buf.new }
        ensures bytes { ReadConsumes (Some self.old.left) (Some self.new.left) result buf.new }
        ensures cause { HasCause 0 0 result }
        ensures count { result ≡ Ok (min self.old.most (min (length self.old.left) (length buf.new))) }
        ensures most { self.new.most ≡ self.old.most }
    {
        let count = copy_front(&self.bytes.bytes()[self.at..], self.most, buf);
        self.at += count;
        Ok(count)
    }
}

/// A sink in memory that takes every write whole and never fails. It keeps the first bytes that it
/// has room for. As a `Sink` it tells nothing of them.
#[derive(Debug, Drop)]
pub struct SureSink {
    kept: Vec<u8>,
    room: usize,
}

impl Model for SureSink {
    ghost use Rattle.std.specs.Prelude.{◌≤◌, vec_len};
    ghost use Rattle.std.specs.Vec.{vec_capacity};
    ghost use Rattle.sy_outside.specs.Sure.{SureSinkState};

    ghost Value = { SureSinkState };

    ghost view = { λ s. record { kept = s.kept.items; room = s.room } };

    ghost invariant = { λ s. (vec_len s.kept ≤ s.room) × (s.room ≤ vec_capacity s.kept) };
}

impl SureSink {
    /// A sink that keeps at most `room` bytes. It takes the memory for them at once.
    pub fn new(alloc: Global, room: usize) -> Result<SureSink, Memory>
        ensures { IfOk result (λ s. s ≡ record { kept = []; room = room }) }
    {
        Ok(SureSink {
            kept: Vec::with_capacity(alloc, room)?,
            room,
        })
    }

    /// What it keeps.
    pub fn bytes(&self) -> &[u8]
        ensures { result.now ≡ self.now.kept }
    {
        self.kept.as_slice()
    }
}

impl Sink for SureSink {
    ghost held = { λ _. None };

    ghost faults = { λ _. 0 };

    /// It takes all of the bytes, and keeps the first of them, as far as there is room.
    fn write(&mut self, bytes: &[u8]) -> Result<usize, Failed>
        ensures bound { WritesAtMost result bytes.now }
        ensures progress { IfOk result (λ n. 0 < length bytes.now → 0 < n) }
        ensures bytes { WriteAppends None None result bytes.now }
        ensures cause { HasCause 0 0 result }
        ensures whole { result ≡ Ok (length bytes.now) }
        ensures kept { self.new ≡ record self.old { kept = take self.old.room (self.old.kept ++ bytes.now) } }
    {
        let left = self.room - self.kept.len();
        let count = left.min(bytes.len());
        self.kept.extend_from_slice(&bytes[..count]).unwrap();
        Ok(bytes.len())
    }
}
