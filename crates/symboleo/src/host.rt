ghost use Rattle.std.specs.Prelude.{◌≡◌, ◌≤◌, ◌↔◌, ◌+◌, ◌-◌, ◌^◌, min, length, true, IsTrue, None, IfSome, IsSomeAnd};

use std::alloc::Global;
use std::io::{ErrorKind, Read, Seek, SeekFrom, Write};
use std::rt::Files as Host;
use std::{fs, str};
use sy_base::Text;
use sy_outside::{Failed, Files, Sink, Source};

/// Reads once, and again where a signal came between.
fn read_some<F: Read>(file: &mut F, buf: &mut [u8]) -> Option<usize>
    ensures { IfSome result (λ n. n ≤ length buf.new) }
{
    for _ in 0..u64::MAX {
        match file.read(buf) {
            Ok(count) => return Some(count),
            Err(error) if error.kind() == ErrorKind::Interrupted => {}
            Err(_) => return None,
        }
    }
    None
}

/// Writes once, and again where a signal came between.
fn write_some<W: Write>(out: &mut W, bytes: &[u8]) -> Option<usize>
    ensures { IfSome result (λ n. n ≤ length bytes.now) }
{
    for _ in 0..u64::MAX {
        match out.write(bytes) {
            Ok(count) => return Some(count),
            Err(error) if error.kind() == ErrorKind::Interrupted => {}
            Err(_) => return None,
        }
    }
    None
}

/// An open file, its name, and how many of its bytes were read.
#[derive(Drop)]
struct Opened<F> {
    name: Text,
    file: F,
    offset: u64,
}

impl<F: Read + Seek> Opened<F> {
    /// Opens a file there. From the beginning it isn't sought, so a pipe can be read. A name that
    /// isn't UTF-8 names no file.
    fn at<R: Host<File = F>>(rt: &R, alloc: Global, name: &Text, offset: u64) -> Option<Opened<F>>
        ensures name { IfSome result (λ opened. opened.name ≡ name.now) }
        ensures offset { IfSome result (λ opened. opened.offset ≡ offset) }
    {
        let mut file = fs::open(rt, str::from_utf8(name.bytes()).ok()?).ok()?;
        if offset > 0 {
            file.seek(SeekFrom::Start(offset)).ok()?;
        }
        let name = name.copy(alloc).ok()?;
        Some(Opened { name, file, offset })
    }

    fn stands_at(&self, name: &Text, offset: u64) -> bool
        ensures { IsTrue result ↔ ((self.now.name ≡ name.now) × (self.now.offset ≡ offset)) }
    {
        self.name == *name && self.offset == offset
    }

    fn read(&mut self, buf: &mut [u8]) -> Option<usize>
        ensures bound { IfSome result (λ n. n ≤ length buf.new) }
        ensures name { self.new.name ≡ self.old.name }
        ensures offset { IfSome result (λ n. self.new.offset ≡ min (self.old.offset + n) (2 ^ 64 - 1)) }
    {
        let count = read_some(&mut self.file, buf)?;
        self.offset = self.offset.saturating_add(count as u64);
        Some(count)
    }
}

/// The files of the system. The file that was read last stays open, and is read on where the next
/// piece of it follows. So a text is that of one file, even if another one takes its name meanwhile.
#[derive(Drop)]
pub struct HostFiles<'a, R: Host> {
    rt: &'a R,
    alloc: Global,
    opened: Option<Opened<R::File>>,
    faults: u64,
}

impl<'a, R: Host> HostFiles<'a, R> {
    pub fn new(rt: &'a R, alloc: Global) -> HostFiles<'a, R> {
        HostFiles {
            rt,
            alloc,
            opened: None,
            faults: 0,
        }
    }

    /// Bytes of the file from there on. After a fault no file is open.
    fn read_at(&mut self, name: &Text, from: u64, buf: &mut [u8]) -> Option<usize>
        ensures bound { IfSome result (λ n. n ≤ length buf.new) }
        ensures open { IfSome result (λ n. IsSomeAnd self.new.opened (λ opened.
            (opened.name ≡ name.now) × (opened.offset ≡ min (from + n) (2 ^ 64 - 1)))) }
        ensures faults { self.new.faults ≡ self.old.faults }
    {
        let mut opened = match self.opened.take() {
            Some(opened) if opened.stands_at(name, from) => opened,
            _ => Opened::at(self.rt, self.alloc, name, from)?,
        };
        let count = opened.read(buf)?;
        self.opened = Some(opened);
        Some(count)
    }
}

impl<'a, R: Host> Files for HostFiles<'a, R> {
    ghost lent = { λ _ _. true };

    ghost told = { λ _ _. None };

    ghost faults = { λ f. f.faults };

    fn read(&mut self, name: &Text, from: u64, buf: &mut [u8]) -> Result<usize, Failed> {
        match self.read_at(name, from, buf) {
            Some(count) => Ok(count),
            None => {
                self.faults = self.faults.saturating_add(1);
                Err(Failed)
            }
        }
    }
}

/// A reader of the system, as standard input.
#[derive(Drop)]
pub struct StdInput<R> {
    inner: R,
    faults: u64,
}

impl<R> StdInput<R> {
    pub fn new(inner: R) -> StdInput<R> {
        StdInput { inner, faults: 0 }
    }
}

impl<R: Read> Source for StdInput<R> {
    ghost left = { λ _. None };

    ghost faults = { λ s. s.faults };

    fn read(&mut self, buf: &mut [u8]) -> Result<usize, Failed> {
        match read_some(&mut self.inner, buf) {
            Some(count) => Ok(count),
            None => {
                self.faults = self.faults.saturating_add(1);
                Err(Failed)
            }
        }
    }
}

/// A writer of the system, as standard output.
#[derive(Drop)]
pub struct StdOutput<W> {
    inner: W,
    faults: u64,
}

impl<W> StdOutput<W> {
    pub fn new(inner: W) -> StdOutput<W> {
        StdOutput { inner, faults: 0 }
    }
}

impl<W: Write> Sink for StdOutput<W> {
    ghost held = { λ _. None };

    ghost faults = { λ s. s.faults };

    fn write(&mut self, bytes: &[u8]) -> Result<usize, Failed> {
        match write_some(&mut self.inner, bytes) {
            Some(count) if count > 0 || bytes.is_empty() => Ok(count),
            _ => {
                self.faults = self.faults.saturating_add(1);
                Err(Failed)
            }
        }
    }
}
