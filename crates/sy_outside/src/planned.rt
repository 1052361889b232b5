ghost use Rattle.std.specs.Prelude.{◌≡◌, ◌<◌, ◌-◌, true, Some, length, min, is_err, IfOk};
ghost use Rattle.std.specs.Io.{ReadsAtMost, WritesAtMost};
ghost use Rattle.std.specs.Io.KnownBytes.{ReadConsumes, WriteAppends};
ghost use Rattle.sy_outside.specs.Outside.{HasCause, RoseSince, GivesFile};
ghost use Rattle.sy_outside.specs.Sure.{file_of};
ghost use Rattle.sy_outside.specs.Planned.{new_plan, is_planned, after_call, new_files, length_from, read_fails, new_source, new_sink, room_left, write_fails};

use crate::sure::{copy_front, copy_part, find_file};
use crate::{Failed, Files, Named, Sink, Source};
use std::alloc::Global;
use std::marker::Model;
use sy_base::{List, Memory, Text};

/// Which calls on an object are to fail, counted from 1, and how many were made and have failed. Both
/// counts stop at 2^64 - 1.
#[derive(Debug, Drop)]
struct Plan {
    failing: List<u64>,
    calls: u64,
    faults: u64,
}

impl Model for Plan {
    ghost use Rattle.sy_outside.specs.Planned as planned;

    ghost Value = { planned.Plan };

    ghost view = { λ p. record { failing = p.failing; calls = p.calls; faults = p.faults } };
}

impl Plan {
    fn new(failing: List<u64>) -> Plan
        ensures { result ≡ new_plan failing }
    {
        Plan {
            failing,
            calls: 0,
            faults: 0,
        }
    }

    /// Counts a call that fails.
    fn fail(&mut self) -> Failed
        ensures counted { self.new ≡ after_call self.old true }
        ensures rose { RoseSince self.old.faults self.new.faults }
    {
        self.calls = self.calls.saturating_add(1);
        self.faults = self.faults.saturating_add(1);
        Failed
    }

    /// Counts a call that can be done. It fails where that is planned.
    fn call(&mut self) -> Result<(), Failed>
        ensures planned { is_err result ≡ is_planned self.old }
        ensures counted { self.new ≡ after_call self.old (is_err result) }
        ensures cause { HasCause self.old.faults self.new.faults result }
    {
        let number = self.calls.saturating_add(1);
        if self.failing.items().contains(&number) {
            return Err(self.fail());
        }
        self.calls = number;
        Ok(())
    }
}

/// Files in memory, of which each name is lent. The calls that are planned fail, and each read of a
/// name that they don't have. Of a name that it was given twice the first counts.
#[derive(Debug, Drop)]
pub struct MemFiles {
    files: List<Named>,
    plan: Plan,
}

impl Model for MemFiles {
    ghost use Rattle.sy_outside.specs.Planned.{PlannedFiles};

    ghost Value = { PlannedFiles };

    ghost view = { λ f. record { files = f.files; plan = f.plan } };
}

impl MemFiles {
    /// `failing` has the numbers of the calls that are to fail, counted from 1.
    pub fn new(files: List<Named>, failing: List<u64>) -> MemFiles
        ensures { result ≡ new_files files failing }
    {
        MemFiles {
            files,
            plan: Plan::new(failing),
        }
    }
}

impl Files for MemFiles {
    ghost lent = { λ _ _. true };

    ghost told = { λ f name. Some (file_of f.files name) };

    ghost faults = { λ f. f.plan.faults };

    /// Where it doesn't fail it gives all that stands from there on, as far as `buf` allows.
    fn read(&mut self, name: &Text, from: u64, buf: &mut [u8]) -> Result<usize, Failed>
        ensures bound { ReadsAtMost result buf.new }
        ensures bytes { GivesFile (Some (file_of self.old.files name.now)) from result buf.new }
        ensures cause { HasCause self.old.plan.faults self.new.plan.faults result }
        ensures count { IfOk result
            (λ n. n ≡ min (length_from self.old name.now from) (length buf.new)) }
        ensures planned { is_err result ≡ read_fails self.old name.now }
        ensures after { self.new ≡ record self.old {
          plan = after_call self.old.plan (is_err result);
        } }
    {
        match find_file(self.files.items(), name) {
            Some(file) => {
                self.plan.call()?;
                Ok(copy_part(file.bytes.bytes(), from, buf))
            }
            None => Err(self.plan.fail()),
        }
    }
}

/// A source in memory that gives at most `most` bytes per read. The calls that are planned fail.
#[derive(Debug, Drop)]
pub struct MemSource {
    bytes: Text,
    at: usize,
    most: usize,
    plan: Plan,
}

impl Model for MemSource {
    ghost use Rattle.std.specs.Prelude.{drop, ◌<◌, ◌≤◌, length};
    ghost use Rattle.sy_outside.specs.Planned.{PlannedSource};

    ghost Value = { PlannedSource };

    ghost view = { λ s. record { left = drop s.at s.bytes; most = s.most; plan = s.plan } };

    ghost invariant = { λ s. (0 < s.most) × (s.at ≤ length s.bytes) };
}

impl MemSource {
    /// `most` is at least 1. `failing` has the numbers of the calls that are to fail, counted from 1.
    pub fn new(bytes: Text, most: usize, failing: List<u64>) -> MemSource
        requires { 0 < most }
        ensures { result ≡ new_source bytes most failing }
    {
        MemSource {
            bytes,
            at: 0,
            most,
            plan: Plan::new(failing),
        }
    }
}

impl Source for MemSource {
    ghost left = { λ s. Some s.left };

    ghost faults = { λ s. s.plan.faults };

    /// Where it doesn't fail it gives all that is left, as far as `most` and `buf` allow.
    fn read(&mut self, buf: &mut [u8]) -> Result<usize, Failed>
        ensures bound { ReadsAtMost result buf.new }
        ensures bytes { ReadConsumes (Some self.old.left) (Some self.new.left) result buf.new }
        ensures cause { HasCause self.old.plan.faults self.new.plan.faults result }
        ensures count { IfOk result
            (λ n. n ≡ min self.old.most (min (length self.old.left) (length buf.new))) }
        ensures planned { is_err result ≡ is_planned self.old.plan }
        ensures after { self.new ≡ record self.old {
          left = self.new.left;
          plan = after_call self.old.plan (is_err result);
        } }
    {
        let left = &self.bytes.bytes()[self.at..];
        self.plan.call()?;
        let count = copy_front(left, self.most, buf);
        self.at += count;
        Ok(count)
    }
}

/// A sink in memory that takes the first bytes of a piece, as far as it has room. The calls that are
/// planned fail, and where no room is left each write of a piece that isn't empty.
#[derive(Debug, Drop)]
pub struct MemSink {
    held: Vec<u8>,
    room: usize,
    plan: Plan,
}

impl Model for MemSink {
    ghost use Rattle.std.specs.Prelude.{◌≤◌, vec_len};
    ghost use Rattle.std.specs.Vec.{vec_capacity};
    ghost use Rattle.sy_outside.specs.Planned.{PlannedSink};

    ghost Value = { PlannedSink };

    ghost view = { λ s. record { held = s.held.items; room = s.room; plan = s.plan } };

    ghost invariant = { λ s. (vec_len s.held ≤ s.room) × (s.room ≤ vec_capacity s.held) };
}

impl MemSink {
    /// A sink that can hold `room` bytes, and takes the memory for them at once. `failing` has the
    /// numbers of the calls that are to fail, counted from 1.
    pub fn new(alloc: Global, room: usize, failing: List<u64>) -> Result<MemSink, Memory>
        ensures { IfOk result (λ s. s ≡ new_sink room failing) }
    {
        Ok(MemSink {
            held: Vec::with_capacity(alloc, room)?,
            room,
            plan: Plan::new(failing),
        })
    }

    /// What it holds.
    pub fn bytes(&self) -> &[u8]
        ensures { result.now ≡ self.now.held }
    {
        self.held.as_slice()
    }
}

impl Sink for MemSink {
    ghost held = { λ s. Some s.held };

    ghost faults = { λ s. s.plan.faults };

    /// Where it doesn't fail it takes all of the bytes, as far as there is room.
    fn write(&mut self, bytes: &[u8]) -> Result<usize, Failed>
        ensures bound { WritesAtMost result bytes.now }
        ensures progress { IfOk result (λ n. 0 < length bytes.now → 0 < n) }
        ensures bytes { WriteAppends (Some self.old.held) (Some self.new.held) result bytes.now }
        ensures cause { HasCause self.old.plan.faults self.new.plan.faults result }
        ensures count { IfOk result (λ n. n ≡ min (room_left self.old) (length bytes.now)) }
        ensures planned { is_err result ≡ write_fails self.old bytes.now }
        ensures after { self.new ≡ record self.old {
          held = self.new.held;
          plan = after_call self.old.plan (is_err result);
        } }
    {
        let room = self.room - self.held.len();
        if room == 0 && !bytes.is_empty() {
            return Err(self.plan.fail());
        }
        self.plan.call()?;
        let count = room.min(bytes.len());
        self.held.extend_from_slice(&bytes[..count]).unwrap();
        Ok(count)
    }
}
