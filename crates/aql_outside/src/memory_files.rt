// Files in memory.
ghost use Rattle.std.specs.Prelude.{◌≡◌, ◌-◌, [], length, min, take, drop, option_map};
ghost use Rattle.aql_outside.specs.Contents.{bytes_under, content_of};

use crate::copying::copy_from;
use crate::counter::Counter;
use crate::{Failed, Files};
use std::collections::BTreeMap;

/// Files in memory, of which some calls fail.
#[derive(Drop)]
pub struct MemFiles {
    content: BTreeMap<String, Vec<u8>>,
    calls: Counter,
}

impl MemFiles {
    ghost use Rattle.aql_outside.specs.Calls.{no_calls};
    ghost use Rattle.aql_outside.specs.Memory.{files_content, files_calls};

    /// The calls whose numbers, from 1, are in the list fail, those of both methods being counted
    /// together. Takes no memory.
    pub fn new(content: BTreeMap<String, Vec<u8>>, fails: Vec<u64>) -> Self
        ensures content { files_content result ≡ content_of content }
        ensures calls { files_calls result ≡ no_calls fails.items [] }
    {
        let pieces = Vec::new(*fails.allocator());
        MemFiles {
            content,
            calls: Counter::new(fails, pieces),
        }
    }

    /// How many calls have failed.
    pub fn faults(&self) -> u64
        ensures { result ≡ (files_calls self.now).failed }
    {
        self.calls.failures()
    }
}

// The length of the bytes under a name.
fn size_in(content: &BTreeMap<String, Vec<u8>>, name: &str) -> Option<u64>
    ensures { result ≡ option_map length (content_of content.now name.now) }
{
    match content.get(name) {
        Some(bytes) => Some(bytes.len() as u64),
        None => None,
    }
}

// Copies the bytes under a name from an offset on, as many as fit.
fn copy_in(content: &BTreeMap<String, Vec<u8>>, name: &str, at: u64, into: &mut [u8]) -> usize
    ensures count { result ≡ min (length into.new)
        (length (bytes_under content.now name.now) - at) }
    ensures copied { take result into.new
        ≡ take result (drop at (bytes_under content.now name.now)) }
    ensures kept { drop result into.new ≡ drop result into.old }
    ensures same { length into.new ≡ length into.old }
{
    match content.get(name) {
        Some(bytes) => copy_from(bytes, at, into),
        None => 0,
    }
}

impl Files for MemFiles {
    ghost use Rattle.std.specs.Prelude.{◌≡◌, ◌↔◌, Some, IsErr, IfOk, OnErr, is_err, drop};
    ghost use Rattle.std.specs.Io.{ReadsAtMost};
    ghost use Rattle.aql_outside.specs.Contents.{TellsSize, GivesAt};
    ghost use Rattle.aql_outside.specs.Calls.{after_call, NextFails};
    ghost use Rattle.aql_outside.specs.Memory.{files_content, files_calls, CountsFaults};

    ghost holds = { λ s. Some (files_content s) };

    ghost faults = { λ s. (files_calls s).failed };

    ghost quiet = { Unit {0} };

    ghost counted = { λ s. s.calls.counted };

    fn size(&mut self, name: &str) -> Result<Option<u64>, Failed>
        ensures told { TellsSize (Some (files_content self.old)) name.now result }
        ensures kept { Some (files_content self.new) ≡ Some (files_content self.old) }
        ensures cause { CountsFaults (files_calls self.old) (files_calls self.new) result }
        ensures calls { files_calls self.new ≡ after_call (files_calls self.old) (is_err result) }
        ensures fails { IsErr result ↔ NextFails (files_calls self.old) }
    {
        let fails = self.calls.next_fails();
        self.calls.count(fails);
        if fails {
            return Err(Failed);
        }
        Ok(size_in(&self.content, name))
    }

    fn read_at(&mut self, name: &str, at: u64, into: &mut [u8]) -> Result<usize, Failed>
        ensures bound { ReadsAtMost result into.new }
        ensures told { GivesAt (Some (files_content self.old)) name.now at result into.new }
        ensures kept { Some (files_content self.new) ≡ Some (files_content self.old) }
        ensures cause { CountsFaults (files_calls self.old) (files_calls self.new) result }
        ensures calls { files_calls self.new ≡ after_call (files_calls self.old) (is_err result) }
        ensures fails { IsErr result ↔ NextFails (files_calls self.old) }
        ensures rest { IfOk result (λ n. drop n into.new ≡ drop n into.old) }
        ensures refused { OnErr result (into.new ≡ into.old) }
    {
        let fails = self.calls.next_fails();
        self.calls.count(fails);
        if fails {
            return Err(Failed);
        }
        Ok(copy_in(&self.content, name, at, into))
    }
}

/// Files in memory that never fail.
#[derive(Drop)]
pub struct SureFiles {
    content: BTreeMap<String, Vec<u8>>,
}

impl SureFiles {
    ghost use Rattle.aql_outside.specs.Memory.{sure_files_content};

    /// Takes no memory.
    pub fn new(content: BTreeMap<String, Vec<u8>>) -> Self
        ensures { sure_files_content result ≡ content_of content }
    {
        SureFiles { content }
    }
}

impl Files for SureFiles {
    ghost use Rattle.std.specs.Prelude.{◌≡◌, Some, IsOk, IfOk, drop};
    ghost use Rattle.std.specs.Io.{ReadsAtMost};
    ghost use Rattle.std.proofs.Common.{arith};
    ghost use Rattle.aql_outside.specs.Causes.{HasCause};
    ghost use Rattle.aql_outside.specs.Contents.{TellsSize, GivesAt};
    ghost use Rattle.aql_outside.specs.Memory.{sure_files_content};

    ghost holds = { λ s. Some (sure_files_content s) };

    ghost faults = { λ _. 0 };

    ghost quiet = { Unit {0} };

    ghost counted = { λ _. Prim.omega arith };

    fn size(&mut self, name: &str) -> Result<Option<u64>, Failed>
        ensures told { TellsSize (Some (sure_files_content self.old)) name.now result }
        ensures kept { Some (sure_files_content self.new) ≡ Some (sure_files_content self.old) }
        ensures cause { HasCause (Unit {0}) 0 0 result }
        ensures sure { IsOk result }
    {
        Ok(size_in(&self.content, name))
    }

    fn read_at(&mut self, name: &str, at: u64, into: &mut [u8]) -> Result<usize, Failed>
        ensures bound { ReadsAtMost result into.new }
        ensures told { GivesAt (Some (sure_files_content self.old)) name.now at result into.new }
        ensures kept { Some (sure_files_content self.new) ≡ Some (sure_files_content self.old) }
        ensures cause { HasCause (Unit {0}) 0 0 result }
        ensures sure { IsOk result }
        ensures rest { IfOk result (λ n. drop n into.new ≡ drop n into.old) }
    {
        Ok(copy_in(&self.content, name, at, into))
    }
}
