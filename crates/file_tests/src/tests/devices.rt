//! Files in memory with one name, which fail or give few bytes.

use aql_outside::{Failed, Files, MemFiles, SureFiles};
use aql_value::made::both;
use aql_value::{Memory, Str};
use std::alloc::Global;
use std::collections::BTreeMap;

/// A file's name, or a variable's.
pub fn name_of(alloc: Global, text: &[u8]) -> Result<Str, Memory> {
    Ok(Str {
        bytes: Vec::from_slice(alloc, text)?,
    })
}

fn string_of(alloc: Global, text: &str) -> Result<String, Memory> {
    Ok(String::from_str(alloc, text)?)
}

// A folder with the one file `s`.
fn folder(
    alloc: Global,
    bytes: Result<Vec<u8>, Memory>,
) -> Result<BTreeMap<String, Vec<u8>>, Memory> {
    let (name, bytes) = both(string_of(alloc, "s"), bytes)?;
    let mut content = BTreeMap::new(alloc);
    content.insert(name, bytes)?;
    Ok(content)
}

/// The one file `s` with these bytes.
pub fn sure(alloc: Global, bytes: Result<Vec<u8>, Memory>) -> Result<SureFiles, Memory> {
    Ok(SureFiles::new(folder(alloc, bytes)?))
}

/// The same, where one call fails.
pub fn failing(
    alloc: Global,
    bytes: Result<Vec<u8>, Memory>,
    fails: u64,
) -> Result<MemFiles, Memory> {
    let fails = vec![in alloc; fails]?;
    Ok(MemFiles::new(folder(alloc, bytes)?, fails))
}

/// The same, where a read gives at most so many bytes.
pub(crate) fn few_bytes(
    alloc: Global,
    bytes: Result<Vec<u8>, Memory>,
    most: usize,
) -> Result<FewBytes, Memory> {
    Ok(FewBytes {
        files: sure(alloc, bytes)?,
        most,
        furthest: 0,
        asked: 0,
        reads: 0,
    })
}

/// A file whose reads give at most so many bytes, which tells none, the furthest byte that was
/// asked for, how many were, and how many reads there were.
#[derive(Drop)]
pub struct FewBytes {
    files: SureFiles,
    most: usize,
    furthest: u64,
    asked: u64,
    reads: u64,
}

impl FewBytes {
    pub(crate) fn furthest(&self) -> u64 {
        self.furthest
    }

    pub fn asked(&self) -> u64 {
        self.asked
    }

    pub fn reads(&self) -> u64 {
        self.reads
    }
}

impl Files for FewBytes {
    ghost use Rattle.std.specs.Prelude.{None};
    ghost use Rattle.std.proofs.Common.{arith};

    ghost holds = { λ _. None };

    ghost faults = { λ _. 0 };

    ghost counted = { λ _. Prim.omega arith };

    fn size(&mut self, name: &str) -> Result<Option<u64>, Failed> {
        self.files.size(name)
    }

    fn read_at(&mut self, name: &str, at: u64, into: &mut [u8]) -> Result<usize, Failed> {
        let to = at.saturating_add(into.len() as u64);
        self.furthest = self.furthest.max(to);
        self.asked = self.asked.saturating_add(into.len() as u64);
        self.reads = self.reads.saturating_add(1);
        let room = into.len().min(self.most);
        self.files.read_at(name, at, &mut into[..room])
    }
}
