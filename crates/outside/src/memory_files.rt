// Files in memory, whose calls fail by a list of numbers.
ghost use Rattle.std.specs.Prelude.{◌≡◌, ◌≢◌, ◌≤◌, ◌||◌, option_map, is_none, true, List, ℕ, length, take, position, string_bytes, IfOk, OnOk, OnErr};
ghost use Rattle.std.specs.Str.{bytes_eq};
ghost use Rattle.outside.specs.Bytes.{bytes_under};
ghost use Rattle.outside.specs.Files.{Reads, Stands, StandsBut, HasFileCause};
ghost use Rattle.outside.specs.Calls.{calls_from, after_call, fails_next};

use crate::calls::Schedule;
use crate::faults::{enter, prepare};
use crate::{FileFault, Files};
use std::alloc::Global;
use word_kit::NoMemory;

/// Files that stand in memory and are told. Their calls fail at the stated numbers and at a read
/// of an absent name, and nowhere else; any of them may find no memory.
#[derive(Drop)]
pub struct MemFiles {
    alloc: Global,
    files: Vec<(String, Vec<u8>)>,
    schedule: Schedule,
    failed_reads: Vec<String>,
    failed_replaces: Vec<String>,
}

impl MemFiles {
    ghost use Rattle.outside.specs.MemFiles.{NamesDiffer, files_of, held_in, calls_of, read_faults_of, replace_faults_of};

    /// Files with these names and bytes. `failing` has the numbers of the calls that fail, counted
    /// from 1 over reads and replacements together.
    #[tactic(auto, unfolding(crate::specs::Faults::faults_under))]
    pub fn of(alloc: Global, files: Vec<(String, Vec<u8>)>, failing: Vec<u64>) -> Self
        requires { NamesDiffer files.items }
        ensures files { files_of result ≡ files.items }
        ensures calls { calls_of result ≡ calls_from failing.items }
        ensures read_faults { (name : List ℕ) → read_faults_of result name ≡ 0 }
        ensures replace_faults { (name : List ℕ) → replace_faults_of result name ≡ 0 }
    {
        MemFiles {
            alloc,
            files,
            schedule: Schedule::of(failing),
            failed_reads: Vec::new(alloc),
            failed_replaces: Vec::new(alloc),
        }
    }

    /// The bytes under a name, none exactly where it is absent.
    pub fn held(&self, name: &str) -> Option<&[u8]>
        ensures { option_map (λ b. b.now) result ≡ held_in self.now name.now }
    {
        find(&self.files, name)
    }
}

impl Files for MemFiles {
    ghost use Rattle.outside.specs.MemFiles.{held_in, calls_of, read_faults_of, replace_faults_of, FailsExactly, CountsFailed};

    ghost tells = { λ _. true };

    ghost held = { λ s name. held_in s name };

    ghost read_faults = { λ s name. read_faults_of s name };

    ghost replace_faults = { λ s name. replace_faults_of s name };

    fn read(&mut self, name: &str, most: usize) -> Result<Vec<u8>, FileFault>
        ensures bytes { IfOk result (λ v. Reads (held_in self.old name.now) most v.items) }
        ensures bound { IfOk result (λ v. length v.items ≤ most) }
        ensures stands { Stands true true (held_in self.old) (held_in self.new) }
        ensures cause { HasFileCause FileFault.Failed (read_faults_of self.old) (read_faults_of self.new) (replace_faults_of self.old) (replace_faults_of self.new) name.now result }

        // It fails at the stated calls and at an absent name, and counts each failure once.
        ensures fails { FailsExactly (fails_next (calls_of self.old) || is_none (held_in self.old name.now)) result }
        ensures calls { calls_of self.new ≡ after_call (calls_of self.old) }
        ensures faults { CountsFailed (read_faults_of self.old name.now) (read_faults_of self.new name.now) result }
    {
        let fails = self.schedule.next_fails();
        let key = prepare(self.alloc, &mut self.failed_reads, name).map_err(FileFault::Memory)?;
        if !fails {
            if let Some(bytes) = find(&self.files, name) {
                return first_of(self.alloc, bytes, most).map_err(FileFault::Memory);
            }
        }
        enter(&mut self.failed_reads, key);
        Err(FileFault::Failed)
    }

    fn replace(&mut self, name: &str, bytes: &[u8]) -> Result<(), FileFault>
        ensures bytes { OnOk result (held_in self.new name.now ≡ Some bytes.now) }
        ensures stands { StandsBut name.now true true (held_in self.old) (held_in self.new) }
        ensures cause { HasFileCause FileFault.Failed (replace_faults_of self.old) (replace_faults_of self.new) (read_faults_of self.old) (read_faults_of self.new) name.now result }

        // It fails at the stated calls, changes nothing then, and counts each failure once.
        ensures fails { FailsExactly (fails_next (calls_of self.old)) result }
        ensures refused { OnErr result (Stands true true (held_in self.old) (held_in self.new)) }
        ensures calls { calls_of self.new ≡ after_call (calls_of self.old) }
        ensures faults { CountsFailed (replace_faults_of self.old name.now) (replace_faults_of self.new name.now) result }
    {
        let fails = self.schedule.next_fails();
        let key = prepare(self.alloc, &mut self.failed_replaces, name).map_err(FileFault::Memory)?;
        if fails {
            enter(&mut self.failed_replaces, key);
            return Err(FileFault::Failed);
        }
        put(self.alloc, &mut self.files, name, bytes).map_err(FileFault::Memory)
    }
}

// Puts these bytes under a name.
fn put(
    alloc: Global,
    files: &mut Vec<(String, Vec<u8>)>,
    name: &str,
    bytes: &[u8],
) -> Result<(), NoMemory>
    ensures name { OnOk result (bytes_under name.now files.new.items ≡ Some bytes.now) }
    ensures others { (other : List ℕ) → other ≢ name.now → bytes_under other files.new.items ≡ bytes_under other files.old.items }
    ensures refused { OnErr result (files.new.items ≡ files.old.items) }
{
    let copy = first_of(alloc, bytes, bytes.len())?;
    match place_of(files, name) {
        Some(at) => {
            files[at].1 = copy;
            Ok(())
        }
        None => {
            let key = match String::from_str(alloc, name) {
                Ok(key) => key,
                Err(_) => return Err(NoMemory),
            };
            match files.push((key, copy)) {
                Ok(()) => Ok(()),
                Err(_) => Err(NoMemory),
            }
        }
    }
}

// The bytes under a name.
fn find<'a>(files: &'a [(String, Vec<u8>)], name: &str) -> Option<&'a [u8]>
    ensures { option_map (λ b. b.now) result ≡ bytes_under name.now files.entry.now }
{
    match place_of(files, name) {
        Some(at) => Some(&files[at].1),
        None => None,
    }
}

// Where the files have this name.
fn place_of(files: &[(String, Vec<u8>)], name: &str) -> Option<usize>
    ensures { result ≡ position (λ f. bytes_eq (string_bytes f.0) name.now) files.now }
{
    files.iter().position(|f| f.0.as_str() == name)
}

// The first bytes of these, at most `most`.
fn first_of(alloc: Global, bytes: &[u8], most: usize) -> Result<Vec<u8>, NoMemory>
    ensures { IfOk result (λ v. v.items ≡ take most bytes.now) }
{
    match bytes[..bytes.len().min(most)].to_vec(alloc) {
        Ok(copy) => Ok(copy),
        Err(_) => Err(NoMemory),
    }
}
