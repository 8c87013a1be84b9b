// The files of the system, of whose bytes nothing is told.
ghost use Rattle.std.specs.Prelude.{◌≡◌, ◌≤◌, false, None, length, IfOk, List, ℕ};

use crate::faults::{enter, prepare};
use crate::replacing::{fault_of, replace_file};
use crate::{FileFault, Files};
use std::alloc::Global;
use std::io::Read;
use std::{fs, rt};
use word_kit::NoMemory;

const PIECE: usize = 4096;

/// The system's files under their paths. It tells nothing of their bytes, and keeps a list of the
/// names and calls that failed.
#[derive(Drop)]
pub struct HostFiles<'a, R> {
    alloc: Global,
    rt: &'a R,
    failed_reads: Vec<String>,
    failed_replaces: Vec<String>,
}

impl<'a, R: rt::Files> HostFiles<'a, R> {
    ghost use Rattle.outside.specs.Hosts.{read_faults_of, replace_faults_of};

    /// The files that `rt` reaches. No call has failed yet.
    #[tactic(auto, unfolding(crate::specs::Faults::faults_under))]
    pub fn fresh(alloc: Global, rt: &'a R) -> Self
        ensures read_faults { (name : List ℕ) → read_faults_of result name ≡ 0 }
        ensures replace_faults { (name : List ℕ) → replace_faults_of result name ≡ 0 }
    {
        HostFiles {
            alloc,
            rt,
            failed_reads: Vec::new(alloc),
            failed_replaces: Vec::new(alloc),
        }
    }
}

impl<'a, R: rt::Files> Files for HostFiles<'a, R> {
    ghost use Rattle.outside.specs.Hosts.{read_faults_of, replace_faults_of};

    ghost tells = { λ _. false };

    ghost held = { λ _ _. None };

    ghost read_faults = { λ s name. read_faults_of s name };

    ghost replace_faults = { λ s name. replace_faults_of s name };

    fn read(&mut self, name: &str, most: usize) -> Result<Vec<u8>, FileFault> {
        let key = prepare(self.alloc, &mut self.failed_reads, name).map_err(FileFault::Memory)?;
        match read_first(self.alloc, self.rt, name, most) {
            Err(FileFault::Failed) => {
                enter(&mut self.failed_reads, key);
                Err(FileFault::Failed)
            }
            read => read,
        }
    }

    fn replace(&mut self, name: &str, bytes: &[u8]) -> Result<(), FileFault> {
        let key = prepare(self.alloc, &mut self.failed_replaces, name).map_err(FileFault::Memory)?;
        match replace_file(self.alloc, self.rt, name, bytes) {
            Err(FileFault::Failed) => {
                enter(&mut self.failed_replaces, key);
                Err(FileFault::Failed)
            }
            written => written,
        }
    }
}

// The first bytes of a file, at most `most`.
fn read_first<R: rt::Files>(
    alloc: Global,
    rt: &R,
    name: &str,
    most: usize,
) -> Result<Vec<u8>, FileFault>
    ensures { IfOk result (λ v. length v.items ≤ most) }
{
    let mut file = match fs::open(rt, name) {
        Ok(file) => file,
        Err(error) => return Err(fault_of(error)),
    };
    let mut bytes = Vec::new(alloc);
    let mut piece = [0; PIECE];
    'reading: while bytes.len() < most {
        let wanted = PIECE.min(most - bytes.len());
        let count = match file.read(&mut piece[..wanted]) {
            Ok(count) => count,
            Err(error) => return Err(fault_of(error)),
        };
        if count == 0 {
            break;
        }
        if bytes.extend_from_slice(&piece[..count]).is_err() {
            return Err(FileFault::Memory(NoMemory));
        }
    }
    Ok(bytes)
}
