//! Files that keep what was read last, for a sentence on it.

use jt_base::{FileFault, Files};
use std::alloc::Global;

/// The files below, and what the last call read of them.
#[derive(Drop)]
pub struct KeptFiles<F: Files> {
    files: F,
    last: Result<Vec<u8>, FileFault>,
}

impl<F: Files> KeptFiles<F> {
    /// These files, of which none was read.
    pub fn new(files: F) -> Self {
        KeptFiles {
            files,
            last: Err(FileFault::Failed),
        }
    }

    /// What the last call read, or why it read nothing; `NoMemory` also where there was none to keep it.
    pub fn last(&self) -> Result<&[u8], FileFault> {
        match &self.last {
            Ok(bytes) => Ok(bytes.as_slice()),
            Err(fault) => Err(*fault),
        }
    }
}

impl<F: Files> Files for KeptFiles<F> {
    ghost held = { λ k. F.held k.files };

    ghost asked = { λ k. F.asked k.files };

    ghost fault_count = { λ k. F.fault_count k.files };

    ghost lenders = { λ k. F.lenders k.files };

    fn read(&mut self, alloc: Global, name: &str, limit: usize) -> Result<Vec<u8>, FileFault> {
        match self.files.read(alloc, name, limit) {
            Ok(bytes) => {
                self.last = bytes.to_vec(alloc).map_err(|_| FileFault::NoMemory);
                Ok(bytes)
            }
            Err(fault) => {
                self.last = Err(fault);
                Err(fault)
            }
        }
    }

    fn faults(&self) -> u64 {
        self.files.faults()
    }
}
