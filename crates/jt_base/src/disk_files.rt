//! Real files: the trusted edge, which tells nothing of what they hold.
ghost use Rattle.std.specs.Prelude.{◌≡◌, ◌<◌, ◌≤◌, length, vec_len, IfOk, IfSome, IsErrOf};

use crate::faults::count_fault;
use crate::files::{FileFault, Files};
use std::alloc::Global;
use std::io::{ErrorKind, Read};
use std::marker::Model;
use std::{fs, rt};

/// Real files. Contracts see how many calls have failed.
#[derive(Drop)]
pub struct DiskFiles<R: rt::Files + Drop> {
    runtime: R,
    failed: u64,
}

impl<R: rt::Files + Drop> Model for DiskFiles<R> {
    ghost use Rattle.std.specs.Prelude.{ℕ};

    ghost Value = { ℕ };

    ghost view = { λ f. f.failed };
}

impl<R: rt::Files + Drop> DiskFiles<R> {
    /// The files that this runtime opens.
    pub fn new(runtime: R) -> Self
        ensures { result ≡ 0 }
    {
        DiskFiles { runtime, failed: 0 }
    }
}

// Opens the file of this name and reads it.
fn read_file<R: rt::Files>(
    runtime: &R,
    alloc: Global,
    name: &str,
    limit: usize,
) -> Result<Vec<u8>, FileFault>
    ensures { IfOk result (λ bytes. vec_len bytes ≤ limit) }
{
    match fs::open(runtime, name) {
        Ok(file) => read_whole(file, alloc, limit),
        Err(_) => Err(FileFault::Failed),
    }
}

/// All that a source gives, of which one byte past the limit is read and no more. It is `TooLong` where there is such a byte, `NoMemory`
/// where memory ran out, and `Failed` where the source does.
pub fn read_whole<S: Read + Drop>(
    source: S,
    alloc: Global,
    limit: usize,
) -> Result<Vec<u8>, FileFault>
    ensures whole { IfOk result (λ bytes. IfSome (S.remaining source) (λ left. bytes.items ≡ left)) }
    ensures most { IfOk result (λ bytes. vec_len bytes ≤ limit) }
    ensures too_long { IsErrOf result FileFault.TooLong → IfSome (S.remaining source) (λ left. limit < length left) }
{
    let mut bytes = Vec::new(alloc);
    let outcome = source
        .take((limit as u64).saturating_add(1))
        .read_to_end(&mut bytes);
    match outcome {
        Ok(_) if bytes.len() <= limit => Ok(bytes),
        Ok(_) => Err(FileFault::TooLong),
        Err(error) => Err(match error.kind() {
            ErrorKind::OutOfMemory => FileFault::NoMemory,
            _ => FileFault::Failed,
        }),
    }
}

impl<R: rt::Files + Drop> Files for DiskFiles<R> {
    ghost use Rattle.std.specs.Prelude.{None, []};

    ghost held = { λ f. None };

    ghost asked = { λ f. None };

    ghost fault_count = { λ f. f };

    ghost lenders = { λ f. [] };

    fn read(&mut self, alloc: Global, name: &str, limit: usize) -> Result<Vec<u8>, FileFault> {
        let outcome = read_file(&self.runtime, alloc, name, limit);
        if let Err(FileFault::Failed) = outcome {
            count_fault(&mut self.failed);
        }
        outcome
    }

    fn faults(&self) -> u64 {
        self.failed
    }
}
