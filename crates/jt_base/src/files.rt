//! Files that are read whole by their names.
ghost use Rattle.std.specs.Prelude.{◌≡◌, ◌≤◌, ℕ, List, ◌∷◌, Option, vec_len, OnOk, IfOk, IfErr, IsErrOf};
ghost use Rattle.std.specs.Borrow.{GName};
ghost use Rattle.jt_base.specs.Faults.{Rises};
ghost use Rattle.jt_base.specs.Files.{NamedFile, Holds, HoldsMore, asked_more, AskedAt, count_after};
ghost use Rattle.jt_base.specs.declared.files.FileFault.TheVariants.{NoMemory};

use std::alloc::{AllocError, AllocFailed, Global};
use thiserror::Error;

/// Why a file wasn't read.
#[derive(Clone, Copy, Debug, PartialEq, Eq, Error)]
pub enum FileFault {
    /// The file couldn't be read, and the count of faults rose.
    #[error("the file cannot be read")]
    Failed,
    /// The file has more bytes than the limit.
    #[error("the file is too long")]
    TooLong,
    /// No memory was left for the bytes or for the name.
    #[error("out of memory")]
    NoMemory,
}

impl From<AllocError> for FileFault {
    ghost from_gives = { λ _ e. e ≡ NoMemory };

    fn from(_: AllocError) -> Self {
        FileFault::NoMemory
    }
}

impl<T: Drop> From<AllocFailed<T>> for FileFault {
    ghost from_gives = { λ _ e. e ≡ NoMemory };

    fn from(_: AllocFailed<T>) -> Self {
        FileFault::NoMemory
    }
}

/// Files that are read whole by their names.
pub trait Files: Drop {
    /// The files, where they are told.
    ghost held: { Self → Option (List NamedFile) };

    /// The names that were asked for, in their order, where they are told.
    ghost asked: { Self → Option (List (List ℕ)) };

    /// How many calls have failed.
    ghost fault_count: { Self → ℕ };

    /// The references that these files borrow through.
    ghost lenders: { Self → List GName };

    /// The whole content of the first file of that name, of at most `limit` bytes.
    fn read(&mut self, alloc: Global, name: &str, limit: usize) -> Result<Vec<u8>, FileFault>
        ensures content { IfOk result (λ bytes. Holds (held self.old) name.now bytes.items) }
        ensures most { IfOk result (λ bytes. vec_len bytes ≤ limit) }
        ensures too_long { IsErrOf result FileFault.TooLong → HoldsMore (held self.old) name.now limit }
        ensures failed { IsErrOf result FileFault.Failed → Rises (fault_count self.old) (fault_count self.new) }
        ensures later { fault_count self.old ≤ fault_count self.new }
        ensures count { fault_count self.new ≡ count_after result (fault_count self.old) }
        ensures held { held self.new ≡ held self.old }
        ensures asked { OnOk result (asked self.new ≡ asked_more name.now (asked self.old)) }
        ensures asked_err { IfErr result (λ fault. AskedAt fault name.now (asked self.old) (asked self.new)) }
        ensures lenders { lenders self.new ≡ lenders self.old };

    /// How many calls have failed. The count stands still at its type's end.
    fn faults(&self) -> u64
        ensures { result ≡ fault_count self.now };
}

impl<F: Files> Files for &mut F {
    ghost held = { λ f. F.held f.now };

    ghost asked = { λ f. F.asked f.now };

    ghost fault_count = { λ f. F.fault_count f.now };

    ghost lenders = { λ f. f.ghost_name ∷ F.lenders f.now };

    fn read(&mut self, alloc: Global, name: &str, limit: usize) -> Result<Vec<u8>, FileFault> {
        (**self).read(alloc, name, limit)
    }

    fn faults(&self) -> u64 {
        (**self).faults()
    }
}
