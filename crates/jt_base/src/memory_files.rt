//! Files in memory, for tests.
ghost use Rattle.std.specs.Prelude.{◌≡◌, ◌≤◌, List, [], Some, Ok, vec_len, string_bytes, bytes_eq, MatchResult, OnOk, OnErr, IfOk, IfErr, IsErrOf, option_map};
ghost use Rattle.std.specs.Borrow.{GName};
ghost use Rattle.jt_base.specs.Faults.{Rises};
ghost use Rattle.jt_base.specs.Files.{Holds, HoldsMore, asked_more, AskedAt, content_of, count_after};
ghost use Rattle.jt_base.specs.FileStore.{answer, IsFault, is_listed, after_read, AfterFault};

use crate::faults::{count_fault, is_listed};
use crate::files::{FileFault, Files};
use std::alloc::{AllocError, Global};
use std::marker::Model;

/// One file in memory. Contracts see its name and its content as lists of bytes.
#[derive(Drop)]
pub struct MemoryFile {
    name: String,
    content: Vec<u8>,
}

impl Model for MemoryFile {
    ghost use Rattle.std.specs.Prelude.{string_bytes};
    ghost use Rattle.jt_base.specs.Files.{NamedFile};

    ghost Value = { NamedFile };

    ghost view = { λ f. record { name = string_bytes f.name; content = f.content.items } };
}

impl MemoryFile {
    /// A file of this name and content.
    pub fn new(name: String, content: Vec<u8>) -> Self
        ensures { result ≡ record { name = string_bytes name; content = content.items } }
    {
        MemoryFile { name, content }
    }

    fn content(&self) -> &[u8]
        ensures { result.now ≡ self.now.content }
    {
        &self.content
    }

    fn has_name(&self, name: &str) -> bool
        ensures { result ≡ bytes_eq self.now.name name.now }
    {
        self.name.as_str() == name
    }
}

/// A name that was asked for.
#[derive(Drop)]
struct AskedName {
    text: String,
}

impl Model for AskedName {
    ghost use Rattle.std.specs.Prelude.{ℕ, List, string_bytes};

    ghost Value = { List ℕ };

    ghost view = { λ n. string_bytes n.text };
}

impl AskedName {
    fn new(alloc: Global, name: &str) -> Result<Self, AllocError>
        ensures { IfOk result (λ n. n ≡ name.now) }
    {
        Ok(AskedName {
            text: String::from_str(alloc, name)?,
        })
    }
}

/// Files in memory, which tell everything: the files, the names that were asked for, and which calls fail.
#[derive(Drop)]
pub struct MemoryFiles {
    files: Vec<MemoryFile>,
    fail_at: Vec<u32>,
    asked: Vec<AskedName>,
    calls: u64,
    failed: u64,
}

impl Model for MemoryFiles {
    ghost use Rattle.jt_base.specs.FileStore.{FileStore};

    ghost Value = { FileStore };

    ghost view = { λ m. record { files = m.files.items; fail_at = m.fail_at.items; asked = m.asked.items; calls = m.calls; faults = m.failed } };
}

impl MemoryFiles {
    /// These files. The calls whose numbers, from 0, are listed fail.
    pub fn new(alloc: Global, files: Vec<MemoryFile>, fail_at: Vec<u32>) -> Self
        ensures { result ≡ record { files = files.items; fail_at = fail_at.items; asked = []; calls = 0; faults = 0 } }
    {
        MemoryFiles {
            files,
            fail_at,
            asked: Vec::new(alloc),
            calls: 0,
            failed: 0,
        }
    }

    // Begins a call: keeps the name, counts the call and tells whether it is to fail. Want of memory changes nothing.
    fn begin(&mut self, alloc: Global, name: &str) -> Result<bool, AllocError>
        ensures begun { OnOk result (self.new ≡ after_read name.now self.old) }
        ensures listed { IfOk result (λ listed. listed ≡ is_listed self.old.calls self.old.fail_at) }
        ensures unchanged { OnErr result (self.new ≡ self.old) }
    {
        self.asked.push(AskedName::new(alloc, name)?)?;
        let listed = is_listed(&self.fail_at, self.calls);
        count_fault(&mut self.calls);
        Ok(listed)
    }
}

// The content of the first file of that name.
fn find_content<'a>(files: &'a [MemoryFile], name: &str) -> Option<&'a [u8]>
    ensures { option_map (λ c. c.now) result ≡ content_of name.now files.now }
{
    let mut rest = files;
    while let [file, others @ ..] = rest {
        if file.has_name(name) {
            return Some(file.content());
        }
        rest = others;
    }
    None
}

impl Files for MemoryFiles {
    ghost use Rattle.std.specs.Prelude.{Some, []};

    ghost held = { λ m. Some m.files };

    ghost asked = { λ m. Some m.asked };

    ghost fault_count = { λ m. m.faults };

    ghost lenders = { λ m. [] };

    fn read(&mut self, alloc: Global, name: &str, limit: usize) -> Result<Vec<u8>, FileFault>
        ensures content { IfOk result (λ bytes. Holds (Some self.old.files) name.now bytes.items) }
        ensures most { IfOk result (λ bytes. vec_len bytes ≤ limit) }
        ensures too_long { IsErrOf result FileFault.TooLong → HoldsMore (Some self.old.files) name.now limit }
        ensures failed { IsErrOf result FileFault.Failed → Rises self.old.faults self.new.faults }
        ensures later { self.old.faults ≤ self.new.faults }
        ensures count { self.new.faults ≡ count_after result self.old.faults }
        ensures held { Some self.new.files ≡ Some self.old.files }
        ensures asked { OnOk result (Some self.new.asked ≡ asked_more name.now (Some self.old.asked)) }
        ensures asked_err { IfErr result (λ fault. AskedAt fault name.now (Some self.old.asked) (Some self.new.asked)) }
        ensures lenders { ◌≡◌ {A = List GName} [] [] }
        ensures answer { MatchResult result (λ bytes. answer name.now limit self.old ≡ Ok bytes.items)
            (λ fault. IsFault fault (answer name.now limit self.old)) }
        ensures state { MatchResult result (λ _. self.new ≡ after_read name.now self.old) (λ fault. AfterFault fault name.now self.old self.new) }
    {
        let listed = self.begin(alloc, name)?;
        if listed {
            count_fault(&mut self.failed);
            return Err(FileFault::Failed);
        }
        let Some(content) = find_content(&self.files, name) else {
            count_fault(&mut self.failed);
            return Err(FileFault::Failed);
        };
        if content.len() > limit {
            return Err(FileFault::TooLong);
        }
        Ok(content.to_vec(alloc)?)
    }

    fn faults(&self) -> u64 {
        self.failed
    }
}
