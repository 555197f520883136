//! An ELF file that is read and judged before a session, behind the script.

ghost use Rattle.std.specs.Prelude.{◌≡◌, ◌≤◌, IfErr, IfOk, OnOk};
ghost use Rattle.elf_load.specs.Elf.{ReadsAs};
ghost use Rattle.jt_base.specs.Files.{Holds, asked_more};
ghost use Rattle.jtag_run.specs.Refusal.{ElfFileCause, ElfFilesCause, HoldsElf, HoldsScript, asked_elf};

use crate::prepare::{load_script, read_bytes};
use crate::refusal::Refusal;
use debug_model::Script;
use elf_load::{Elf, read_elf};
use jt_base::Files;
use std::alloc::Global;

/// An ELF file that was read, and what is to be loaded of it.
#[derive(Drop)]
pub struct ElfFile {
    /// The file's bytes.
    pub bytes: Vec<u8>,
    /// What they say of memory.
    pub elf: Elf,
}

/// What a session that loads an ELF file first rests on.
#[derive(Drop)]
pub struct ElfInputs {
    /// The script that runs behind the loading.
    pub script: Script,
    /// The file that is loaded.
    pub file: ElfFile,
}

/// Reads and judges the ELF file of this name.
fn load_elf_file<'a, F: Files>(
    alloc: Global,
    files: &mut F,
    name: &'a str,
) -> Result<ElfFile, Refusal<'a>>
    ensures holds { IfOk result (λ file. Holds (F.held files.old) name.now file.bytes.items) }
    ensures reads { IfOk result (λ file. ReadsAs file.bytes.items file.elf) }
    ensures cause { IfErr result (ElfFileCause name.now
        (record { held = F.held files.old; asked = F.asked files.old; faults = F.fault_count files.old })
        (record { held = F.held files.new; asked = F.asked files.new; faults = F.fault_count files.new })) }
    ensures held { F.held files.new ≡ F.held files.old }
    ensures asked { OnOk result (F.asked files.new ≡ asked_more name.now (F.asked files.old)) }
    ensures later { F.fault_count files.old ≤ F.fault_count files.new }
{
    let bytes = read_bytes(alloc, files, name)?;
    match read_elf(&bytes) {
        Ok(elf) => Ok(ElfFile { bytes, elf }),
        Err(fault) => Err(Refusal::Elf(fault)),
    }
}

/// Reads and judges the script and then the ELF file of these names. The first refusal ends it.
pub fn read_inputs<'a, F: Files>(
    alloc: Global,
    files: &mut F,
    script: &'a str,
    file: &'a str,
) -> Result<ElfInputs, Refusal<'a>>
    ensures script { IfOk result (λ inputs. HoldsScript (F.held files.old) script.now inputs.script) }
    ensures file { IfOk result (λ inputs. HoldsElf (F.held files.old) file.now inputs.file.bytes.items) }
    ensures reads { IfOk result (λ inputs. ReadsAs inputs.file.bytes.items inputs.file.elf) }
    ensures asked { OnOk result (F.asked files.new ≡ asked_elf script.now file.now
        (record { held = F.held files.old; asked = F.asked files.old; faults = F.fault_count files.old })) }
    ensures cause { IfErr result (ElfFilesCause script.now file.now
        (record { held = F.held files.old; asked = F.asked files.old; faults = F.fault_count files.old })
        (record { held = F.held files.new; asked = F.asked files.new; faults = F.fault_count files.new })) }
{
    let script = load_script(alloc, files, script)?;
    let file = load_elf_file(alloc, files, file)?;
    Ok(ElfInputs { script, file })
}
