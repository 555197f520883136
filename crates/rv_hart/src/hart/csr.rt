//! The control and status registers of Machine Mode by their numbers (privileged manual, "Machine-Level CSRs").

ghost use Rattle.std.specs.Prelude.{◌≡◌, ◌≤◌, ◌+◌, ◌%◌, IfErr, bit_and};
ghost use Rattle.rv_model.specs.Registers.{csr_seen, csr_value, csr_written, address_bits, mip_value, software_bit, vector_bits};
ghost use Rattle.rv_hart.specs.CsrAnswer.{csr_answer};

use super::Hart;
use super::mstatus::mstatus_written;
use crate::csr_fault::CsrFault;
use rv_mem::Ram;
use rv_model::register_number::{
    MARCHID, MCAUSE, MEPC, MHARTID, MIE, MIMPID, MIP, MISA, MSCRATCH, MSTATUS, MTVAL, MTVEC,
    MVENDORID,
};

/// What misa reads: 64 bits, with the extensions A, I and M.
const MISA_VALUE: u64 = 0x8000_0000_0000_1101;

/// The bits that mepc keeps: all but the two lowest.
const ADDRESS_BITS: u64 = 0xffff_ffff_ffff_fffc;

#[tactic(auto, using(crate::proofs::CsrBits::and_address_bits))]
/// What mepc keeps of a value.
fn address_written(value: u64) -> u64
    ensures is { result ≡ 0 + bit_and value address_bits }
    ensures whole { result % 4 ≡ 0 }
{
    value & ADDRESS_BITS
}

/// The bits that mtvec keeps: all but bit 1, so that its mode is direct or vectored.
const VECTOR_BITS: u64 = 0xffff_ffff_ffff_fffd;

#[tactic(auto, using(crate::proofs::CsrBits::and_vector_bits))]
/// What mtvec keeps of a value.
fn vector_written(value: u64) -> u64
    ensures is { result ≡ 0 + bit_and value vector_bits }
    ensures mode { result % 4 ≤ 1 }
{
    value & VECTOR_BITS
}

/// The bit of the machine software interrupt in mie and mip, which is the only one that mie keeps.
const SOFTWARE_BIT: u64 = 0x8;

/// What mie keeps of a value.
fn enabled_written(value: u64) -> u64
    ensures { result ≡ 0 + bit_and value software_bit }
{
    value & SOFTWARE_BIT
}

impl Hart {
    /// A register's value, or `None` where there is no register of this number. mip reads 0 here: `csr_read_with` knows memory, which tells it.
    #[tactic(auto, unfolding(rv_model::specs::Registers::csr_value))]
    pub fn csr_read(&self, number: u16) -> Option<u64>
        ensures { result ≡ csr_value self.now number }
    {
        match number {
            MSTATUS => Some(self.mstatus),
            MISA => Some(MISA_VALUE),
            MIE => Some(self.mie),
            MTVEC => Some(self.mtvec),
            MSCRATCH => Some(self.mscratch),
            MEPC => Some(self.mepc),
            MCAUSE => Some(self.mcause),
            MTVAL => Some(self.mtval),
            MIP => Some(0),
            MVENDORID => Some(0),
            MARCHID => Some(0),
            MIMPID => Some(0),
            MHARTID => Some(u64::from(self.id)),
            _ => None,
        }
    }

    /// mip: bit 3 is the hart's MSIP bit.
    fn mip(&self, ram: &Ram) -> u64
        ensures { result ≡ mip_value self.now ram.now }
    {
        if ram.msip(self.id()) { SOFTWARE_BIT } else { 0 }
    }

    /// A register's value as a program reads it, mip's from memory, or `None` where there is no register of this number.
    #[tactic(auto, unfolding(rv_model::specs::Registers::csr_seen))]
    pub fn csr_read_with(&self, number: u16, ram: &Ram) -> Option<u64>
        ensures { result ≡ csr_seen self.now ram.now number }
    {
        if number == MIP {
            return Some(self.mip(ram));
        }
        self.csr_read(number)
    }

    /// Writes a register's writable bits. A refusal changes nothing: `Absent` where there is no register of this number,
    /// `ReadOnly` at mvendorid, marchid, mimpid and mhartid.
    #[tactic(auto, unfolding(rv_model::specs::Registers::csr_value, rv_model::specs::Registers::csr_read_only, rv_model::specs::Registers::csr_written))]
    pub fn csr_write(&mut self, number: u16, value: u64) -> Result<(), CsrFault>
        ensures answer { result ≡ csr_answer self.old number }
        ensures after { self.new ≡ csr_written self.old number value }
        ensures refused { IfErr result (λ _. self.new ≡ self.old) }
    {
        match number {
            MSTATUS => self.mstatus = mstatus_written(value),
            MIE => self.mie = enabled_written(value),
            MTVEC => self.mtvec = vector_written(value),
            MSCRATCH => self.mscratch = value,
            MEPC => self.mepc = address_written(value),
            MCAUSE => self.mcause = value,
            MTVAL => self.mtval = value,
            MISA => {}
            MIP => {}
            MVENDORID => return Err(CsrFault::ReadOnly),
            MARCHID => return Err(CsrFault::ReadOnly),
            MIMPID => return Err(CsrFault::ReadOnly),
            MHARTID => return Err(CsrFault::ReadOnly),
            _ => return Err(CsrFault::Absent),
        }
        Ok(())
    }
}
