//! On which path memory is reached: the registers that a session asks for, over operations that answer each register the same at all times.
//! Registers and their fields are those of RISC-V Debug Specification 1.0, "Debug Module Registers".

use arrayvec::ArrayVec;
use debug_model::{
    AbstractCommand, Abstractcs, Data0, Data1, Dmcontrol, Dmi, DmiFault, DmiOp, Dmstatus,
    OPERATIONS_MOST, Progbuf0, Progbuf1, Sbaddress0, Sbaddress1, Sbcs, Sbdata0, Sbdata1,
};
use jt_base::MemorySink;
use probe_session::{Ended, run_script};
use script_lang::parse;
use std::alloc::Global;
use std::process::Abort;
use std::test::Fail;

/// What an access by the hart moves memory through.
const BY_HART: [u8; 5] = [
    Data0::ADDRESS,
    Data1::ADDRESS,
    AbstractCommand::ADDRESS,
    Progbuf0::ADDRESS,
    Progbuf1::ADDRESS,
];

/// What an access by the system bus moves it through.
const BY_BUS: [u8; 5] = [
    Sbcs::ADDRESS,
    Sbaddress0::ADDRESS,
    Sbaddress1::ADDRESS,
    Sbdata0::ADDRESS,
    Sbdata1::ADDRESS,
];

/// Room for everything that a session here prints.
const AMPLE: usize = 4_096;

/// Operations on a module that works and whose harts are halted, and those that were asked for.
#[derive(Drop)]
struct SteadyDmi {
    asked: Vec<DmiOp>,
}

/// What a register answers, at all times.
fn steady(address: u8) -> u32 {
    match address {
        Data0::ADDRESS => 0x1111_1111,
        Data1::ADDRESS => 0x0111_1111,
        Dmcontrol::ADDRESS => 1,
        Dmstatus::ADDRESS => 0x000c_0383,
        Abstractcs::ADDRESS => 0x0400_0002,
        Sbcs::ADDRESS => 0x2004_080f,
        Sbdata0::ADDRESS => 0x2222_2222,
        Sbdata1::ADDRESS => 0x0222_2222,
        _ => 0,
    }
}

impl SteadyDmi {
    /// Does one operation: a write answers its word.
    fn operate(&mut self, op: DmiOp) -> u32 {
        let _kept = self.asked.push(op).is_ok();
        match op {
            DmiOp::Read(address) => steady(address),
            DmiOp::Write(_, word) => word,
        }
    }
}

impl Dmi for SteadyDmi {
    ghost use Rattle.std.specs.Prelude.{None, true, false};
    ghost use Rattle.debug_model.specs.Ties.{no_ties};

    ghost seen = { λ _. record {
      far = None;
      coming = None;
      asked = None;
      is_alive = true;
      fault_count = 0;
      fixed = record { slack = None; ties = no_ties; gives = λ _. false };
    } };

    fn idcode(&mut self) -> Result<u32, DmiFault> {
        Ok(1)
    }

    fn dtmcs(&mut self) -> Result<u32, DmiFault> {
        Ok(0x1071)
    }

    fn read(&mut self, address: u8) -> Result<u32, DmiFault> {
        Ok(self.operate(DmiOp::Read(address)))
    }

    fn write(&mut self, address: u8, value: u32) -> Result<(), DmiFault> {
        let _word = self.operate(DmiOp::Write(address, value));
        Ok(())
    }

    fn many(
        &mut self,
        ops: &[DmiOp],
        results: &mut ArrayVec<u32, OPERATIONS_MOST>,
    ) -> Result<(), DmiFault> {
        let mut rest = ops;
        'operations: while let [op, after @ ..] = rest {
            let word = self.operate(*op);
            results.push(word);
            rest = after;
        }
        Ok(())
    }

    fn alive(&self) -> bool {
        true
    }

    fn faults(&self) -> u64 {
        0
    }
}

/// What a session of this script asks for; it prints this, and no error.
fn asked_by(
    rt: &impl Abort,
    alloc: Global,
    script: &str,
    printed: &str,
) -> Result<Vec<DmiOp>, Fail> {
    let mut link = SteadyDmi {
        asked: Vec::new(alloc),
    };
    let commands = parse(alloc, script.as_bytes())?;
    let mut out = MemorySink::new(alloc, AMPLE, Vec::new(alloc))?;
    let end = run_script(&mut link, &commands, &mut out);
    assert_eq!(rt; out.bytes(), printed.as_bytes());
    assert_eq!(rt; end, Ended::Clean);
    Ok(link.asked)
}

/// Whether an operation is on one of these registers.
fn is_on(op: DmiOp, registers: &[u8]) -> bool {
    match op {
        DmiOp::Read(address) | DmiOp::Write(address, _) => registers.contains(&address),
    }
}

/// A session of this script asks, behind its opening, for the first registers, and for none of the others.
fn check_asked(
    rt: &impl Abort,
    alloc: Global,
    script: &str,
    printed: &str,
    wanted: &[u8],
    others: &[u8],
) -> Result<(), Fail> {
    let opening = asked_by(rt, alloc, "", "")?;
    let asked = asked_by(rt, alloc, script, printed)?;
    let mut is_reached = false;
    for op in asked.iter().skip(opening.len()) {
        assert_eq!(rt; is_on(*op, others), false);
        if is_on(*op, wanted) {
            is_reached = true;
        }
    }
    assert_eq!(rt; is_reached, true);
    Ok(())
}

#[test]
fn memory_is_read_on_the_chosen_path(rt: HostRuntime) -> Result<(), Fail> {
    let alloc = rt.alloc();
    check_asked(
        &rt,
        alloc,
        "via progbuf\nread 8 0x80000010\n",
        "via progbuf\n0x0000000080000010 0x0111111111111111\n",
        &BY_HART,
        &BY_BUS,
    )?;
    check_asked(
        &rt,
        alloc,
        "via bus\nread 8 0x80000010\n",
        "via bus\n0x0000000080000010 0x0222222222222222\n",
        &BY_BUS,
        &BY_HART,
    )
}

#[test]
fn memory_is_written_on_the_chosen_path(rt: HostRuntime) -> Result<(), Fail> {
    let alloc = rt.alloc();
    check_asked(
        &rt,
        alloc,
        "via progbuf\nwrite 8 0x80000010 5\n",
        "via progbuf\nwrote 1\n",
        &BY_HART,
        &BY_BUS,
    )?;
    check_asked(
        &rt,
        alloc,
        "via bus\nwrite 8 0x80000010 5\n",
        "via bus\nwrote 1\n",
        &BY_BUS,
        &BY_HART,
    )
}
