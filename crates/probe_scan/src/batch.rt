//! The bytes of the paths, and the bits of answers.

ghost use Rattle.std.specs.Prelude.{◌≡◌, ◌≤◌, ◌<◌, ◌+◌, ◌*◌, ◌++◌, ◌&&◌, [], length, map, IfOk, IfErr};
ghost use Rattle.debug_model.specs.Chip.{answer_byte};
ghost use Rattle.debug_model.specs.Scan.{asked_bits, dr_bytes, idle_bytes, idle_most, ir_bytes, path, reset_bytes, sent_bits};
ghost use Rattle.debug_model.specs.Wire.{piece_most};
ghost use Rattle.probe_scan.specs.Answers.{IsFirstBad, bits_most};
ghost use Rattle.probe_scan.specs.Padded.{as_asked, bytes_most, pads, scan_bytes, shifted_bytes, to_shift};

use bitbang_stream::{Batch, answer_bit};
use debug_model::WireFault;
use jt_base::Bits;

/// The bits of the instruction register.
const INSTRUCTION_BITS: u8 = 5;

/// TMS from anywhere to Run-Test/Idle, through Test-Logic-Reset.
const RESET_PATH: [bool; 6] = [true, true, true, true, true, false];

/// TMS from Run-Test/Idle to Shift-DR.
const SHIFT_DR_PATH: [bool; 3] = [true, false, false];

/// TMS from Run-Test/Idle to Shift-IR.
const SHIFT_IR_PATH: [bool; 4] = [true, true, false, false];

/// TMS from Exit1-DR or Exit1-IR to Run-Test/Idle.
const IDLE_PATH: [bool; 2] = [true, false];

/// The most clocks in Run-Test/Idle of one call.
const IDLE_MOST: usize = 32;

/// Appends a clock for each level of TMS, with TDI 0.
fn push_path(batch: &mut Batch, levels: &[bool])
    requires { length batch.old + 3 * length levels.now ≤ piece_most }
    ensures bytes { batch.new ≡ batch.old ++ path levels.now }
    ensures room { length batch.new ≤ length batch.old + 3 * length levels.now }
{
    let mut rest = levels;
    'levels: while let [tms, after @ ..] = rest {
        batch.pulse(*tms, false, false);
        rest = after;
    }
}

/// Appends an asked clock for each bit, the last of them with TMS 1.
fn push_asked(batch: &mut Batch, bits: Bits)
    requires { length batch.old + 3 * length bits ≤ piece_most }
    ensures bytes { batch.new ≡ batch.old ++ asked_bits bits }
    ensures room { length batch.new ≤ length batch.old + 3 * length bits }
{
    let mut rest = bits;
    'clocks: while let Some(bit) = rest.pop() {
        batch.pulse(rest.is_empty(), bit, true);
    }
}

/// Appends a clock for each bit, the last of them with TMS 1.
fn push_sent(batch: &mut Batch, bits: Bits)
    requires { length batch.old + 3 * length bits ≤ piece_most }
    ensures bytes { batch.new ≡ batch.old ++ sent_bits bits }
    ensures room { length batch.new ≤ length batch.old + 3 * length bits }
{
    let mut rest = bits;
    'clocks: while let Some(bit) = rest.pop() {
        batch.pulse(rest.is_empty(), bit, false);
    }
}

/// The bytes of a reset.
pub fn reset_batch() -> Batch
    ensures { result ≡ reset_bytes }
{
    let mut batch = Batch::new();
    push_path(&mut batch, &RESET_PATH);
    batch
}

/// The bytes of a scan of this instruction code.
pub fn ir_batch(code: u8) -> Batch
    ensures { result ≡ ir_bytes code }
{
    let mut batch = Batch::new();
    push_path(&mut batch, &SHIFT_IR_PATH);
    push_sent(
        &mut batch,
        Bits::from_u64(u64::from(code), INSTRUCTION_BITS),
    );
    push_path(&mut batch, &IDLE_PATH);
    batch
}

/// The bytes of so many clocks in Run-Test/Idle, at most 32.
pub fn idle_batch(clocks: u8) -> Batch
    requires { clocks ≤ idle_most }
    ensures { result ≡ idle_bytes clocks }
{
    let mut batch = Batch::new();
    push_path(&mut batch, &[false; IDLE_MOST][..clocks as usize]);
    batch
}

/// The bytes of a scan of these bits, at most 64.
pub fn dr_batch(bits: Bits) -> Batch
    requires { length bits ≤ bits_most }
    ensures { result ≡ dr_bytes bits }
{
    let mut batch = Batch::new();
    push_path(&mut batch, &SHIFT_DR_PATH);
    push_asked(&mut batch, bits);
    push_path(&mut batch, &IDLE_PATH);
    batch
}

/// Whether a clock is the last of its shift: none is left of its bits, and these end the shift.
fn is_last(none_left: bool, ends: bool) -> bool
    ensures { result ≡ (none_left && ends) }
{
    none_left && ends
}

/// Appends so many clocks with TDI at this level, the last of them with TMS 1 where it ends the shift.
fn push_pads(batch: &mut Batch, count: u8, level: bool, ends: bool)
    requires { length batch.old + 2 * count + 1 ≤ piece_most }
    ensures bytes { batch.new ≡ batch.old ++ shifted_bytes ends (pads count level) }
    ensures room { length batch.new ≤ length batch.old + 2 * count }
{
    let mut left = count;
    'pads: while left > 0 {
        left -= 1;
        batch.pulse(is_last(left == 0, ends), level, false);
    }
}

/// Appends a clock for each bit, asked or not, the last of them with TMS 1 where it ends the shift.
fn push_bits(batch: &mut Batch, bits: Bits, ask: bool, ends: bool)
    requires { length batch.old + 3 * length bits ≤ piece_most }
    ensures bytes { batch.new ≡ batch.old ++ shifted_bytes ends (map (as_asked ask) bits) }
    ensures room { length batch.new ≤ length batch.old + 3 * length bits }
{
    let mut rest = bits;
    'clocks: while let Some(bit) = rest.pop() {
        batch.pulse(is_last(rest.is_empty(), ends), bit, ask);
    }
}

/// Appends the clocks from Run-Test/Idle to Shift-IR, or to Shift-DR.
fn push_to_shift(batch: &mut Batch, ir: bool)
    requires { length batch.old + 12 ≤ piece_most }
    ensures bytes { batch.new ≡ batch.old ++ to_shift ir }
    ensures room { length batch.new ≤ length batch.old + 8 }
{
    if ir {
        push_path(batch, &SHIFT_IR_PATH);
    } else {
        push_path(batch, &SHIFT_DR_PATH);
    }
}

/// Fills an empty batch with a scan of these bits, of the instruction register or of the selected data register, in a chain of several devices: so many bits
/// before them and behind them go around the others, ones in a scan of the instruction register and zeros in one of a data register. TDO is asked at the bits
/// themselves, where it is asked at all. All of it fits into 256 bytes.
pub fn put_scan(batch: &mut Batch, ir: bool, before: u8, bits: Bits, after: u8, ask: bool)
    requires empty { batch.old ≡ [] }
    requires some { 0 < length bits }
    requires room { bytes_most before (length bits) after ≤ piece_most }
    ensures { batch.new ≡ scan_bytes ir before bits after ask }
{
    push_to_shift(batch, ir);
    push_pads(batch, before, ir, false);
    push_bits(batch, bits, ask, after == 0);
    push_pads(batch, after, ir, true);
    push_path(batch, &IDLE_PATH);
}

/// The bits of at most 64 answers, in order. The first that is neither `0` nor `1` is refused.
pub fn read_bits(answers: &[u8]) -> Result<Bits, WireFault>
    requires { length answers.now ≤ bits_most }
    ensures bits { IfOk result (λ bits. answers.now ≡ map answer_byte bits) }
    ensures bad { IfErr result (IsFirstBad answers.now) }
{
    let mut bits = Bits::new();
    let mut rest = answers;
    'answers: while let [byte, after @ ..] = rest {
        let bit = answer_bit(*byte)?;
        bits.push(bit);
        rest = after;
    }
    Ok(bits)
}
