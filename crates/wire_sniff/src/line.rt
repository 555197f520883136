ghost use Rattle.std.specs.Prelude.{◌≡◌, ◌≤◌, ◌+◌, ◌++◌, ℕ, Bool, List, Option};
ghost use Rattle.arrayvec.specs.ArrayVec.{array_vec_len};
ghost use Rattle.debug_model.specs.Transport.{operation_of};
ghost use Rattle.wire_sniff.specs.Sniffed.{Sniffer as Definition, dmi_lines, requested_line, selected_lines};
ghost use Rattle.wire_sniff.specs.Sniffed.SniffedLine.{Data, Instruction};
ghost use Rattle.wire_sniff.specs.SniffedText.{spelled_scan, spelled_seen, text_of};
ghost use Rattle.wire_sniff.specs.State.{IsScan, IsSniffer, line_of, lines_shown};

use crate::scan::{SHOWN_MOST, Scan};
use crate::sniffer::Sniffer;
use crate::text::{LINE_MOST, LineText, push_decimal, push_number, push_word};
use debug_model::{DmiOp, DmiScan, instruction_code};
use jt_base::Bits;

/// The digits of a code of 5 bits and of an address of 7.
const BYTE_DIGITS: u8 = 2;

/// The digits of a word.
const WORD_DIGITS: u8 = 8;

/// The digits of the bits of a scan.
const BITS_DIGITS: u8 = 16;

/// The most bytes of the bits of a scan: `0x` and their digits.
const SPELLED_BITS: usize = 18;

/// The bits of dmi, whose address has 7.
const DMI_WIDTH: u64 = 41;

/// The status of an operation that is done, as dmi captures it.
const STATUS_DONE: u64 = 0;

/// The status of an operation that failed.
const STATUS_FAILED: u64 = 2;

/// The field `op` of dmi that asks for a read.
const OP_READ: u8 = 1;

/// The field `op` of dmi that asks for a write.
const OP_WRITE: u8 = 2;

/// What a scan of dmi shows.
#[derive(Drop)]
pub(crate) enum DmiLine {
    /// It was of another length than its register.
    Odd,
    /// Its captured status was not asked for.
    Unseen,
    /// It captured: the last operation failed.
    Failed,
    /// It captured: busy.
    Busy,
    /// It asked for this operation.
    Asked(DmiOp),
}

/// The operation that a scan of dmi asks for.
fn requested(scan: DmiScan) -> Option<DmiOp>
    ensures { result ≡ operation_of scan }
{
    match scan.op {
        OP_READ => Some(DmiOp::Read(scan.address)),
        OP_WRITE => Some(DmiOp::Write(scan.address, scan.value)),
        _ => None,
    }
}

/// What a scan shows that was not refused and asks for this.
fn asked(request: Option<DmiOp>) -> Option<DmiLine>
    ensures { lines_shown result ≡ requested_line request }
{
    request.map(DmiLine::Asked)
}

/// What a scan shows beside its bits where dmi is selected; None where it asks for nothing.
fn shown(scan: &Scan) -> Option<DmiLine>
    ensures { (given : List Bool) → (taken : List (Option Bool)) → IsScan scan.now given taken → lines_shown result ≡ dmi_lines given taken }
{
    if scan.count != DMI_WIDTH {
        return Some(DmiLine::Odd);
    }
    let Some(status) = scan.status else {
        return Some(DmiLine::Unseen);
    };
    match status.value() {
        STATUS_DONE => asked(requested(DmiScan::from_bits(scan.given.value()))),
        STATUS_FAILED => Some(DmiLine::Failed),
        _ => Some(DmiLine::Busy),
    }
}

/// What a scan of the selected data register shows beside its bits.
pub(crate) fn shown_by(sniffer: &Sniffer) -> Option<DmiLine>
    ensures { (answers : List ℕ) → (s : Definition) → IsSniffer answers sniffer.now s → lines_shown result ≡ selected_lines s.code s.given s.taken }
{
    if sniffer.code == instruction_code::DMI {
        shown(&sniffer.scan)
    } else {
        None
    }
}

/// The line of a scan that left this code in the instruction register.
pub(crate) fn instruction_line(code: u8) -> LineText
    ensures { result.items ≡ text_of (Instruction code) }
{
    let mut text = LineText::new();
    push_word(&mut text, b"ir ");
    push_number(&mut text, BYTE_DIGITS, u64::from(code));
    text.push(b'\n');
    text
}

/// Appends the taken bits of a scan, where each of them was seen.
fn push_taken(text: &mut LineText, taken: Option<Bits>)
    requires { array_vec_len text.old + SPELLED_BITS ≤ LINE_MOST }
    ensures taken { text.new.items ≡ text.old.items ++ spelled_seen taken }
    ensures room { array_vec_len text.new ≤ array_vec_len text.old + SPELLED_BITS }
{
    match taken {
        Some(bits) => push_number(text, BITS_DIGITS, bits.value()),
        None => push_word(text, b"-"),
    }
}

/// Appends the bits of a scan, where they are few enough.
fn push_scan(text: &mut LineText, scan: &Scan)
    requires { array_vec_len text.old + SPELLED_BITS + 1 + SPELLED_BITS ≤ LINE_MOST }
    ensures bits { (given : List Bool) → (taken : List (Option Bool)) → IsScan scan.now given taken
        → text.new.items ≡ text.old.items ++ spelled_scan given taken }
    ensures room { array_vec_len text.new ≤ array_vec_len text.old + SPELLED_BITS + 1 + SPELLED_BITS }
{
    if scan.count > u64::from(SHOWN_MOST) {
        push_word(text, b"long");
        return;
    }
    push_number(text, BITS_DIGITS, scan.given.value());
    push_word(text, b" ");
    push_taken(text, scan.taken);
}

/// The line of a scan of the data register that this code selects.
pub(crate) fn data_line(code: u8, scan: &Scan) -> LineText
    ensures { (given : List Bool) → (taken : List (Option Bool)) → IsScan scan.now given taken → result.items ≡ text_of (Data code given taken) }
{
    let mut text = LineText::new();
    push_word(&mut text, b"dr ");
    push_number(&mut text, BYTE_DIGITS, u64::from(code));
    push_word(&mut text, b" ");
    push_decimal(&mut text, scan.count);
    push_word(&mut text, b" ");
    push_scan(&mut text, scan);
    text.push(b'\n');
    text
}

/// The line of what a scan of dmi shows.
pub(crate) fn dmi_line(line: DmiLine) -> LineText
    ensures { result.items ≡ text_of (line_of line) }
{
    let mut text = LineText::new();
    push_word(&mut text, b"dmi ");
    match line {
        DmiLine::Odd => push_word(&mut text, b"odd"),
        DmiLine::Unseen => push_word(&mut text, b"unseen"),
        DmiLine::Failed => push_word(&mut text, b"failed"),
        DmiLine::Busy => push_word(&mut text, b"busy"),
        DmiLine::Asked(DmiOp::Read(address)) => {
            push_word(&mut text, b"read ");
            push_number(&mut text, BYTE_DIGITS, u64::from(address));
        }
        DmiLine::Asked(DmiOp::Write(address, value)) => {
            push_word(&mut text, b"write ");
            push_number(&mut text, BYTE_DIGITS, u64::from(address));
            push_word(&mut text, b" ");
            push_number(&mut text, WORD_DIGITS, u64::from(value));
        }
    }
    text.push(b'\n');
    text
}
