//! The text of the last lines that a run prints.

ghost use Rattle.std.specs.Prelude.{◌≡◌, ◌≤◌, ◌+◌, ◌++◌, codes, decimal, length};
ghost use Rattle.arrayvec.specs.ArrayVec.{array_vec_len};
ghost use Rattle.jtag_run.specs.LastLine.{asked_part, bad_byte, failed_at, given_part, image_refused_by, lost_by, lost_line};
ghost use Rattle.jtag_run.specs.LastLine.{refused_register, refused_word, script_refused, target_refused, wire_failed};
ghost use Rattle.jtag_run.specs.Summary.{counted_line};

use debug_model::{ScriptError, WireFault};
use itoa::Buffer;
use printed_lines::{LINE_MOST, LineText, push_decimal, push_hex_byte, push_hex_word, push_word};
use probe_run::ConnectFault;
use probe_session::LostCause;

/// The most bytes of what several Looks did not see.
const UNSEEN_MOST: usize = 16;

/// The most bytes of why a session was lost.
const LOST_BY_MOST: usize = 32;

/// The most bytes of the name of a register that is refused.
const REGISTER_MOST: usize = 10;

/// The most bytes of what a line of a summary counts.
pub const COUNTED_MOST: usize = 16;

/// The most digits of a `u64` in decimal.
const LONG_MOST: usize = 20;

/// The most bytes of what failed at a wire.
const FAILED_AT_MOST: usize = 11;

/// The last line of a run whose script is refused.
pub fn script_refused_line(error: &ScriptError) -> LineText
    ensures { result.items ≡ script_refused error.now }
{
    let mut text = LineText::new();
    push_word(&mut text, b"script refused: line ");
    push_decimal(&mut text, error.line);
    push_word(&mut text, b" fault ");
    push_decimal(&mut text, u32::from(error.fault.number()));
    text.push(b'\n');
    text
}

/// The last line of a run whose image, or the ELF file in its place, is refused for the fault of this number.
pub fn image_refused_line(number: u8) -> LineText
    ensures { result.items ≡ image_refused_by number }
{
    let mut text = LineText::new();
    push_word(&mut text, b"image refused: fault ");
    push_decimal(&mut text, u32::from(number));
    text.push(b'\n');
    text
}

/// Appends what failed at a wire.
fn push_failed_at(text: &mut LineText, fault: WireFault)
    requires { array_vec_len text.old + FAILED_AT_MOST ≤ LINE_MOST }
    ensures failed { text.new.items ≡ text.old.items ++ failed_at fault }
    ensures room { array_vec_len text.new ≤ array_vec_len text.old + FAILED_AT_MOST }
{
    match fault {
        WireFault::SendFailed => push_word(text, b"send"),
        WireFault::RecvFailed => push_word(text, b"receive"),
        WireFault::Ended => push_word(text, b"ended"),
        WireFault::BadAnswer(byte) => {
            push_word(text, b"answer 0x");
            push_hex_byte(text, byte);
        }
    }
}

/// The last line of a run whose wire or net has failed.
pub fn wire_failed_line(fault: WireFault) -> LineText
    ensures { result.items ≡ wire_failed fault }
{
    let mut text = LineText::new();
    push_word(&mut text, b"wire failed: ");
    push_failed_at(&mut text, fault);
    text.push(b'\n');
    text
}

/// Appends why a session was lost.
fn push_lost_by(text: &mut LineText, cause: LostCause)
    requires { array_vec_len text.old + LOST_BY_MOST ≤ LINE_MOST }
    ensures cause { text.new.items ≡ text.old.items ++ lost_by cause }
    ensures room { array_vec_len text.new ≤ array_vec_len text.old + LOST_BY_MOST }
{
    match cause {
        LostCause::DmiFailed => push_word(text, b"dmi failed"),
        LostCause::StillBusy => push_word(text, b"still busy"),
        LostCause::NoHalt(looks) => push_looks(text, b"no halt after ", looks),
        LostCause::NoAck(looks) => push_looks(text, b"no resume after ", looks),
        LostCause::Odd(odd) => {
            push_word(text, b"register 0x");
            push_hex_word(text, odd.word());
        }
    }
}

/// Appends what was not seen, and by how many Looks.
fn push_looks(text: &mut LineText, unseen: &[u8], looks: u32)
    requires short { length unseen.now ≤ UNSEEN_MOST }
    requires room { array_vec_len text.old + LOST_BY_MOST ≤ LINE_MOST }
    ensures looks { text.new.items ≡ text.old.items ++ (unseen.now ++ decimal looks ++ codes " looks") }
    ensures room { array_vec_len text.new ≤ array_vec_len text.old + LOST_BY_MOST }
{
    push_word(text, unseen);
    push_decimal(text, looks);
    push_word(text, b" looks");
}

/// The last line of a run whose session was lost.
pub fn lost_line(cause: LostCause) -> LineText
    ensures { result.items ≡ lost_line cause }
{
    let mut text = LineText::new();
    push_word(&mut text, b"lost: ");
    push_lost_by(&mut text, cause);
    text.push(b'\n');
    text
}

/// Appends a number of up to 64 bits in decimal.
fn push_long(text: &mut LineText, number: u64)
    requires { array_vec_len text.old + LONG_MOST ≤ LINE_MOST }
    ensures digits { text.new.items ≡ text.old.items ++ decimal number }
    ensures room { array_vec_len text.new ≤ array_vec_len text.old + LONG_MOST }
{
    let mut buffer = Buffer::new();
    push_word(text, buffer.format(number).as_bytes());
}

/// The last line of a run to which a byte came that is no sign, at this place of the whole stream.
pub fn bad_byte_line(place: u64, byte: u8) -> LineText
    ensures { result.items ≡ bad_byte place byte }
{
    let mut text = LineText::new();
    push_word(&mut text, b"bad byte 0x");
    push_hex_byte(&mut text, byte);
    push_word(&mut text, b" at ");
    push_long(&mut text, place);
    text.push(b'\n');
    text
}

/// The first part of the last line of a run whose recorded stream asks for other than the answers that were given: the whole has no room in one text.
pub fn asked_part(asked: u64) -> LineText
    ensures { result.items ≡ asked_part asked }
{
    let mut text = LineText::new();
    push_word(&mut text, b"answers refused: ");
    push_long(&mut text, asked);
    push_word(&mut text, b" asked, ");
    text
}

/// The rest of that line.
pub fn given_part(given: u64) -> LineText
    ensures { result.items ≡ given_part given }
{
    let mut text = LineText::new();
    push_long(&mut text, given);
    push_word(&mut text, b" given");
    text.push(b'\n');
    text
}

/// A register that is not as the opening of a session asks, and what it read as; none where an operation failed.
fn refused_register(fault: ConnectFault) -> (&'static [u8], u32)
    ensures name { result.0.now ≡ refused_register fault }
    ensures short { length result.0.now ≤ REGISTER_MOST }
    ensures word { result.1 ≡ refused_word fault }
{
    match fault {
        ConnectFault::Dtm(word) => (b"dtmcs", word),
        ConnectFault::Module(word, true) => (b"dmcontrol", word),
        ConnectFault::Module(word, false) => (b"dmstatus", word),
        ConnectFault::Abstract(word) => (b"abstractcs", word),
        ConnectFault::Bus(word) => (b"sbcs", word),
        ConnectFault::Dmi(_) => (b"", 0),
    }
}

/// The last line of a run whose chip was refused for a register.
pub fn target_refused_line(fault: ConnectFault) -> LineText
    ensures { result.items ≡ target_refused fault }
{
    let (name, word) = refused_register(fault);
    let mut text = LineText::new();
    push_word(&mut text, b"target refused: ");
    push_word(&mut text, name);
    push_word(&mut text, b" 0x");
    push_hex_word(&mut text, word);
    text.push(b'\n');
    text
}

/// A line of a summary: what is counted, and how often it came.
pub fn counted_line(what: &[u8], count: u64) -> LineText
    requires { length what.now ≤ COUNTED_MOST }
    ensures { result.items ≡ counted_line what.now count }
{
    let mut text = LineText::new();
    push_word(&mut text, what);
    push_long(&mut text, count);
    text.push(b'\n');
    text
}
