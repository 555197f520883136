ghost use Rattle.std.specs.Prelude.{◌≡◌, ◌≤◌, ◌<◌, ◌+◌, ◌*◌, ◌++◌, length, codes, decimal, flat_map};
ghost use Rattle.arrayvec.specs.ArrayVec.{array_vec_len};
ghost use Rattle.rv_model.specs.Size.{count_of};
ghost use Rattle.debug_model.specs.Registers.{name_of_register};
ghost use Rattle.debug_model.specs.Spelling.{hexadecimal, spelled_address};
ghost use Rattle.abstract_debugger.specs.Lines.{spelled_digits, text_of, words_of_line};
ghost use Rattle.printed_lines.specs.Line.{line_of};

use crate::digits::{
    ADDRESS_LENGTH, DECIMAL_MOST, push_address, push_decimal, push_hex, push_hex_word,
};
use crate::halted::push_halted;
use crate::line::Line;
use crate::line_text::{LINE_MOST, LineText, push_word};
use crate::slot_line::push_slot;
use crate::words::register_word;
use arrayvec::ArrayVec;
use debug_model::{path_word, switch_word};
use rv_model::Size;

/// The bytes of a value, of which an element has as many of the lowest as its size.
const VALUE_BYTES: usize = 8;

/// Appends fixed words and a number in decimal.
fn push_numbered(text: &mut LineText, words: &[u8], number: u32)
    requires { array_vec_len text.old + length words.now + DECIMAL_MOST ≤ LINE_MOST }
    ensures words { text.new.items ≡ text.old.items ++ words.now ++ decimal number }
    ensures room { array_vec_len text.new ≤ array_vec_len text.old + length words.now + DECIMAL_MOST }
{
    push_word(text, words);
    push_decimal(text, number);
}

/// Appends a number in decimal between fixed words.
fn push_between(text: &mut LineText, words: &[u8], number: u32, more: &[u8])
    requires { array_vec_len text.old + length words.now + DECIMAL_MOST + length more.now ≤ LINE_MOST }
    ensures words { text.new.items ≡ text.old.items ++ words.now ++ decimal number ++ more.now }
    ensures room { array_vec_len text.new ≤ array_vec_len text.old + length words.now + DECIMAL_MOST + length more.now }
{
    push_numbered(text, words, number);
    push_word(text, more);
}

/// Appends an address between fixed words.
fn push_around(text: &mut LineText, words: &[u8], address: u64, more: &[u8])
    requires { array_vec_len text.old + length words.now + ADDRESS_LENGTH + length more.now ≤ LINE_MOST }
    ensures words { text.new.items ≡ text.old.items ++ words.now ++ spelled_address address ++ more.now }
    ensures room { array_vec_len text.new ≡ array_vec_len text.old + length words.now + ADDRESS_LENGTH + length more.now }
{
    push_word(text, words);
    push_address(text, address);
    push_word(text, more);
}

/// Appends a register's name and its value.
fn push_register(text: &mut LineText, number: u16, value: u64)
    requires { array_vec_len text.old ≡ 0 }
    ensures words { text.new.items ≡ text.old.items ++ (name_of_register number ++ codes " " ++ spelled_address value) }
    ensures room { array_vec_len text.new < LINE_MOST }
{
    push_word(text, register_word(number));
    push_word(text, b" ");
    push_address(text, value);
}

/// Appends an element of memory: its address, and two digits for each of its bytes.
fn push_element(text: &mut LineText, address: u64, size: Size, value: u64)
    requires { array_vec_len text.old ≡ 0 }
    ensures words { text.new.items ≡ text.old.items ++ (spelled_address address ++ codes " " ++ spelled_digits (2 * count_of size) value) }
    ensures room { array_vec_len text.new < LINE_MOST }
{
    push_address(text, address);
    push_word(text, b" 0x");
    push_hex(
        text,
        &value.to_be_bytes()[VALUE_BYTES - usize::from(size.count())..],
    );
}

/// Appends an address and the bytes from it on.
fn push_row(text: &mut LineText, address: u64, bytes: &ArrayVec<u8, 16>)
    requires { array_vec_len text.old ≡ 0 }
    ensures words { text.new.items ≡ text.old.items ++ (spelled_address address ++ codes " " ++ flat_map (hexadecimal 2) bytes.now.items) }
    ensures room { array_vec_len text.new < LINE_MOST }
{
    push_address(text, address);
    push_word(text, b" ");
    push_hex(text, bytes.as_slice());
}

impl Line {
    /// The line's text, with its line feed.
    pub fn text(&self) -> LineText
        ensures { result.items ≡ text_of (line_of self.now) }
    {
        let mut text = self.words();
        text.push(b'\n');
        text
    }

    /// The line without its line feed.
    fn words(&self) -> LineText
        ensures words { result.items ≡ words_of_line (line_of self.now) }
        ensures room { array_vec_len result < LINE_MOST }
    {
        let mut text = LineText::new();
        match self {
            Line::Idcode(number) => {
                push_word(&mut text, b"idcode 0x");
                push_hex_word(&mut text, *number);
            }
            Line::Selected(hart) => push_numbered(&mut text, b"hart ", u32::from(*hart)),
            Line::Halted { pc, cause, hits } => push_halted(&mut text, *pc, *cause, *hits),
            Line::Running => push_word(&mut text, b"running"),
            Line::Resumed => push_word(&mut text, b"resumed"),
            Line::Register(number, value) => push_register(&mut text, *number, *value),
            Line::Element(address, size, value) => {
                push_element(&mut text, *address, *size, *value);
            }
            Line::Wrote(count) => push_numbered(&mut text, b"wrote ", u32::from(*count)),
            Line::Row(address, bytes) => push_row(&mut text, *address, bytes),
            Line::Via(path) => {
                push_word(&mut text, b"via ");
                push_word(&mut text, path_word(*path));
            }
            Line::Ebreak(is_on) => {
                push_word(&mut text, b"ebreak ");
                push_word(&mut text, switch_word(*is_on));
            }
            Line::Slot(slot, used, hit) => push_slot(&mut text, *slot, *used, *hit),
            Line::Loaded(count) => push_numbered(&mut text, b"loaded ", *count),
            Line::SoftSet(address) => push_around(&mut text, b"soft ", *address, b" set"),
            Line::SoftClear(address) => push_around(&mut text, b"soft ", *address, b" clear"),
            Line::NoHart(hart) => {
                push_numbered(&mut text, b"error: no hart ", u32::from(*hart));
            }
            Line::IsRunning(hart) => {
                push_between(&mut text, b"error: hart ", u32::from(*hart), b" is running");
            }
            Line::MemoryFault(address) => {
                push_word(&mut text, b"error: memory fault at ");
                push_address(&mut text, *address);
            }
            Line::RegisterRefused(number) => {
                push_word(&mut text, b"error: register ");
                push_word(&mut text, register_word(*number));
                push_word(&mut text, b" refused");
            }
            Line::NoFreeSlot => push_word(&mut text, b"error: no free slot"),
            Line::SlotNotInUse(slot) => {
                push_between(&mut text, b"error: slot ", u32::from(*slot), b" not in use");
            }
            Line::SoftIsSet(address) => {
                push_around(&mut text, b"error: soft ", *address, b" is set");
            }
            Line::SoftNotSet(address) => {
                push_around(&mut text, b"error: soft ", *address, b" not set");
            }
            Line::NoFreeSoftBreak => push_word(&mut text, b"error: no free soft break"),
            Line::SoftBreaksAreSet => push_word(&mut text, b"error: soft breaks are set"),
        }
        text
    }
}
