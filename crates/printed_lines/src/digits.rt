ghost use Rattle.std.specs.Prelude.{◌≡◌, ◌≤◌, ◌+◌, ◌*◌, ◌++◌, decimal, flat_map, length};
ghost use Rattle.arrayvec.specs.ArrayVec.{array_vec_len};
ghost use Rattle.debug_model.specs.Spelling.{hexadecimal, spelled_address};

use crate::line_text::{LINE_MOST, LineText, push_word};
use itoa::Buffer;

/// The bytes of an address or a value, its prefix with them.
pub const ADDRESS_LENGTH: usize = 18;

/// The most digits of a `u32` in decimal.
pub const DECIMAL_MOST: usize = 10;

/// Appends two hexadecimal digits for each byte.
pub(crate) fn push_hex(text: &mut LineText, bytes: &[u8])
    requires { array_vec_len text.old + 2 * length bytes.now ≤ LINE_MOST }
    ensures digits { text.new.items ≡ text.old.items ++ flat_map (hexadecimal 2) bytes.now }
    ensures room { array_vec_len text.new ≡ array_vec_len text.old + 2 * length bytes.now }
{
    let mut room = [0; LINE_MOST];
    let digits = &mut room[..2 * bytes.len()];
    hex::encode_to_slice(bytes, digits).unwrap();
    push_word(text, digits);
}

/// Appends the two hexadecimal digits of a byte.
pub fn push_hex_byte(text: &mut LineText, byte: u8)
    requires { array_vec_len text.old + 2 ≤ LINE_MOST }
    ensures digits { text.new.items ≡ text.old.items ++ hexadecimal 2 byte }
    ensures room { array_vec_len text.new ≡ array_vec_len text.old + 2 }
{
    push_hex(text, &[byte]);
}

/// Appends the eight hexadecimal digits of a word.
pub fn push_hex_word(text: &mut LineText, word: u32)
    requires { array_vec_len text.old + 8 ≤ LINE_MOST }
    ensures digits { text.new.items ≡ text.old.items ++ hexadecimal 8 word }
    ensures room { array_vec_len text.new ≡ array_vec_len text.old + 8 }
{
    push_hex(text, &word.to_be_bytes());
}

/// Appends an address or a value: `0x` and 16 hexadecimal digits.
pub fn push_address(text: &mut LineText, number: u64)
    requires { array_vec_len text.old + ADDRESS_LENGTH ≤ LINE_MOST }
    ensures digits { text.new.items ≡ text.old.items ++ spelled_address number }
    ensures room { array_vec_len text.new ≡ array_vec_len text.old + ADDRESS_LENGTH }
{
    push_word(text, b"0x");
    push_hex(text, &number.to_be_bytes());
}

/// Appends a number in decimal.
pub fn push_decimal(text: &mut LineText, number: u32)
    requires { array_vec_len text.old + DECIMAL_MOST ≤ LINE_MOST }
    ensures digits { text.new.items ≡ text.old.items ++ decimal number }
    ensures room { array_vec_len text.new ≤ array_vec_len text.old + DECIMAL_MOST }
{
    let mut buffer = Buffer::new();
    push_word(text, buffer.format(number).as_bytes());
}
