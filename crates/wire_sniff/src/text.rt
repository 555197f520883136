ghost use Rattle.std.specs.Prelude.{◌≡◌, ◌≤◌, ◌+◌, ◌++◌, codes, decimal, length};
ghost use Rattle.arrayvec.specs.ArrayVec.{array_vec_len};
ghost use Rattle.debug_model.specs.Spelling.{hexadecimal};

use arrayvec::ArrayVec;
use debug_model::hex_digit;
use itoa::Buffer;

/// The most bytes of a line, its line feed with them: a code, a count, and two numbers of 64 bits.
pub(crate) const LINE_MOST: usize = 67;

/// The most digits of a `u64` in decimal.
pub(crate) const DECIMAL_MOST: usize = 20;

/// The text of one line.
pub(crate) type LineText = ArrayVec<u8, LINE_MOST>;

/// Appends a word.
pub(crate) fn push_word(text: &mut LineText, word: &[u8])
    requires { array_vec_len text.old + length word.now ≤ LINE_MOST }
    ensures word { text.new.items ≡ text.old.items ++ word.now }
    ensures room { array_vec_len text.new ≡ array_vec_len text.old + length word.now }
{
    let mut rest = word;
    'bytes: while let [byte, after @ ..] = rest {
        text.push(*byte);
        rest = after;
    }
}

/// Appends the lowest so many hexadecimal digits of a number, the highest first.
#[tactic(auto, unfolding(debug_model::specs::Spelling::hexadecimal))]
fn push_hex(text: &mut LineText, count: u8, number: u64)
    requires { array_vec_len text.old + count ≤ LINE_MOST }
    ensures digits { text.new.items ≡ text.old.items ++ hexadecimal count number }
    ensures room { array_vec_len text.new ≡ array_vec_len text.old + count }
{
    if count == 0 {
        return;
    }
    push_hex(text, count - 1, number / 16);
    text.push(hex_digit((number % 16) as u8));
}

/// Appends `0x` and the lowest so many hexadecimal digits of a number.
pub(crate) fn push_number(text: &mut LineText, count: u8, number: u64)
    requires { array_vec_len text.old + 2 + count ≤ LINE_MOST }
    ensures digits { text.new.items ≡ text.old.items ++ (codes "0x" ++ hexadecimal count number) }
    ensures room { array_vec_len text.new ≡ array_vec_len text.old + 2 + count }
{
    push_word(text, b"0x");
    push_hex(text, count, number);
}

/// Appends a number in decimal.
pub(crate) fn push_decimal(text: &mut LineText, number: u64)
    requires { array_vec_len text.old + DECIMAL_MOST ≤ LINE_MOST }
    ensures digits { text.new.items ≡ text.old.items ++ decimal number }
    ensures room { array_vec_len text.new ≡ array_vec_len text.old + length (decimal number) }
    ensures most { length (decimal number) ≤ DECIMAL_MOST }
{
    let mut buffer = Buffer::new();
    push_word(text, buffer.format(number).as_bytes());
}
