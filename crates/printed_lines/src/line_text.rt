ghost use Rattle.std.specs.Prelude.{◌≡◌, ◌≤◌, ◌+◌, ◌++◌, length};
ghost use Rattle.arrayvec.specs.ArrayVec.{array_vec_len};

use arrayvec::ArrayVec;

/// The most bytes of a line, its line feed with them: an address, a space and the digits of 16 bytes.
pub const LINE_MOST: usize = 52;

/// The text of one line.
pub type LineText = ArrayVec<u8, LINE_MOST>;

/// Appends a word.
pub fn push_word(text: &mut LineText, word: &[u8])
    requires { array_vec_len text.old + length word.now ≤ LINE_MOST }
    ensures word { text.new.items ≡ text.old.items ++ word.now }
    ensures room { array_vec_len text.new ≡ array_vec_len text.old + length word.now }
{
    let mut rest = word;
    'bytes: while let [byte, after @ ..] = rest {
        text.push(*byte);
        rest = after;
    }
}
