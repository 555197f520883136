//! The two windows of memory: the harts' MSIP words, and RAM above them
//! (RISC-V Advanced Core Local Interruptor Specification, "Machine-level Software Interrupt Device").

ghost use Rattle.std.specs.Prelude.{◌≡◌, ◌≤◌, ◌<◌, ◌^◌, IfSome, true, is_some, length, if◌then◌else◌};
ghost use Rattle.rv_model.specs.Memory.{is_aligned, laid, value_at, with_value};
ghost use Rattle.rv_model.specs.Size.{count_of};
ghost use Rattle.rv_mem.specs.Windows.{kept_bits, most_words};

use crate::bytes::{index_of, read, write};
use rv_model::Size;

/// The address of RAM's first byte.
pub const BASE: u64 = 0x8000_0000;

/// The address of hart 0's MSIP word.
const MSIP_BASE: u64 = 0x200_0000;

/// How many bytes an MSIP word has.
pub const MSIP_SIZE: usize = 4;

/// What a write of a value from an address of the MSIP words on keeps: bit 0 of each word.
fn kept_bits(addr: u64, value: u64) -> u64
    ensures { result ≡ kept_bits addr value }
{
    if addr % MSIP_SIZE as u64 != 0 {
        return 0;
    }
    value % 2 + (value / 0x1_0000_0000) % 2 * 0x1_0000_0000
}

/// The number in the `size` bytes from `addr` on, which is a multiple of that, or None where one of them is in neither window.
pub fn load_at(words: &[u8], bytes: &[u8], addr: u64, size: Size) -> Option<u64>
    requires few { length words.now ≤ most_words }
    requires aligned { is_aligned addr size ≡ true }
    ensures value { result ≡ value_at (laid words.now bytes.now) addr (count_of size) }
    ensures small { IfSome result (λ value. value < 256 ^ count_of size) }
{
    if addr >= BASE {
        match index_of(bytes, BASE, addr, size) {
            Some(at) => Some(read(bytes, at, size)),
            None => None,
        }
    } else {
        match index_of(words, MSIP_BASE, addr, size) {
            Some(at) => Some(read(words, at, size)),
            None => None,
        }
    }
}

/// Puts what a write keeps of `value` into the `size` bytes from `addr` on, which is a multiple of that.
/// False where one of them is in neither window; then nothing changes.
pub fn store_at(words: &mut [u8], bytes: &mut [u8], addr: u64, size: Size, value: u64) -> bool
    requires few { length words.old ≤ most_words }
    requires aligned { is_aligned addr size ≡ true }
    ensures inside { result ≡ is_some (value_at (laid words.old bytes.old) addr (count_of size)) }
    ensures after { laid words.new bytes.new ≡ (if result then with_value (laid words.old bytes.old) addr (count_of size) value else laid words.old bytes.old) }
{
    if addr >= BASE {
        match index_of(bytes, BASE, addr, size) {
            Some(at) => {
                write(bytes, at, size, value);
                true
            }
            None => false,
        }
    } else {
        match index_of(words, MSIP_BASE, addr, size) {
            Some(at) => {
                write(words, at, size, kept_bits(addr, value));
                true
            }
            None => false,
        }
    }
}
