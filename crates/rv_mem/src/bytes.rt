//! Bytes as numbers, the least significant first (unprivileged manual, "Load and Store Instructions").

ghost use Rattle.std.specs.Prelude.{ℕ, ◌≡◌, ◌+◌, ◌++◌, drop, ◌*◌, ◌^◌, ◌<◌, ◌≤◌, Some, None, IfSome, IfNone, Bool, true, is_some, length};
ghost use Rattle.rv_model.specs.Memory.{bytes_from, is_aligned, value_at};
ghost use Rattle.rv_model.specs.Size.{count_of};
ghost use Rattle.rv_mem.specs.Windows.{put_value};

use byteorder::{ByteOrder, LittleEndian};
use rv_model::Size;

/// Whether an address is a multiple of the access's size.
pub fn is_aligned(addr: u64, size: Size) -> bool
    ensures { result ≡ is_aligned addr size }
{
    addr % u64::from(size.count()) == 0
}

/// The index of an address among the bytes, the first of which stands at `base`, or None where one of the `size` bytes from there on is not among them.
#[tactic(auto, using(crate::proofs::ByteLemmas::none_low, crate::proofs::ByteLemmas::none_high, crate::proofs::ByteLemmas::some_inside))]
pub fn index_of(bytes: &[u8], base: u64, addr: u64, size: Size) -> Option<usize>
    ensures outside { IfNone result (value_at (bytes_from base bytes.now) addr (count_of size) ≡ None) }
    ensures inside { IfSome result (λ at. is_some (value_at (bytes_from base bytes.now) addr (count_of size)) ≡ true) }
    ensures index { IfSome result (λ at. addr ≡ base + at) }
    ensures room { IfSome result (λ at. at + count_of size ≤ length bytes.now) }
{
    if addr < base {
        return None;
    }
    let at = addr - base;
    let count = bytes.len() as u64;
    if at > count || count - at < u64::from(size.count()) {
        return None;
    }
    Some(at as usize)
}

/// The number in the `size` bytes from an index on.
pub fn read(bytes: &[u8], at: usize, size: Size) -> u64
    requires { at + count_of size ≤ length bytes.now }
    ensures value { (base : ℕ) → value_at (bytes_from base bytes.now) (base + at) (count_of size) ≡ Some result }
    ensures small { result < 256 ^ count_of size }
{
    match size {
        Size::B1 => u64::from(bytes[at]),
        Size::B2 => u64::from(LittleEndian::read_u16(&bytes[at..])),
        Size::B4 => u64::from(LittleEndian::read_u32(&bytes[at..])),
        Size::B8 => LittleEndian::read_u64(&bytes[at..]),
    }
}

/// Puts a number's lowest bytes into the `size` bytes from an index on.
pub fn write(bytes: &mut [u8], at: usize, size: Size, value: u64)
    requires { at + count_of size ≤ length bytes.old }
    ensures { (base : ℕ) → bytes_from base bytes.new ≡ put_value (bytes_from base bytes.old) (base + at) (count_of size) value }
{
    match size {
        Size::B1 => bytes[at] = (value & 0xff) as u8,
        Size::B2 => LittleEndian::write_u16(&mut bytes[at..], (value & 0xffff) as u16),
        Size::B4 => LittleEndian::write_u32(&mut bytes[at..], (value & 0xffff_ffff) as u32),
        Size::B8 => LittleEndian::write_u64(&mut bytes[at..], value),
    }
}

/// Puts an image at the first byte; the bytes above it stay.
pub fn put(bytes: &mut [u8], image: &[u8])
    requires { length image.now ≤ length bytes.old }
    ensures { bytes.new ≡ image.now ++ drop (length image.now) bytes.old }
{
    bytes[..image.len()].copy_from_slice(image);
}
