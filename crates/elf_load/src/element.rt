//! The elements of a segment: what is stored at once.

ghost use Rattle.std.specs.Prelude.{◌≡◌, ◌+◌, ◌-◌, ◌<◌, ◌≤◌, ◌∷◌, drop, length, take, true};
ghost use Rattle.rv_model.specs.Memory.{is_aligned};
ghost use Rattle.rv_model.specs.Size.{count_of};
ghost use Rattle.elf_load.specs.Elements.{bytes_of, cut};
ghost use Rattle.elf_load.specs.Elf.{all_addresses};
ghost use Rattle.elf_load.specs.Fields.{number_of};
ghost use Rattle.elf_load.specs.Runs.{size_from};

use crate::count::WORD_SIZE;
use crate::file::Segment;
use byteorder::{ByteOrder, LittleEndian};
use rv_model::Size;

/// A value that is stored at once: eight bytes at a multiple of 8, or one.
#[derive(Clone, Copy, Debug, PartialEq, Eq)]
pub struct Element {
    /// The physical address of its first byte.
    pub address: u64,
    /// How many bytes it has.
    pub size: Size,
    /// The number that its bytes spell, the one at the address lowest.
    pub value: u64,
}

/// How many bytes the element at an address has, where its segment has so many bytes from there on.
pub(crate) fn size_at(address: u64, bytes: u64) -> Size
    ensures { result ≡ size_from address bytes }
{
    if address % WORD_SIZE == 0 && bytes >= WORD_SIZE {
        Size::B8
    } else {
        Size::B1
    }
}

/// The number in so many of a segment's bytes, behind those that are done: of the file, and zeros behind these.
fn value_at(segment: &Segment, done: u64, count: u64, file: &[u8]) -> u64
    requires lies { segment.now.offset + segment.now.in_file ≤ length file.now }
    requires grows { segment.now.in_file ≤ segment.now.in_memory }
    requires inside { done + count ≤ segment.now.in_memory }
    requires few { count ≤ 8 }
    ensures { result ≡ number_of (take count (drop done (bytes_of file.now segment.now))) }
{
    let there = segment.in_file.saturating_sub(done).min(count);
    if there == 0 {
        return 0;
    }
    let from = (segment.offset + done) as usize;
    LittleEndian::read_uint(&file[from..], there as usize)
}

/// The element of a segment behind the bytes that are done.
pub(crate) fn element_at(segment: &Segment, done: u64, file: &[u8]) -> Element
    requires inside { done < segment.now.in_memory }
    requires grows { segment.now.in_file ≤ segment.now.in_memory }
    requires lies { segment.now.offset + segment.now.in_file ≤ length file.now }
    requires ends { segment.now.address + segment.now.in_memory ≤ all_addresses }
    ensures next { cut (segment.now.address + done) (drop done (bytes_of file.now segment.now))
        ≡ result ∷ cut (segment.now.address + (done + count_of result.size)) (drop (done + count_of result.size) (bytes_of file.now segment.now)) }
    ensures starts { result.address ≡ segment.now.address + done }
    ensures size { result.size ≡ size_from (segment.now.address + done) (segment.now.in_memory - done) }
    ensures aligned { is_aligned result.address result.size ≡ true }
    ensures within { done + count_of result.size ≤ segment.now.in_memory }
{
    let address = segment.address + done;
    let size = size_at(address, segment.in_memory - done);
    let value = value_at(segment, done, u64::from(size.count()), file);
    Element {
        address,
        size,
        value,
    }
}
