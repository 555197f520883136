//! The runs of a segment: what one call stores.

ghost use Rattle.std.specs.Prelude.{◌≡◌, ◌↔◌, ◌+◌, ◌-◌, ◌*◌, ◌++◌, ◌<◌, ◌≤◌, IsTrue, drop, length, true};
ghost use Rattle.debug_model.specs.Command.{most_elements};
ghost use Rattle.rv_model.specs.Memory.{is_aligned};
ghost use Rattle.rv_model.specs.Size.{count_of};
ghost use Rattle.elf_load.specs.Elements.{bytes_of, cut};
ghost use Rattle.elf_load.specs.Elf.{all_addresses};
ghost use Rattle.elf_load.specs.Runs.{calls_from, elements_in, size_from};

use crate::element::{element_at, size_at};
use crate::file::Segment;
use arrayvec::ArrayVec;
use probe_access::ELEMENTS_MOST;
use rv_model::Size;

/// Elements of one size, each behind the one before.
#[derive(Debug, Drop)]
pub struct Run {
    /// The physical address of the first byte.
    pub address: u64,
    /// How many bytes each element has.
    pub size: Size,
    /// The number that each element's bytes spell.
    pub values: ArrayVec<u64, ELEMENTS_MOST>,
}

/// Does a run of so many elements of a size go on with the segment's bytes behind those that are done?
fn goes_on(segment: &Segment, done: u64, size: Size, count: usize) -> bool
    requires ends { segment.now.address + segment.now.in_memory ≤ all_addresses }
    ensures { IsTrue result ↔ ((done < segment.now.in_memory) × (count < most_elements)
        × (size_from (segment.now.address + done) (segment.now.in_memory - done) ≡ size)) }
{
    done < segment.in_memory
        && count < ELEMENTS_MOST
        && size_at(segment.address + done, segment.in_memory - done) == size
}

/// The elements of a segment behind the bytes that are done, as many as have one size and one call takes.
pub(crate) fn run_at(segment: &Segment, done: u64, file: &[u8]) -> Run
    requires inside { done < segment.now.in_memory }
    requires grows { segment.now.in_file ≤ segment.now.in_memory }
    requires lies { segment.now.offset + segment.now.in_file ≤ length file.now }
    requires ends { segment.now.address + segment.now.in_memory ≤ all_addresses }
    ensures next { cut (segment.now.address + done) (drop done (bytes_of file.now segment.now))
        ≡ elements_in result ++ cut (segment.now.address + (done + length result.values.items * count_of result.size))
        (drop (done + length result.values.items * count_of result.size) (bytes_of file.now segment.now)) }
    ensures starts { result.address ≡ segment.now.address + done }
    ensures aligned { is_aligned result.address result.size ≡ true }
    ensures some { 1 ≤ length result.values.items }
    ensures room { length result.values.items ≤ most_elements }
    ensures within { done + length result.values.items * count_of result.size ≤ segment.now.in_memory }
    ensures calls { calls_from (segment.now.address + (done + length result.values.items * count_of result.size))
        (segment.now.in_memory - (done + length result.values.items * count_of result.size)) + 1
        ≤ calls_from (segment.now.address + done) (segment.now.in_memory - done) }
{
    let address = segment.address + done;
    let size = size_at(address, segment.in_memory - done);
    let mut values = ArrayVec::new();
    let mut at = done;
    'elements: while goes_on(segment, at, size, values.len()) {
        let element = element_at(segment, at, file);
        values.push(element.value);
        at += u64::from(size.count());
    }
    Run {
        address,
        size,
        values,
    }
}
