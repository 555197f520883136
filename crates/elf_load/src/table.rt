//! The program headers of a file (System V ABI, "Program Header").

ghost use Rattle.std.specs.Prelude.{◌≡◌, ◌+◌, ◌*◌, ◌≤◌, IfNone, IfSome, false, true, length};
ghost use Rattle.std.specs.List.{list_any};
ghost use Rattle.elf_load.specs.Fields.{is_load, load_segments, segment_of};
ghost use Rattle.elf_load.specs.Elf.{is_bad_segment};

use crate::fields::{double_at, word_at};
use crate::file::{SEGMENTS_MOST, Segment};
use crate::header::PROGRAM_HEADER_SIZE;
use arrayvec::ArrayVec;

/// The places of a program header's fields.
const TYPE_AT: usize = 0;

const OFFSET_AT: usize = 8;

const PHYSICAL_ADDRESS_AT: usize = 24;

const FILE_SIZE_AT: usize = 32;

const MEMORY_SIZE_AT: usize = 40;

/// A segment to be loaded.
const LOAD: u32 = 1;

/// Does this header describe a segment to be loaded?
fn is_loaded(header: &[u8]) -> bool
    requires { length header.now ≡ 56 }
    ensures { result ≡ is_load header.now }
{
    word_at(header, TYPE_AT) == LOAD
}

/// The segment that this header describes.
fn segment(header: &[u8]) -> Segment
    requires { length header.now ≡ 56 }
    ensures { result ≡ segment_of header.now }
{
    Segment {
        offset: double_at(header, OFFSET_AT),
        address: double_at(header, PHYSICAL_ADDRESS_AT),
        in_file: double_at(header, FILE_SIZE_AT),
        in_memory: double_at(header, MEMORY_SIZE_AT),
    }
}

/// Does the segment pass the end of a file of this size, have more bytes there than in memory, or pass the last address?
fn is_bad(segment: Segment, file_size: u64) -> bool
    ensures { result ≡ is_bad_segment file_size segment }
{
    segment.offset > file_size
        || segment.in_file > file_size - segment.offset
        || segment.in_memory < segment.in_file
        || segment.in_memory > 0 && segment.address > u64::MAX - (segment.in_memory - 1)
}

/// The segments to be loaded of so many program headers; None where one of them is bad in a file of this size.
pub(crate) fn segments(
    table: &[u8],
    count: usize,
    file_size: u64,
) -> Option<ArrayVec<Segment, SEGMENTS_MOST>>
    requires most { count ≤ 64 }
    requires whole { length table.now ≡ 56 * count }
    ensures found { IfSome result (λ segments. (list_any (is_bad_segment file_size) (load_segments count table.now) ≡ false)
        × (segments.items ≡ load_segments count table.now)) }
    ensures none { IfNone result (list_any (is_bad_segment file_size) (load_segments count table.now) ≡ true) }
{
    let mut segments = ArrayVec::new();
    let mut rest = table;
    for _ in 0..count {
        let (header, behind) = rest.split_at(PROGRAM_HEADER_SIZE);
        rest = behind;
        if !is_loaded(header) {
            continue;
        }
        let next = segment(header);
        if is_bad(next, file_size) {
            return None;
        }
        segments.push(next);
    }
    Some(segments)
}
