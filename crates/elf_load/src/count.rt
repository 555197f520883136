//! How many elements segments have.

ghost use Rattle.std.specs.Prelude.{◌≡◌, ◌+◌, ◌<◌, ◌≤◌, ◌^◌, ℕ, List, false, flat_map, length, nat_lt};
ghost use Rattle.std.specs.List.{list_any};
ghost use Rattle.elf_load.specs.Elements.{cut, elements_of};
ghost use Rattle.elf_load.specs.Elf.{elements_most, is_bad_segment};

use crate::file::Segment;

/// How many bytes a large element has; its address is a multiple of it.
pub(crate) const WORD_SIZE: u64 = 8;

/// How many elements the segments of a file have at most.
pub const ELEMENTS_MOST: u64 = 16_384;

/// How many elements so many bytes at an address have: single bytes up to a multiple of 8, then 8 bytes each, then single bytes.
fn element_count(address: u64, bytes: u64) -> u64
    ensures { (xs : List ℕ) → length xs ≡ bytes → length (cut address xs) ≡ result }
{
    let front = ((WORD_SIZE - address % WORD_SIZE) % WORD_SIZE).min(bytes);
    let rest = bytes - front;
    front + rest / WORD_SIZE + rest % WORD_SIZE
}

/// Have these segments, none of them bad in the file, more elements than a file may have?
pub(crate) fn are_too_many(segments: &[Segment]) -> bool
    ensures { (file : List ℕ) → list_any (is_bad_segment (length file)) segments.now ≡ false
        → result ≡ nat_lt elements_most (length (flat_map (elements_of file) segments.now)) }
{
    let mut room = ELEMENTS_MOST;
    for segment in segments {
        let count = element_count(segment.address, segment.in_memory);
        if count > room {
            return true;
        }
        room -= count;
    }
    false
}
