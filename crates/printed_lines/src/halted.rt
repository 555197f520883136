ghost use Rattle.std.specs.Prelude.{◌≡◌, ◌≤◌, ◌<◌, ◌+◌, ◌++◌, codes};
ghost use Rattle.arrayvec.specs.ArrayVec.{array_vec_len};
ghost use Rattle.debug_model.specs.Spelling.{spelled_address};
ghost use Rattle.abstract_debugger.specs.Lines.{places_from, spelled_cause, spelled_places};
ghost use Rattle.abstract_debugger.specs.SlotUses.{hits_in};

use crate::digits::{push_address, push_decimal};
use crate::line_text::{LINE_MOST, LineText, push_word};
use rv_model::SlotSet;

/// The slots that a hart has.
const SLOT_COUNT: u8 = 4;

/// The most bytes of the slots with a hit: a byte and a digit for each.
const HITS_MOST: usize = 8;

/// The most bytes of a cause, those of slots with a hit with them.
const CAUSE_MOST: usize = 16;

/// Appends the numbers of the slots with a hit, parted by commas, behind a space; nothing where there are none.
fn push_hits(text: &mut LineText, hits: SlotSet)
    requires { array_vec_len text.old + HITS_MOST ≤ LINE_MOST }
    ensures places { text.new.items ≡ text.old.items ++ spelled_places (places_from 0 (hits_in hits)) }
    ensures room { array_vec_len text.new ≤ array_vec_len text.old + HITS_MOST }
{
    let mut before = b' ';
    for slot in 0..SLOT_COUNT {
        if hits.has(slot) {
            text.push(before);
            text.push(b'0' + slot);
            before = b',';
        }
    }
}

/// Appends the cause of a halt.
fn push_cause(text: &mut LineText, cause: u8, hits: SlotSet)
    requires { array_vec_len text.old + CAUSE_MOST ≤ LINE_MOST }
    ensures cause { text.new.items ≡ text.old.items ++ spelled_cause cause (hits_in hits) }
    ensures room { array_vec_len text.new ≤ array_vec_len text.old + CAUSE_MOST }
{
    match cause {
        1 => push_word(text, b"ebreak"),
        2 => {
            push_word(text, b"trigger");
            push_hits(text, hits);
        }
        3 => push_word(text, b"haltreq"),
        4 => push_word(text, b"step"),
        5 => push_word(text, b"reset"),
        _ => {
            push_word(text, b"cause ");
            push_decimal(text, u32::from(cause));
        }
    }
}

/// Appends the words of a halted hart.
pub(crate) fn push_halted(text: &mut LineText, pc: u64, cause: u8, hits: SlotSet)
    requires { array_vec_len text.old ≡ 0 }
    ensures words { text.new.items ≡ text.old.items ++ (codes "halted at " ++ spelled_address pc ++ codes " by " ++ spelled_cause cause (hits_in hits)) }
    ensures room { array_vec_len text.new < LINE_MOST }
{
    push_word(text, b"halted at ");
    push_address(text, pc);
    push_word(text, b" by ");
    push_cause(text, cause, hits);
}
