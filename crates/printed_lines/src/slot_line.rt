ghost use Rattle.std.specs.Prelude.{◌≡◌, ◌≤◌, ◌<◌, ◌+◌, ◌++◌, codes, decimal};
ghost use Rattle.arrayvec.specs.ArrayVec.{array_vec_len};
ghost use Rattle.abstract_debugger.specs.Lines.{spelled_hit, spelled_use};
ghost use Rattle.abstract_debugger.specs.SlotUses.{use_named};

use crate::digits::{push_address, push_decimal};
use crate::line_text::{LINE_MOST, LineText, push_word};
use debug_model::{SlotUse, watch_word};

/// The most bytes of a slot's use: `watch access ` and an address.
const USE_MOST: usize = 31;

/// Appends what a slot is used for.
fn push_use(text: &mut LineText, used: SlotUse)
    requires { array_vec_len text.old + USE_MOST ≤ LINE_MOST }
    ensures words { text.new.items ≡ text.old.items ++ spelled_use (use_named used) }
    ensures room { array_vec_len text.new ≤ array_vec_len text.old + USE_MOST }
{
    match used {
        SlotUse::Free => push_word(text, b"free"),
        SlotUse::Break(address) => {
            push_word(text, b"break ");
            push_address(text, address);
        }
        SlotUse::Watch(kind, address) => {
            push_word(text, b"watch ");
            push_word(text, watch_word(kind));
            push_word(text, b" ");
            push_address(text, address);
        }
        SlotUse::Count(turns) => {
            push_word(text, b"count ");
            push_decimal(text, u32::from(turns));
        }
        SlotUse::Other(tdata1) => {
            push_word(text, b"other ");
            push_address(text, tdata1);
        }
    }
}

/// Appends the words of a slot: its number, its use, and its hit where that is to be shown.
pub(crate) fn push_slot(text: &mut LineText, slot: u8, used: SlotUse, hit: bool)
    requires { array_vec_len text.old ≡ 0 }
    ensures words { text.new.items ≡ text.old.items ++ (codes "slot " ++ decimal slot ++ codes " " ++ spelled_use (use_named used) ++ spelled_hit hit) }
    ensures room { array_vec_len text.new < LINE_MOST }
{
    push_word(text, b"slot ");
    push_decimal(text, u32::from(slot));
    push_word(text, b" ");
    push_use(text, used);
    if hit {
        push_word(text, b" hit");
    }
}
