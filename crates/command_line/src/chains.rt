//! The chain that a list writes.

ghost use Rattle.std.specs.Prelude.{◌≡◌, IfSome};
ghost use Rattle.chain_scan.specs.ChainPlan.{IsWidth};
ghost use Rattle.command_line.specs.Chains.{plan_of, width_of};

use arrayvec::ArrayVec;
use chain_scan::{ChainPlan, SIDES_MOST, WIDTH_LEAST, WIDTH_MOST};
use script_lang::read_number;

/// What stands for the chip in a list.
const CHIP: &str = "t";

/// What parts the items of a list.
const COMMA: char = ',';

/// The length of an instruction register that an item writes, from 2 to 8 bits. None where it writes none.
fn width_of(item: &str) -> Option<u8>
    ensures width { result ≡ width_of item.now }
    ensures within { IfSome result IsWidth }
{
    match read_number(item.as_bytes()) {
        Ok(number) if u64::from(WIDTH_LEAST) <= number && number <= u64::from(WIDTH_MOST) => {
            Some(number as u8)
        }
        _ => None,
    }
}

/// The devices of the chain that a list writes, which names them from TDI to TDO. None where it writes no chain.
pub(crate) fn plan_of(list: &str) -> Option<ChainPlan>
    ensures { result ≡ plan_of list.now }
{
    let mut near = ArrayVec::<u8, SIDES_MOST>::new();
    let mut far = ArrayVec::<u8, SIDES_MOST>::new();
    let mut is_behind = false;
    for item in list.split(COMMA) {
        if item == CHIP && !is_behind {
            is_behind = true;
            continue;
        }
        let width = width_of(item)?;
        if near.len() + far.len() == SIDES_MOST {
            return None;
        }
        if is_behind {
            near.insert(0, width);
        } else {
            far.insert(0, width);
        }
    }
    if is_behind {
        ChainPlan::new(near, far)
    } else {
        None
    }
}
