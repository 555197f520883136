//! Which TAPs stand beside the chip.

ghost use Rattle.std.specs.Prelude.{◌≡◌, ◌↔◌, All, IfSome, IsSome, true};
ghost use Rattle.chain_scan.specs.ChainPlan.{IsPlan, IsWidth};

use crate::side_tap::{WIDTH_LEAST, WIDTH_MOST};
use arrayvec::ArrayVec;
use std::marker::Model;

/// The most TAPs beside the chip.
pub const SIDES_MOST: usize = 7;

/// The lengths of the instruction registers of the TAPs beside the chip: 1 to 7 in all, each from 2 to 8 bits.
#[derive(Drop)]
pub struct ChainPlan {
    near: ArrayVec<u8, SIDES_MOST>,
    far: ArrayVec<u8, SIDES_MOST>,
    ghost is_plan: { IsPlan near.items far.items },
}

impl Model for ChainPlan {
    ghost use Rattle.chain_scan.specs.ChainPlan.{Plan};

    ghost Value = { Plan };

    ghost view = { λ p. record { near = p.near.items; far = p.far.items } };
}

/// Whether each is the length of a side TAP's instruction register.
fn are_widths(widths: &[u8]) -> bool
    ensures { (result ≡ true) ↔ All IsWidth widths.now }
{
    widths
        .iter()
        .all(|width| WIDTH_LEAST <= *width && *width <= WIDTH_MOST)
}

impl ChainPlan {
    /// The lengths between the chip and TDO, the one nearest TDO first, and those between the chip and TDI, the one nearest the chip first. None where
    /// they aren't 1 to 7 in all, each from 2 to 8.
    pub fn new(near: ArrayVec<u8, SIDES_MOST>, far: ArrayVec<u8, SIDES_MOST>) -> Option<ChainPlan>
        ensures plan { IfSome result (λ p. p ≡ record { near = near.items; far = far.items }) }
        ensures right { IsSome result ↔ IsPlan near.items far.items }
    {
        let count = near.len() + far.len();
        if count == 0 || count > SIDES_MOST {
            return None;
        }
        if !are_widths(near.as_slice()) || !are_widths(far.as_slice()) {
            return None;
        }
        Some(ChainPlan { near, far })
    }

    /// The lengths between the chip and TDO, the one nearest TDO first.
    pub fn near(&self) -> &[u8]
        ensures { result.now ≡ self.now.near }
    {
        self.near.as_slice()
    }

    /// That there are 1 to 7 lengths, each from 2 to 8, is the promise of the type, which a contract knows of a plan only once it is asked.
    pub fn know(&self)
        ensures { IsPlan self.now.near self.now.far }
    {
        let _near = self.near.len();
    }

    /// The lengths between the chip and TDI, the one nearest the chip first.
    pub fn far(&self) -> &[u8]
        ensures { result.now ≡ self.now.far }
    {
        self.far.as_slice()
    }
}
