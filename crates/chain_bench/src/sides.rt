//! The devices beside the chip.

ghost use Rattle.std.specs.Prelude.{◌≡◌, ◌≤◌, All, drop, false, length, map};
ghost use Rattle.chain_scan.specs.Chain.{outgoing, sides_rise};
ghost use Rattle.chain_scan.specs.ChainPlan.{IsWidth, sides_most};
ghost use Rattle.chain_scan.specs.SideTap.{reset_side, side_falls, side_holds};
ghost use Rattle.chain_bench.specs.Benched.{beside_held, beside_pinned};

use arrayvec::ArrayVec;
use chain_scan::{ChainPlan, SIDES_MOST, SideTap};
use std::marker::Model;

/// The devices beside the chip, and the level that TCK has at them.
#[derive(Drop)]
pub struct Sides {
    near: ArrayVec<SideTap, SIDES_MOST>,
    far: ArrayVec<SideTap, SIDES_MOST>,
    tck: bool,
}

impl Model for Sides {
    ghost use Rattle.chain_bench.specs.Benched.{Beside};

    ghost Value = { Beside };

    ghost view = { λ s. record { near = s.near.items; far = s.far.items; tck = s.tck } };
}

/// What the TAP at this place gives its neighbour towards TDO; behind the last one it is this level.
fn level_from(sides: &[SideTap], place: usize, tdi: bool) -> bool
    ensures { result ≡ outgoing tdi (drop place sides.now) }
{
    match sides.get(place) {
        Some(side) => side.tdo(),
        None => tdi,
    }
}

/// TCK rises at each, and each takes what its neighbour towards TDI has on TDO.
fn rise_all(sides: &mut [SideTap], tms: bool, tdi: bool)
    ensures { sides.new ≡ sides_rise tms tdi sides.old }
{
    for place in 0..sides.len() {
        let incoming = level_from(sides, place + 1, tdi);
        sides[place].rise(tms, incoming);
    }
}

/// TCK falls at each.
fn fall_all(sides: &mut [SideTap])
    ensures { sides.new ≡ map side_falls sides.old }
{
    for side in sides.iter_mut() {
        side.fall();
    }
}

/// TRST takes this level at each.
fn hold_all(sides: &mut [SideTap], on: bool)
    ensures { sides.new ≡ map (side_holds on) sides.old }
{
    for side in sides.iter_mut() {
        side.hold_reset(on);
    }
}

/// Devices behind a reset, with instruction registers of these lengths.
fn reset_all(widths: &[u8]) -> ArrayVec<SideTap, SIDES_MOST>
    requires few { length widths.now ≤ sides_most }
    requires right { All IsWidth widths.now }
    ensures { result.items ≡ map reset_side widths.now }
{
    let mut sides = ArrayVec::new();
    for width in widths {
        sides.push(SideTap::new(*width));
    }
    sides
}

impl Sides {
    /// The devices of this plan behind a reset, where TCK is 0.
    pub fn new(plan: &ChainPlan) -> Self
        ensures { result ≡ record { near = map reset_side plan.now.near; far = map reset_side plan.now.far; tck = false } }
    {
        plan.know();
        Sides {
            near: reset_all(plan.near()),
            far: reset_all(plan.far()),
            tck: false,
        }
    }

    /// The level that the chip gets for TDI.
    pub fn chip_tdi(&self, tdi: bool) -> bool
        ensures { result ≡ outgoing tdi self.now.far }
    {
        level_from(self.far.as_slice(), 0, tdi)
    }

    /// TDO of the whole chain, by the chip's.
    pub fn tdo(&self, chip_tdo: bool) -> bool
        ensures { result ≡ outgoing chip_tdo self.now.near }
    {
        level_from(self.near.as_slice(), 0, chip_tdo)
    }

    /// TCK, TMS and TDI take these levels, while the chip has this one on TDO.
    pub fn set_pins(&mut self, chip_tdo: bool, tck: bool, tms: bool, tdi: bool)
        ensures { self.new ≡ beside_pinned chip_tdo self.old.tck tck tms tdi self.old }
    {
        match (self.tck, tck) {
            (false, true) => {
                rise_all(self.near.as_mut_slice(), tms, chip_tdo);
                rise_all(self.far.as_mut_slice(), tms, tdi);
            }
            (true, false) => {
                fall_all(self.near.as_mut_slice());
                fall_all(self.far.as_mut_slice());
            }
            (false, false) | (true, true) => {}
        }
        self.tck = tck;
    }

    /// TRST takes this level.
    pub fn hold_reset(&mut self, on: bool)
        ensures { self.new ≡ beside_held on self.old }
    {
        hold_all(self.near.as_mut_slice(), on);
        hold_all(self.far.as_mut_slice(), on);
    }
}
