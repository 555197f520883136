//! A chain on a bench that takes the bytes of a stream piece after piece, and its serving over a net.

ghost use Rattle.std.specs.Prelude.{◌≡◌, ◌∷◌, ◌≤◌, [], IsSome, false, true};
ghost use Rattle.debug_model.specs.Net.{is_open};
ghost use Rattle.debug_model.specs.declared.net.End.TheVariants as end;
ghost use Rattle.chain_scan.specs.Told.{ChainLive};
ghost use Rattle.chip_server.specs.Served.{CountsOnce, IsPlain};
ghost use Rattle.chain_bench.specs.Benched.{chain_on, tck_of};
ghost use Rattle.chain_bench.specs.ChainFed.{ChainEndsAsItsChip, ChainTakesPieces, WasServedIn, chain_feeding, planned_on};
ghost use Rattle.chain_bench.specs.ChainPieces.{chain_pieces};

use crate::sides::Sides;
use crate::taking::take_all;
use chain_scan::ChainPlan;
use chip_core::{Answers, Bench, Fed};
use chip_server::{Feed, Served, serve};
use debug_model::{Net, Schedule};

/// The chip on a bench, which the caller keeps, and the devices of a plan beside it, as one chain that takes the bytes of a stream.
///
/// `R` is answered by TDO of the device at the pin. What ends the chip ends the chain: `Q`, a byte that is no sign, and a rise of TCK at the chip's event
/// limit, which reaches none of the devices.
#[derive(Drop)]
pub struct ServedChain<'a, Q: Schedule> {
    bench: &'a mut Bench<Q>,
    sides: Sides,
    ghost loaded: { IsSome bench.now },
    ghost clock: { sides.tck ≡ tck_of bench.now },
}

impl<'a, Q: Schedule> ServedChain<'a, Q> {
    /// The chain of this bench, which is loaded, with the devices of this plan beside its chip, as a reset leaves them. TCK is 0, as behind a load.
    pub fn new(bench: &'a mut Bench<Q>, plan: &ChainPlan) -> Self
        requires loaded { IsSome bench.old }
        requires low { tck_of bench.old ≡ false }
        ensures same_reference { result.bench.ghost_name ≡ bench.entry.ghost_name }
        ensures bench { result.bench.now ≡ bench.old }
        ensures chain { chain_on result.bench.now result.sides ≡ planned_on plan.now bench.old }
    {
        ServedChain {
            bench,
            sides: Sides::new(plan),
        }
    }
}

impl<'a, Q: Schedule> Feed for ServedChain<'a, Q> {
    ghost State = { ChainLive };

    ghost state = { λ c. chain_on c.bench.now c.sides };

    ghost feeding = { chain_feeding };

    ghost lenders = { λ c. c.bench.ghost_name ∷ [] };

    fn feed(&mut self, bytes: &[u8], answers: &mut Answers) -> Fed {
        take_all(self.bench, &mut self.sides, bytes, answers)
    }

    ghost takes_pieces = { chain_pieces };
}

/// Serves the chip on the bench as one of a chain, with the devices of this plan beside it as a reset leaves them, to the peer at the near end of the net: as
/// `serve` of the crate `chip_server` serves the chip alone.
///
/// The bench is loaded, TCK is 0 there, as behind a load, the near end is open, and the net tells neither a chip nor a pipe.
pub fn serve_in_chain<N: Net, Q: Schedule>(
    net: &mut N,
    bench: &mut Bench<Q>,
    plan: &ChainPlan,
) -> Served
    requires opened { is_open end.Near (N.state net.old) ≡ true }
    requires plain { IsPlain (N.state net.old) }
    requires loaded { IsSome bench.old }
    requires low { tck_of bench.old ≡ false }
    ensures served { WasServedIn plan.now result (N.state net.old) (N.state net.new) bench.old bench.new }
    ensures counts { CountsOnce (N.fault_count net.old) (N.fault_count net.new) (N.end_count net.old) (N.end_count net.new) result }
    ensures later { N.fault_count net.old ≤ N.fault_count net.new }
    ensures lenders { N.lenders net.new ≡ N.lenders net.old }
{
    let mut chain = ServedChain::new(bench, plan);
    serve(net, &mut chain)
}

/// Pieces fed to a chain one after the other are the whole of them fed at once, with places counted on where the first piece was taken whole.
pub fn chain_takes_pieces()
    ensures { ChainTakesPieces }
{}

/// Bytes do to the chip of a chain what the same bytes with another TDI, that of its neighbour, do to the chip alone, and end both at one place.
pub fn chain_ends_as_its_chip()
    ensures { ChainEndsAsItsChip }
{}
