//! A net that ends at the chip on a bench.
ghost use Rattle.std.specs.Prelude.{
  ◌≡◌,
  ◌≢◌,
  ℕ,
  ◌+◌,
  ◌-◌,
  ◌<◌,
  ◌≤◌,
  ◌&&◌,
  ◌∷◌,
  ◌++◌,
  [],
  List,
  None,
  Some,
  true,
  false,
  drop,
  if◌then◌else◌,
  is_none,
  is_ok,
  length,
  min,
  nat_lt,
  not,
  take,
  IfErr,
  IfOk,
  IfSome,
  IsSome,
  OnErr,
  OnOk,
};
ghost use Rattle.rv_model.specs.Codes.{hart_code};
ghost use Rattle.rv_model.specs.Memory.{memory_code};
ghost use Rattle.std.proofs.Props.{props};
ghost use Rattle.std.specs.Coded.{codes};
ghost use Rattle.std.specs.Borrow.{GName};
ghost use Rattle.jt_base.specs.Faults.{Rises, count_after, counted};
ghost use Rattle.jt_base.specs.FileStore.{is_listed};
ghost use Rattle.debug_model.specs.Loaded.{AsLoaded};
ghost use Rattle.debug_model.specs.Net.{
  Called,
  CallCause,
  Gives,
  IsAccepted,
  IsConnected,
  IsJoined,
  LivesOn,
  MayPut,
  MayTake,
  OpenCause,
  PutFront,
  after_put,
  after_take,
  faults_after,
  given,
  given_most,
  is_open,
};
ghost use Rattle.debug_model.specs.Told.{IsAsLoaded};
ghost use Rattle.debug_model.specs.Wire.{piece_most};
ghost use Rattle.debug_model.specs.declared.net.Call.TheVariants as calls;
ghost use Rattle.chip_core.specs.Feeds.{feed_of, limit_met, said_of};
ghost use Rattle.bench_links.specs.Benched.{net_state, peer_of};
ghost use Rattle.bench_links.specs.Fresh.{IsFresh};

use arrayvec::ArrayVec;
use chip_core::{Answers, Bench, feed_pieces};
use debug_model::{Call, End, GIVEN_MOST, Net, NetFault, Schedule};
use jt_base::count_fault;
use std::alloc::Global;

/// The most calls of a [`BenchNet`] that can be made to fail.
pub const FAILING_MOST: usize = 8;

/// A net whose `connect` ends at the chip on a bench, which the caller keeps. It tells its chip, and takes no memory.
///
/// Its calls are numbered from 0. Those whose numbers are listed fail and do nothing, and so do `accept` and `join`. A put fails where the chip has met its
/// event limit, in the call or before, and a take where 2^40 bytes were given; nothing else fails. The count of faults rises by one at each call that fails.
#[derive(Drop)]
pub struct BenchNet<'a, Q: Schedule> {
    bench: &'a mut Bench<Q>,
    pub(crate) unread: Answers,
    piece: usize,
    fail_at: ArrayVec<u32, FAILING_MOST>,
    calls: u64,
    opening: Option<Call>,
    pub(crate) is_open: bool,
    given: u64,
    failed: u64,
    ghost some: { (1 ≤ piece) × (piece ≤ piece_most) },
    ghost loaded: { IsSome bench.now },
    ghost unopened: { is_none opening ≡ true → is_open ≡ false } by { Prim.hlevel props },
    ghost fresh: { is_none opening ≡ true → IsFresh bench.now unread.items } by { Prim.hlevel (props, codes, memory_code, hart_code) },
}

/// Counts a call, and tells whether it is one of those that are to fail.
fn begin(calls: &mut u64, fail_at: &[u32]) -> bool
    ensures listed { result ≡ is_listed calls.old fail_at.now }
    ensures one_more { calls.new ≡ counted calls.old }
{
    let call = *calls;
    count_fault(calls);
    fail_at.iter().any(|k| u64::from(*k) == call)
}

/// Counts a call that fails.
fn fail(failed: &mut u64) -> NetFault
    ensures fault { result ≡ NetFault.Failed }
    ensures one_more { failed.new ≡ counted failed.old }
    ensures later { failed.old ≤ failed.new }
    ensures rises { Rises failed.old failed.new }
{
    count_fault(failed);
    NetFault::Failed
}

impl<'a, Q: Schedule> BenchNet<'a, Q> {
    /// A net that ends at this bench, which is as it was loaded. Bytes are handed on in pieces of at most the given size, from 1 to 256. The calls whose
    /// numbers, from 0, are listed fail and do nothing.
    #[tactic(auto, using(crate::proofs::FreshChips::fresh))]
    pub fn new(bench: &'a mut Bench<Q>, piece: usize, fail_at: ArrayVec<u32, FAILING_MOST>) -> Self
        requires piece { (1 ≤ piece) × (piece ≤ piece_most) }
        requires loaded { IsSome bench.old }
        requires fresh { IfSome bench.old AsLoaded }
        ensures same_reference { result.bench.ghost_name ≡ bench.entry.ghost_name }
        ensures bench { result.bench.now ≡ bench.old }
        ensures unread { result.unread.items ≡ [] }
        ensures fail_at { result.fail_at.items ≡ fail_at.items }
        ensures calls { result.calls ≡ 0 }
        ensures unopened { result.opening ≡ None }
        ensures given { result.given ≡ 0 }
        ensures faults { result.failed ≡ 0 }
    {
        BenchNet {
            bench,
            unread: Answers::new(),
            piece,
            fail_at,
            calls: 0,
            opening: None,
            is_open: false,
            given: 0,
            failed: 0,
        }
    }

    /// That its bench is loaded is the promise of the type, which a contract knows of a net only once it is asked.
    pub fn know_loaded(&self)
        ensures { IsSome self.now.bench.now }
    {
        let _calls = self.calls;
    }
}

impl<'a, Q: Schedule> Net for BenchNet<'a, Q> {
    ghost state = { λ n. net_state n.opening n.is_open n.given n.bench.now n.unread.items };

    ghost peer = { λ n. peer_of n.bench.now };

    ghost fault_count = { λ n. n.failed };

    ghost end_count = { λ _. 0 };

    ghost lenders = { λ n. n.bench.ghost_name ∷ [] };

    #[tactic(auto, using(crate::proofs::FreshChips::loaded_still))]
    fn connect(&mut self, _alloc: Global, _at: &str) -> Result<(), NetFault>
        requires unopened { (net_state self.old.opening self.old.is_open self.old.given self.old.bench.now self.old.unread.items).ties.opening ≡ None }
        ensures called { Called calls.Connect (Some _at.now)
            (net_state self.old.opening self.old.is_open self.old.given self.old.bench.now self.old.unread.items).ties
            (net_state self.new.opening self.new.is_open self.new.given self.new.bench.now self.new.unread.items).ties }
        ensures opened { OnOk result (IsConnected (peer_of self.old.bench.now)
            (net_state self.new.opening self.new.is_open self.new.given self.new.bench.now self.new.unread.items)) }
        ensures loaded { OnOk result
            (IsAsLoaded (net_state self.new.opening self.new.is_open self.new.given self.new.bench.now self.new.unread.items).chip) }
        ensures cause { IfErr result (OpenCause self.old.failed self.new.failed) }
        ensures later { self.old.failed ≤ self.new.failed }
        ensures counts { self.new.failed ≡ faults_after result self.old.failed }
        ensures ends { ◌≡◌ {A = ℕ} 0 0 }
        ensures lenders { self.new.bench.ghost_name ∷ [] ≡ self.old.bench.ghost_name ∷ [] }
        ensures answer { is_ok result ≡ not (is_listed self.old.calls self.old.fail_at.items) }
        ensures calls { self.new.calls ≡ counted self.old.calls }
        ensures faults { self.new.failed ≡ count_after result self.old.failed }
        ensures listed { self.new.fail_at.items ≡ self.old.fail_at.items }
        ensures bench { self.new.bench.now ≡ self.old.bench.now }
    {
        self.opening = Some(Call::Connect);
        if begin(&mut self.calls, &self.fail_at) {
            return Err(fail(&mut self.failed));
        }
        self.is_open = true;
        Ok(())
    }

    fn accept(&mut self, _alloc: Global, _at: &str) -> Result<(), NetFault>
        ensures called { Called calls.Accept (Some _at.now)
            (net_state self.old.opening self.old.is_open self.old.given self.old.bench.now self.old.unread.items).ties
            (net_state self.new.opening self.new.is_open self.new.given self.new.bench.now self.new.unread.items).ties }
        ensures opened { OnOk result (IsAccepted (peer_of self.old.bench.now)
            (net_state self.new.opening self.new.is_open self.new.given self.new.bench.now self.new.unread.items)) }
        ensures cause { IfErr result (OpenCause self.old.failed self.new.failed) }
        ensures later { self.old.failed ≤ self.new.failed }
        ensures counts { self.new.failed ≡ faults_after result self.old.failed }
        ensures ends { ◌≡◌ {A = ℕ} 0 0 }
        ensures lenders { self.new.bench.ghost_name ∷ [] ≡ self.old.bench.ghost_name ∷ [] }
        ensures answer { is_ok result ≡ false }
        ensures calls { self.new.calls ≡ counted self.old.calls }
        ensures faults { self.new.failed ≡ count_after result self.old.failed }
        ensures listed { self.new.fail_at.items ≡ self.old.fail_at.items }
        ensures bench { self.new.bench.now ≡ self.old.bench.now }
    {
        self.opening = Some(Call::Accept);
        begin(&mut self.calls, &self.fail_at);
        Err(fail(&mut self.failed))
    }

    fn join(&mut self, _alloc: Global) -> Result<(), NetFault>
        ensures called { Called calls.Join None
            (net_state self.old.opening self.old.is_open self.old.given self.old.bench.now self.old.unread.items).ties
            (net_state self.new.opening self.new.is_open self.new.given self.new.bench.now self.new.unread.items).ties }
        ensures opened { OnOk result (IsJoined (net_state self.new.opening self.new.is_open self.new.given self.new.bench.now self.new.unread.items)) }
        ensures cause { IfErr result (OpenCause self.old.failed self.new.failed) }
        ensures later { self.old.failed ≤ self.new.failed }
        ensures counts { self.new.failed ≡ faults_after result self.old.failed }
        ensures ends { ◌≡◌ {A = ℕ} 0 0 }
        ensures lenders { self.new.bench.ghost_name ∷ [] ≡ self.old.bench.ghost_name ∷ [] }
        ensures answer { is_ok result ≡ false }
        ensures calls { self.new.calls ≡ counted self.old.calls }
        ensures faults { self.new.failed ≡ count_after result self.old.failed }
        ensures listed { self.new.fail_at.items ≡ self.old.fail_at.items }
        ensures bench { self.new.bench.now ≡ self.old.bench.now }
    {
        self.opening = Some(Call::Join);
        begin(&mut self.calls, &self.fail_at);
        Err(fail(&mut self.failed))
    }

    #[tactic(auto, using(crate::proofs::BenchPuts::nothing_put, crate::proofs::BenchPuts::all_put, crate::proofs::BenchPuts::lives_behind))]
    fn put(&mut self, _end: End, bytes: &[u8]) -> Result<(), NetFault>
        requires open { is_open _end (net_state self.old.opening self.old.is_open self.old.given self.old.bench.now self.old.unread.items) ≡ true }
        requires accepts { MayPut _end bytes.now (net_state self.old.opening self.old.is_open self.old.given self.old.bench.now self.old.unread.items) }
        ensures put { OnOk result (net_state self.new.opening self.new.is_open self.new.given self.new.bench.now self.new.unread.items
            ≡ after_put _end bytes.now
            (net_state self.old.opening self.old.is_open self.old.given self.old.bench.now self.old.unread.items)) }
        ensures live { OnOk result
            (LivesOn _end bytes.now (net_state self.new.opening self.new.is_open self.new.given self.new.bench.now self.new.unread.items)) }
        ensures front { OnErr result (PutFront _end bytes.now
            (net_state self.old.opening self.old.is_open self.old.given self.old.bench.now self.old.unread.items)
            (net_state self.new.opening self.new.is_open self.new.given self.new.bench.now self.new.unread.items)) }
        ensures cause { IfErr result (CallCause self.old.failed self.new.failed) }
        ensures later { self.old.failed ≤ self.new.failed }
        ensures counts { self.new.failed ≡ faults_after result self.old.failed }
        ensures ends { ◌≡◌ {A = ℕ} 0 0 }
        ensures lenders { self.new.bench.ghost_name ∷ [] ≡ self.old.bench.ghost_name ∷ [] }
        ensures answer { is_ok result ≡ (not (is_listed self.old.calls self.old.fail_at.items) && not (limit_met self.new.bench.now)) }
        ensures calls { self.new.calls ≡ counted self.old.calls }
        ensures faults { self.new.failed ≡ count_after result self.old.failed }
        ensures listed { self.new.fail_at.items ≡ self.old.fail_at.items }
        ensures bench { self.new.bench.now
            ≡ (if is_listed self.old.calls self.old.fail_at.items then self.old.bench.now else feed_of self.old.bench.now bytes.now) }
        ensures unread { self.new.unread.items
            ≡ (if is_listed self.old.calls self.old.fail_at.items then self.old.unread.items else self.old.unread.items
            ++ said_of self.old.bench.now bytes.now) }
    {
        if begin(&mut self.calls, &self.fail_at) {
            return Err(fail(&mut self.failed));
        }
        feed_pieces(self.bench, bytes, self.piece, &mut self.unread);
        if self.bench.at_limit() {
            return Err(fail(&mut self.failed));
        }
        Ok(())
    }

    fn take(&mut self, _end: End, into: &mut [u8]) -> Result<usize, NetFault>
        requires open { is_open _end (net_state self.old.opening self.old.is_open self.old.given self.old.bench.now self.old.unread.items) ≡ true }
        requires room { 0 < length into.old }
        requires unread { MayTake _end (net_state self.old.opening self.old.is_open self.old.given self.old.bench.now self.old.unread.items) }
        ensures most { IfOk result (λ n. n ≤ length into.new) }
        ensures gave { IfOk result
            (λ n. Gives _end n into.new (net_state self.old.opening self.old.is_open self.old.given self.old.bench.now self.old.unread.items)) }
        ensures took { IfOk result (λ n. net_state self.new.opening self.new.is_open self.new.given self.new.bench.now self.new.unread.items
            ≡ after_take _end n (net_state self.old.opening self.old.is_open self.old.given self.old.bench.now self.old.unread.items)) }
        ensures spent { OnOk result
            (given _end (net_state self.old.opening self.old.is_open self.old.given self.old.bench.now self.old.unread.items) < given_most) }
        ensures bound { IfOk result
            (λ n. given _end (net_state self.old.opening self.old.is_open self.old.given self.old.bench.now self.old.unread.items) + n
            ≤ given_most) }
        ensures kept { OnErr result (net_state self.new.opening self.new.is_open self.new.given self.new.bench.now self.new.unread.items
            ≡ net_state self.old.opening self.old.is_open self.old.given self.old.bench.now self.old.unread.items) }
        ensures cause { IfErr result (CallCause self.old.failed self.new.failed) }
        ensures later { self.old.failed ≤ self.new.failed }
        ensures counts { self.new.failed ≡ faults_after result self.old.failed }
        ensures ended { IfOk result (λ n. n ≡ 0 → Rises 0 0) }
        ensures one_end { IfOk result (λ n. n ≡ 0 → 0 ≡ counted 0) }
        ensures goes_on { IfOk result (λ n. n ≢ 0 → ◌≡◌ {A = ℕ} 0 0) }
        ensures ends { OnErr result (◌≡◌ {A = ℕ} 0 0) }
        ensures ends_later { 0 ≤ 0 }
        ensures lenders { self.new.bench.ghost_name ∷ [] ≡ self.old.bench.ghost_name ∷ [] }
        ensures answer { is_ok result ≡ (not (is_listed self.old.calls self.old.fail_at.items) && nat_lt self.old.given given_most) }
        ensures count { IfOk result (λ n. n ≡ min (length into.old) (min (length self.old.unread.items) (given_most - self.old.given))) }
        ensures calls { self.new.calls ≡ counted self.old.calls }
        ensures faults { self.new.failed ≡ count_after result self.old.failed }
        ensures listed { self.new.fail_at.items ≡ self.old.fail_at.items }
        ensures bench { self.new.bench.now ≡ self.old.bench.now }
    {
        if begin(&mut self.calls, &self.fail_at) || self.given >= GIVEN_MOST {
            return Err(fail(&mut self.failed));
        }
        let most = self.unread.len().min((GIVEN_MOST - self.given) as usize);
        let count = into.len().min(most);
        into[..count].copy_from_slice(&self.unread.as_slice()[..count]);
        self.unread.drain(..count);
        self.given += count as u64;
        Ok(count)
    }

    fn faults(&self) -> u64 {
        self.failed
    }

    fn ends(&self) -> u64 {
        0
    }
}
