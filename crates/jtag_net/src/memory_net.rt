//! Nets in memory, for tests.
ghost use Rattle.std.specs.Prelude.{
  ◌≡◌,
  ◌+◌,
  ◌-◌,
  ◌<◌,
  ◌≤◌,
  ◌++◌,
  [],
  List,
  None,
  Some,
  Option,
  take,
  drop,
  length,
  min,
  nat_le,
  false,
  true,
  vec_len,
  vec_capacity,
  IfOk,
  IfErr,
  OnOk,
  OnErr,
  IfSome,
  IfNone,
  OnSome,
};
ghost use Rattle.jt_base.specs.FileStore.{is_listed};
ghost use Rattle.jt_base.specs.Faults.{Rises, counted};
ghost use Rattle.debug_model.specs.Net.{given_most};

use crate::stream::tally;
use debug_model::{Call, End, GIVEN_MOST, Net, NetFault};
use jt_base::count_fault;
use std::alloc::{AllocError, Global};
use std::marker::Model;

/// A net in memory, which tells everything: the bytes to come, all that was put, and which calls fail.
#[derive(Drop)]
pub struct MemoryNet {
    coming: Vec<u8>,
    put: Vec<u8>,
    piece: usize,
    room: usize,
    fail_at: Vec<u32>,
    calls: u64,
    opening: Option<Call>,
    address: Option<String>,
    near_open: bool,
    far_open: bool,
    near_given: u64,
    far_given: u64,
    failed: u64,
    ended: u64,
}

impl Model for MemoryNet {
    ghost use Rattle.std.specs.Prelude.{◌<◌, ◌≤◌, option_map, string_bytes, vec_capacity};
    ghost use Rattle.jtag_net.specs.Store.{Store};

    ghost Value = { Store };

    ghost view = { λ n. record {
      coming = n.coming.items;
      put = n.put.items;
      piece = n.piece;
      room = n.room;
      fail_at = n.fail_at.items;
      calls = n.calls;
      opening = n.opening;
      address = option_map string_bytes n.address;
      near_open = n.near_open;
      far_open = n.far_open;
      near_given = n.near_given;
      far_given = n.far_given;
      faults = n.failed;
      ends = n.ended;
    } };

    ghost invariant = { λ n. (0 < n.piece) × (n.room ≤ vec_capacity n.coming) × (n.room ≤ vec_capacity n.put) };
}

// Whether the call of this number, from 0, is one of those that are to fail.
fn is_listed(fail_at: &[u32], call: u64) -> bool
    ensures { result ≡ is_listed call fail_at.now }
{
    fail_at.iter().any(|k| u64::from(*k) == call)
}

// Keeps of these bytes what fits into the room, and tells whether it is all of them.
fn keep(kept: &mut Vec<u8>, room: usize, bytes: &[u8]) -> bool
    requires { room ≤ vec_capacity kept.old }
    ensures fits { result ≡ nat_le (length bytes.now) (room - length kept.old.items) }
    ensures kept { kept.new.items ≡ kept.old.items ++ take (room - length kept.old.items) bytes.now }
    ensures capacity { vec_capacity kept.old ≤ vec_capacity kept.new }
{
    let left = room.saturating_sub(kept.len());
    if bytes.len() > left {
        if left > 0 {
            kept.extend_from_slice(&bytes[..left]).unwrap();
        }
        return false;
    }
    if !bytes.is_empty() {
        kept.extend_from_slice(bytes).unwrap();
    }
    true
}

// Moves the next bytes into `into`, at most `piece`, and answers how many. None where as many came as one end gives.
fn give(coming: &mut Vec<u8>, piece: usize, given: &mut u64, into: &mut [u8]) -> Option<usize>
    ensures spent { OnSome result (given.old < given_most) }
    ensures none { IfNone result (given_most ≤ given.old) }
    ensures count { IfSome result (λ n. n ≡ min (min piece (given_most - given.old)) (min (length into.old) (length coming.old.items))) }
    ensures gave { IfSome result (λ n. take n coming.old.items ≡ take n into.new) }
    ensures left { IfSome result (λ n. coming.new.items ≡ drop n coming.old.items) }
    ensures given { IfSome result (λ n. given.new ≡ given.old + n) }
    ensures kept { IfNone result (coming.new.items ≡ coming.old.items) }
    ensures given_kept { IfNone result (given.new ≡ given.old) }
    ensures capacity { vec_capacity coming.new ≡ vec_capacity coming.old }
{
    if *given >= GIVEN_MOST {
        return None;
    }
    let most = piece.min((GIVEN_MOST - *given) as usize);
    let count = most.min(into.len().min(coming.len()));
    into[..count].copy_from_slice(&coming[..count]);
    coming.drain(..count);
    *given += count as u64;
    Some(count)
}

impl MemoryNet {
    ghost use Rattle.std.specs.Prelude.{not};
    ghost use Rattle.jtag_net.specs.Store.{
      called,
      count_at,
      failed,
      fails_here,
      given,
      kept_at,
      left_at,
      new_store,
      opened_both,
      opened_near,
      started,
      taken_at,
      unread,
    };

    /// A net that gives this input, in pieces of at most `piece` bytes, which is at least 1, and keeps what is put up to
    /// `room` bytes, whose memory is taken here. The calls whose numbers, from 0, are listed fail and do nothing.
    pub fn new(
        alloc: Global,
        input: Vec<u8>,
        piece: usize,
        room: usize,
        fail_at: Vec<u32>,
    ) -> Result<Self, AllocError>
        requires { 0 < piece }
        ensures { IfOk result (λ n. n ≡ new_store input.items piece room fail_at.items) }
    {
        let mut coming = input;
        coming.reserve(room)?;
        let put = Vec::with_capacity(alloc, room)?;
        Ok(MemoryNet {
            coming,
            put,
            piece,
            room,
            fail_at,
            calls: 0,
            opening: None,
            address: None,
            near_open: false,
            far_open: false,
            near_given: 0,
            far_given: 0,
            failed: 0,
            ended: 0,
        })
    }

    /// What was put at the near end: all of it, or behind `join` what of it is unread at the far end.
    pub fn sent(&self) -> &[u8]
        ensures { result.now ≡ self.now.put }
    {
        &self.put
    }

    // Counts a call, and tells whether it is to fail.
    fn begin(&mut self) -> bool
        ensures listed { result ≡ fails_here self.old }
        ensures store { self.new ≡ called self.old }
    {
        let listed = is_listed(&self.fail_at, self.calls);
        count_fault(&mut self.calls);
        listed
    }

    fn fail(&mut self) -> NetFault
        ensures fault { result ≡ NetFault.Failed }
        ensures store { self.new ≡ failed self.old }
        ensures later { self.old.faults ≤ self.new.faults }
        ensures rises { Rises self.old.faults self.new.faults }
    {
        count_fault(&mut self.failed);
        NetFault::Failed
    }

    // Begins a call that opens, and tells whether it is to fail. Its address is untold until it is kept.
    fn start(&mut self, call: Call) -> bool
        ensures listed { result ≡ fails_here self.old }
        ensures store { self.new ≡ started call self.old }
    {
        self.opening = Some(call);
        self.address = None;
        self.begin()
    }

    fn keep_address(&mut self, alloc: Global, at: &str) -> Result<(), NetFault>
        ensures kept { OnOk result (self.new ≡ record self.old { address = Some at.now }) }
        ensures unchanged { OnErr result (self.new ≡ self.old) }
        ensures memory { IfErr result (λ fault. fault ≡ NetFault.NoMemory) }
    {
        match String::from_str(alloc, at) {
            Ok(address) => {
                self.address = Some(address);
                Ok(())
            }
            Err(_) => Err(NetFault::NoMemory),
        }
    }

    fn open_near(&mut self)
        ensures { self.new ≡ opened_near self.old }
    {
        self.put.clear();
        self.near_open = true;
        self.far_open = false;
    }

    fn open_both(&mut self)
        ensures { self.new ≡ opened_both self.old }
    {
        self.coming.clear();
        self.put.clear();
        self.near_open = true;
        self.far_open = true;
    }

    // Keeps of these bytes what fits, and tells whether it is all of them.
    fn keep_at(&mut self, end: End, bytes: &[u8]) -> bool
        ensures fits { result ≡ nat_le (length bytes.now) (left_at end self.old) }
        ensures store { self.new ≡ kept_at end (take (left_at end self.old) bytes.now) self.old }
    {
        match end {
            End::Near => keep(&mut self.put, self.room, bytes),
            End::Far => keep(&mut self.coming, self.room, bytes),
        }
    }

    // Gives what comes next, and answers how many bytes. None where as many came as one end gives.
    fn give_at(&mut self, end: End, into: &mut [u8]) -> Option<usize>
        ensures spent { OnSome result (given end self.old < given_most) }
        ensures none { IfNone result (given_most ≤ given end self.old) }
        ensures count { IfSome result (λ n. n ≡ count_at end (length into.old) self.old) }
        ensures gave { IfSome result (λ n. take n (unread end self.old) ≡ take n into.new) }
        ensures store { IfSome result (λ n. self.new ≡ taken_at end n self.old) }
        ensures kept { IfNone result (self.new ≡ self.old) }
    {
        match end {
            End::Near => give(&mut self.coming, self.piece, &mut self.near_given, into),
            End::Far => give(&mut self.put, self.piece, &mut self.far_given, into),
        }
    }
}

impl Net for MemoryNet {
    ghost use Rattle.std.specs.Prelude.{◌≢◌, is_ok};
    ghost use Rattle.std.specs.Borrow.{GName};
    ghost use Rattle.debug_model.specs.Net.{
      Called,
      CallCause,
      Gives,
      IsAccepted,
      IsConnected,
      IsJoined,
      MayPut,
      MayTake,
      OpenCause,
      PutFront,
      is_open,
      after_put as net_after_put,
      after_take,
      faults_after,
    };
    ghost use Rattle.debug_model.specs.declared.net.Call.TheVariants as calls;
    ghost use Rattle.jtag_net.specs.Store.{
      Opens,
      Refused,
      after_put,
      called,
      count_at,
      counted_end,
      failed,
      fails_here,
      given,
      gives_any,
      opened_both,
      opened_near,
      peer_of,
      refused_at,
      started,
      state_of,
      taken_at,
      takes_all,
    };

    ghost state = { λ n. state_of n };

    ghost peer = { λ n. peer_of n };

    ghost fault_count = { λ n. n.faults };

    ghost end_count = { λ n. n.ends };

    ghost lenders = { λ n. [] };

    fn connect(&mut self, alloc: Global, at: &str) -> Result<(), NetFault>
        ensures called { Called calls.Connect (Some at.now) (state_of self.old).ties (state_of self.new).ties }
        ensures opened { OnOk result (IsConnected (peer_of self.old) (state_of self.new)) }
        ensures cause { IfErr result (OpenCause self.old.faults self.new.faults) }
        ensures later { self.old.faults ≤ self.new.faults }
        ensures counts { self.new.faults ≡ faults_after result self.old.faults }
        ensures ends { self.new.ends ≡ self.old.ends }
        ensures lenders { ◌≡◌ {A = List GName} [] [] }
        ensures answer { Opens (fails_here self.old) result }
        ensures kept { OnOk result (self.new ≡ opened_near (record (started calls.Connect self.old) { address = Some at.now })) }
        ensures refused { IfErr result (λ fault. Refused fault self.new (refused_at (Some at.now) calls.Connect self.old)) }
    {
        let listed = self.start(Call::Connect);
        self.keep_address(alloc, at)?;
        if listed {
            return Err(self.fail());
        }
        self.open_near();
        Ok(())
    }

    fn accept(&mut self, alloc: Global, at: &str) -> Result<(), NetFault>
        ensures called { Called calls.Accept (Some at.now) (state_of self.old).ties (state_of self.new).ties }
        ensures opened { OnOk result (IsAccepted (peer_of self.old) (state_of self.new)) }
        ensures cause { IfErr result (OpenCause self.old.faults self.new.faults) }
        ensures later { self.old.faults ≤ self.new.faults }
        ensures counts { self.new.faults ≡ faults_after result self.old.faults }
        ensures ends { self.new.ends ≡ self.old.ends }
        ensures lenders { ◌≡◌ {A = List GName} [] [] }
        ensures answer { Opens (fails_here self.old) result }
        ensures kept { OnOk result (self.new ≡ opened_near (record (started calls.Accept self.old) { address = Some at.now })) }
        ensures refused { IfErr result (λ fault. Refused fault self.new (refused_at (Some at.now) calls.Accept self.old)) }
    {
        let listed = self.start(Call::Accept);
        self.keep_address(alloc, at)?;
        if listed {
            return Err(self.fail());
        }
        self.open_near();
        Ok(())
    }

    fn join(&mut self, _alloc: Global) -> Result<(), NetFault>
        ensures called { Called calls.Join None (state_of self.old).ties (state_of self.new).ties }
        ensures opened { OnOk result (IsJoined (state_of self.new)) }
        ensures cause { IfErr result (OpenCause self.old.faults self.new.faults) }
        ensures later { self.old.faults ≤ self.new.faults }
        ensures counts { self.new.faults ≡ faults_after result self.old.faults }
        ensures ends { self.new.ends ≡ self.old.ends }
        ensures lenders { ◌≡◌ {A = List GName} [] [] }
        ensures answer { Opens (fails_here self.old) result }
        ensures kept { OnOk result (self.new ≡ opened_both (record (started calls.Join self.old) { address = None })) }
        ensures refused { IfErr result (λ fault. Refused fault self.new (refused_at None calls.Join self.old)) }
    {
        if self.start(Call::Join) {
            return Err(self.fail());
        }
        self.open_both();
        Ok(())
    }

    fn put(&mut self, end: End, bytes: &[u8]) -> Result<(), NetFault>
        requires open { is_open end (state_of self.old) ≡ true }
        requires accepts { MayPut end bytes.now (state_of self.old) }
        ensures put { OnOk result (state_of self.new ≡ net_after_put end bytes.now (state_of self.old)) }
        ensures front { OnErr result (PutFront end bytes.now (state_of self.old) (state_of self.new)) }
        ensures cause { IfErr result (CallCause self.old.faults self.new.faults) }
        ensures later { self.old.faults ≤ self.new.faults }
        ensures counts { self.new.faults ≡ faults_after result self.old.faults }
        ensures ends { self.new.ends ≡ self.old.ends }
        ensures lenders { ◌≡◌ {A = List GName} [] [] }
        ensures answer { is_ok result ≡ takes_all end bytes.now self.old }
        ensures store { self.new ≡ after_put end bytes.now self.old }
    {
        if self.begin() {
            return Err(self.fail());
        }
        if !self.keep_at(end, bytes) {
            return Err(self.fail());
        }
        Ok(())
    }

    fn take(&mut self, end: End, into: &mut [u8]) -> Result<usize, NetFault>
        requires open { is_open end (state_of self.old) ≡ true }
        requires room { 0 < length into.old }
        requires unread { MayTake end (state_of self.old) }
        ensures most { IfOk result (λ n. n ≤ length into.new) }
        ensures gave { IfOk result (λ n. Gives end n into.new (state_of self.old)) }
        ensures took { IfOk result (λ n. state_of self.new ≡ after_take end n (state_of self.old)) }
        ensures spent { OnOk result (given end self.old < given_most) }
        ensures bound { IfOk result (λ n. given end self.old + n ≤ given_most) }
        ensures kept { OnErr result (state_of self.new ≡ state_of self.old) }
        ensures cause { IfErr result (CallCause self.old.faults self.new.faults) }
        ensures later { self.old.faults ≤ self.new.faults }
        ensures counts { self.new.faults ≡ faults_after result self.old.faults }
        ensures ended { IfOk result (λ n. n ≡ 0 → Rises self.old.ends self.new.ends) }
        ensures one_end { IfOk result (λ n. n ≡ 0 → self.new.ends ≡ counted self.old.ends) }
        ensures goes_on { IfOk result (λ n. n ≢ 0 → self.new.ends ≡ self.old.ends) }
        ensures ends { OnErr result (self.new.ends ≡ self.old.ends) }
        ensures ends_later { self.old.ends ≤ self.new.ends }
        ensures lenders { ◌≡◌ {A = List GName} [] [] }
        ensures answer { is_ok result ≡ gives_any end self.old }
        ensures count { IfOk result (λ n. n ≡ count_at end (length into.old) self.old) }
        ensures store { IfOk result (λ n. self.new ≡ counted_end n (taken_at end n (called self.old))) }
        ensures failed { OnErr result (self.new ≡ failed (called self.old)) }
    {
        if self.begin() {
            return Err(self.fail());
        }
        let count = self.give_at(end, into);
        tally(&mut self.failed, &mut self.ended, count)
    }

    fn faults(&self) -> u64 {
        self.failed
    }

    fn ends(&self) -> u64 {
        self.ended
    }
}
