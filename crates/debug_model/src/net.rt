ghost use Rattle.std.specs.Prelude.{◌≡◌, ◌≢◌, ◌+◌, ◌<◌, ◌≤◌, ◌∷◌, ℕ, List, None, Some, length, true, OnOk, OnErr, IfOk, IfErr};
ghost use Rattle.std.specs.Borrow.{GName};
ghost use Rattle.debug_model.specs.Net.{LivesOn, Called, CallCause, Gives, IsAccepted, IsConnected, IsJoined, MayPut, MayTake, NetState, OpenCause, Peer};
ghost use Rattle.debug_model.specs.Net.{PutFront, after_put, after_take, faults_after, given, given_most, is_open};
ghost use Rattle.debug_model.specs.Told.{IsAsLoaded};
ghost use Rattle.debug_model.specs.declared.net.Call.TheVariants as call;
ghost use Rattle.jt_base.specs.Faults.{Rises, counted};

use std::alloc::Global;
use thiserror::Error;

/// The most bytes that one end of a net gives.
pub const GIVEN_MOST: u64 = 1 << 40;

/// An end of a net.
#[derive(Clone, Copy, Debug, PartialEq, Eq)]
pub enum End {
    /// The end that every opening opens.
    Near,
    /// The other end of a connection to itself.
    Far,
}

/// The call that opens a net.
#[derive(Clone, Copy, Debug, PartialEq, Eq)]
pub enum Call {
    /// [`Net::connect`].
    Connect,
    /// [`Net::accept`].
    Accept,
    /// [`Net::join`].
    Join,
}

/// Why a call of a net failed.
#[derive(Clone, Copy, Debug, PartialEq, Eq, Error)]
pub enum NetFault {
    /// The net failed, and the count of faults rose.
    #[error("the net failed")]
    Failed,
    /// There was no memory to open it.
    #[error("out of memory")]
    NoMemory,
}

/// One connection of bytes, which one of three calls opens, once.
///
/// Behind `connect` it may tell the chip at its far side, and behind `join` the pipe from each end to the other. A
/// scripted one tells the bytes that are to come. Where it tells nothing, only its counts are known.
pub trait Net: Drop {
    /// What the net tells of itself.
    ghost state: { Self → NetState };

    /// Who answers once it is open, where that is told before.
    ghost peer: { Self → Peer };

    /// How many calls have failed.
    ghost fault_count: { Self → ℕ };

    /// How many takes have found the other side ended.
    ghost end_count: { Self → ℕ };

    /// The references that the net borrows through.
    ghost lenders: { Self → List GName };

    /// Opens the near end to this address. Each net is opened by one call alone. A chip that is told there is as it was loaded.
    fn connect(&mut self, alloc: Global, at: &str) -> Result<(), NetFault>
        requires { (state self.old).ties.opening ≡ None }
        ensures called { Called call.Connect (Some at.now) (state self.old).ties (state self.new).ties }
        ensures opened { OnOk result (IsConnected (peer self.old) (state self.new)) }
        ensures loaded { OnOk result (IsAsLoaded (state self.new).chip) }
        ensures cause { IfErr result (OpenCause (fault_count self.old) (fault_count self.new)) }
        ensures later { fault_count self.old ≤ fault_count self.new }
        ensures counts { fault_count self.new ≡ faults_after result (fault_count self.old) }
        ensures ends { end_count self.new ≡ end_count self.old }
        ensures lenders { lenders self.new ≡ lenders self.old };

    /// Listens at this address, and opens the near end to the first client. Each net is opened by one call alone.
    fn accept(&mut self, alloc: Global, at: &str) -> Result<(), NetFault>
        requires { (state self.old).ties.opening ≡ None }
        ensures called { Called call.Accept (Some at.now) (state self.old).ties (state self.new).ties }
        ensures opened { OnOk result (IsAccepted (peer self.old) (state self.new)) }
        ensures cause { IfErr result (OpenCause (fault_count self.old) (fault_count self.new)) }
        ensures later { fault_count self.old ≤ fault_count self.new }
        ensures counts { fault_count self.new ≡ faults_after result (fault_count self.old) }
        ensures ends { end_count self.new ≡ end_count self.old }
        ensures lenders { lenders self.new ≡ lenders self.old };

    /// Opens both ends of a connection to itself. Each net is opened by one call alone.
    fn join(&mut self, alloc: Global) -> Result<(), NetFault>
        requires { (state self.old).ties.opening ≡ None }
        ensures called { Called call.Join None (state self.old).ties (state self.new).ties }
        ensures opened { OnOk result (IsJoined (state self.new)) }
        ensures cause { IfErr result (OpenCause (fault_count self.old) (fault_count self.new)) }
        ensures later { fault_count self.old ≤ fault_count self.new }
        ensures counts { fault_count self.new ≡ faults_after result (fault_count self.old) }
        ensures ends { end_count self.new ≡ end_count self.old }
        ensures lenders { lenders self.new ≡ lenders self.old };

    /// Puts all of the bytes at an open end, or fails and has put a front of them.
    fn put(&mut self, end: End, bytes: &[u8]) -> Result<(), NetFault>
        requires open { is_open end (state self.old) ≡ true }
        requires accepts { MayPut end bytes.now (state self.old) }
        ensures put { OnOk result (state self.new ≡ after_put end bytes.now (state self.old)) }
        ensures live { OnOk result (LivesOn end bytes.now (state self.new)) }
        ensures front { OnErr result (PutFront end bytes.now (state self.old) (state self.new)) }
        ensures cause { IfErr result (CallCause (fault_count self.old) (fault_count self.new)) }
        ensures later { fault_count self.old ≤ fault_count self.new }
        ensures counts { fault_count self.new ≡ faults_after result (fault_count self.old) }
        ensures ends { end_count self.new ≡ end_count self.old }
        ensures lenders { lenders self.new ≡ lenders self.old };

    /// Takes the next bytes at an open end, from 1 to as many as `into` holds, and answers how many. It is 0 where the
    /// other side has ended. An end that has given [`GIVEN_MOST`] bytes gives no more. A fault takes nothing.
    fn take(&mut self, end: End, into: &mut [u8]) -> Result<usize, NetFault>
        requires open { is_open end (state self.old) ≡ true }
        requires room { 0 < length into.old }
        requires unread { MayTake end (state self.old) }
        ensures most { IfOk result (λ n. n ≤ length into.new) }
        ensures gave { IfOk result (λ n. Gives end n into.new (state self.old)) }
        ensures took { IfOk result (λ n. state self.new ≡ after_take end n (state self.old)) }
        ensures spent { OnOk result (given end (state self.old) < given_most) }
        ensures bound { IfOk result (λ n. given end (state self.old) + n ≤ given_most) }
        ensures kept { OnErr result (state self.new ≡ state self.old) }
        ensures cause { IfErr result (CallCause (fault_count self.old) (fault_count self.new)) }
        ensures later { fault_count self.old ≤ fault_count self.new }
        ensures counts { fault_count self.new ≡ faults_after result (fault_count self.old) }
        ensures ended { IfOk result (λ n. n ≡ 0 → Rises (end_count self.old) (end_count self.new)) }
        ensures one_end { IfOk result (λ n. n ≡ 0 → end_count self.new ≡ counted (end_count self.old)) }
        ensures goes_on { IfOk result (λ n. n ≢ 0 → end_count self.new ≡ end_count self.old) }
        ensures ends { OnErr result (end_count self.new ≡ end_count self.old) }
        ensures ends_later { end_count self.old ≤ end_count self.new }
        ensures lenders { lenders self.new ≡ lenders self.old };

    /// How many calls have failed. The count stays at the top of a `u64`.
    fn faults(&self) -> u64
        ensures { result ≡ fault_count self.now };

    /// How many takes have found the other side ended. The count stays at the top of a `u64`.
    fn ends(&self) -> u64
        ensures { result ≡ end_count self.now };
}

impl<N: Net> Net for &mut N {
    ghost state = { λ n. N.state n.now };

    ghost peer = { λ n. N.peer n.now };

    ghost fault_count = { λ n. N.fault_count n.now };

    ghost end_count = { λ n. N.end_count n.now };

    ghost lenders = { λ n. n.ghost_name ∷ N.lenders n.now };

    fn connect(&mut self, alloc: Global, at: &str) -> Result<(), NetFault> {
        (**self).connect(alloc, at)
    }

    fn accept(&mut self, alloc: Global, at: &str) -> Result<(), NetFault> {
        (**self).accept(alloc, at)
    }

    fn join(&mut self, alloc: Global) -> Result<(), NetFault> {
        (**self).join(alloc)
    }

    fn put(&mut self, end: End, bytes: &[u8]) -> Result<(), NetFault> {
        (**self).put(end, bytes)
    }

    fn take(&mut self, end: End, into: &mut [u8]) -> Result<usize, NetFault> {
        (**self).take(end, into)
    }

    fn faults(&self) -> u64 {
        (**self).faults()
    }

    fn ends(&self) -> u64 {
        (**self).ends()
    }
}
