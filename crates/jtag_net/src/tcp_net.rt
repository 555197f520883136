//! Real connections: the trusted edge, which tells nothing of what crosses them, and says on standard error how they were opened.
ghost use Rattle.std.specs.Prelude.{◌≡◌, ◌≤◌, false, true, None, is_some, IfErr, OnOk, OnErr};
ghost use Rattle.std.specs.Io.KnownBytes.{Appends};
ghost use Rattle.debug_model.specs.Net.{CallCause, faults_after};
ghost use Rattle.jtag_net.specs.Stream.{AppendsFront, held};

use crate::stream::{read_some, tally, write_whole};
use crate::tcp_open::{accept_at, connect_to, join_ends};
use debug_model::{Call, End, Net, NetFault};
use jt_base::count_fault;
use std::alloc::Global;
use std::io::Write;
use std::marker::Model;
use std::net;
use std::time::Clock;

/// One TCP connection. Contracts see what opened it, which ends are open, and its counts.
#[derive(Drop)]
pub struct TcpNet<R: net::Net + Eprint + Clock + Drop> {
    runtime: R,
    near: Option<R::Stream>,
    far: Option<R::Stream>,
    opening: Option<Call>,
    near_given: u64,
    far_given: u64,
    failed: u64,
    ended: u64,
}

impl<R: net::Net + Eprint + Clock + Drop> Model for TcpNet<R> {
    ghost use Rattle.std.specs.Prelude.{is_some};
    ghost use Rattle.jtag_net.specs.Connection.{Connection};

    ghost Value = { Connection };

    ghost view = { λ n. record {
      opening = n.opening;
      near_open = is_some n.near;
      far_open = is_some n.far;
      near_given = n.near_given;
      far_given = n.far_given;
      faults = n.failed;
      ends = n.ended;
    } };
}

impl<R: net::Net + Eprint + Clock + Drop> TcpNet<R> {
    /// A connection that this runtime will open.
    pub fn new(runtime: R) -> Self
        ensures { result ≡ record { opening = None; near_open = false; far_open = false; near_given = 0; far_given = 0; faults = 0; ends = 0 } }
    {
        TcpNet {
            runtime,
            near: None,
            far: None,
            opening: None,
            near_given: 0,
            far_given: 0,
            failed: 0,
            ended: 0,
        }
    }
}

// Puts at one end. A fault is counted.
fn put_at<S: Write>(end: &mut Option<S>, failed: &mut u64, bytes: &[u8]) -> Result<(), NetFault>
    requires { is_some end.old ≡ true }
    ensures open { is_some end.new ≡ is_some end.old }
    ensures whole { OnOk result (Appends (held S.contents end.old) (held S.contents end.new) bytes.now) }
    ensures front { OnErr result (AppendsFront (held S.contents end.old) (held S.contents end.new) bytes.now) }
    ensures cause { IfErr result (CallCause failed.old failed.new) }
    ensures later { failed.old ≤ failed.new }
    ensures counts { failed.new ≡ faults_after result failed.old }
{
    if write_whole(end.as_mut().unwrap(), bytes).is_err() {
        count_fault(failed);
        return Err(NetFault::Failed);
    }
    Ok(())
}

impl<R: net::Net + Eprint + Clock + Drop> Net for TcpNet<R> {
    ghost use Rattle.std.specs.Prelude.{[]};
    ghost use Rattle.jtag_net.specs.Connection.{nobody, untold};

    ghost state = { λ n. untold n };

    ghost peer = { λ n. nobody };

    ghost fault_count = { λ n. n.faults };

    ghost end_count = { λ n. n.ends };

    ghost lenders = { λ n. [] };

    fn connect(&mut self, _alloc: Global, at: &str) -> Result<(), NetFault> {
        self.opening = Some(Call::Connect);
        match connect_to(&self.runtime, at) {
            Ok(stream) => {
                self.near = Some(stream);
                Ok(())
            }
            Err(_) => {
                count_fault(&mut self.failed);
                Err(NetFault::Failed)
            }
        }
    }

    fn accept(&mut self, _alloc: Global, at: &str) -> Result<(), NetFault> {
        self.opening = Some(Call::Accept);
        match accept_at(&self.runtime, at) {
            Ok(stream) => {
                self.near = Some(stream);
                Ok(())
            }
            Err(_) => {
                count_fault(&mut self.failed);
                Err(NetFault::Failed)
            }
        }
    }

    fn join(&mut self, _alloc: Global) -> Result<(), NetFault> {
        self.opening = Some(Call::Join);
        match join_ends(&self.runtime) {
            Ok((near, far)) => {
                self.near = Some(near);
                self.far = Some(far);
                Ok(())
            }
            Err(_) => {
                count_fault(&mut self.failed);
                Err(NetFault::Failed)
            }
        }
    }

    fn put(&mut self, end: End, bytes: &[u8]) -> Result<(), NetFault> {
        match end {
            End::Near => put_at(&mut self.near, &mut self.failed, bytes),
            End::Far => put_at(&mut self.far, &mut self.failed, bytes),
        }
    }

    fn take(&mut self, end: End, into: &mut [u8]) -> Result<usize, NetFault> {
        match end {
            End::Near => {
                let near = self.near.as_mut().unwrap();
                let count = read_some(near, &mut self.near_given, into);
                tally(&mut self.failed, &mut self.ended, count)
            }
            End::Far => {
                let far = self.far.as_mut().unwrap();
                let count = read_some(far, &mut self.far_given, into);
                tally(&mut self.failed, &mut self.ended, count)
            }
        }
    }

    fn faults(&self) -> u64 {
        self.failed
    }

    fn ends(&self) -> u64 {
        self.ended
    }
}
