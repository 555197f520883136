//! A sink in memory, for tests.
ghost use Rattle.std.specs.Prelude.{◌≡◌, List, [], Some, is_ok, OnOk, OnErr, IfOk};
ghost use Rattle.std.specs.Borrow.{GName};
ghost use Rattle.jt_base.specs.Faults.{HasCause, count_after};
ghost use Rattle.jt_base.specs.Sink.{grown, GrewByPrefix};
ghost use Rattle.jt_base.specs.ByteStore.{takes_all, after_put};

use crate::faults::{count_fault, is_listed};
use crate::sink::{Sink, SinkFault};
use std::alloc::{AllocError, Global};
use std::marker::Model;

/// A sink in memory, which tells everything: its room, the bytes that it took, and which calls fail.
#[derive(Drop)]
pub struct MemorySink {
    bytes: Vec<u8>,
    room: usize,
    fail_at: Vec<u32>,
    calls: u64,
    failed: u64,
}

impl Model for MemorySink {
    ghost use Rattle.std.specs.Prelude.{◌≤◌, vec_len, vec_capacity};
    ghost use Rattle.jt_base.specs.ByteStore.{ByteStore};

    ghost Value = { ByteStore };

    ghost view = { λ s. record { room = s.room; fail_at = s.fail_at.items; contents = s.bytes.items; calls = s.calls; faults = s.failed } };

    ghost invariant = { λ s. (vec_len s.bytes ≤ s.room) × (s.room ≤ vec_capacity s.bytes) };
}

impl MemorySink {
    /// An empty sink for `room` bytes, whose memory is taken here and not at a put. The calls whose numbers, from 0,
    /// are listed fail and take nothing.
    pub fn new(alloc: Global, room: usize, fail_at: Vec<u32>) -> Result<Self, AllocError>
        ensures { IfOk result (λ s. s ≡ record { room = room; fail_at = fail_at.items; contents = []; calls = 0; faults = 0 }) }
    {
        let bytes = Vec::with_capacity(alloc, room)?;
        Ok(MemorySink {
            bytes,
            room,
            fail_at,
            calls: 0,
            failed: 0,
        })
    }

    /// The bytes that were taken.
    pub fn bytes(&self) -> &[u8]
        ensures { result.now ≡ self.now.contents }
    {
        &self.bytes
    }
}

impl Sink for MemorySink {
    ghost contents = { λ s. Some s.contents };

    ghost fault_count = { λ s. s.faults };

    ghost lenders = { λ s. [] };

    fn put(&mut self, bytes: &[u8]) -> Result<(), SinkFault>
        ensures put { OnOk result (Some self.new.contents ≡ grown bytes.now (Some self.old.contents)) }
        ensures front { OnErr result (GrewByPrefix bytes.now (Some self.old.contents) (Some self.new.contents)) }
        ensures cause { HasCause self.old.faults self.new.faults result }
        ensures count { self.new.faults ≡ count_after result self.old.faults }
        ensures lenders { ◌≡◌ {A = List GName} [] [] }
        ensures answer { is_ok result ≡ takes_all bytes.now self.old }
        ensures state { self.new ≡ after_put bytes.now self.old }
    {
        let listed = is_listed(&self.fail_at, self.calls);
        count_fault(&mut self.calls);
        if listed {
            count_fault(&mut self.failed);
            return Err(SinkFault::Failed);
        }
        let left = self.room - self.bytes.len();
        if bytes.len() > left {
            self.bytes.extend_from_slice(&bytes[..left]).unwrap();
            count_fault(&mut self.failed);
            return Err(SinkFault::Failed);
        }
        self.bytes.extend_from_slice(bytes).unwrap();
        Ok(())
    }

    fn faults(&self) -> u64 {
        self.failed
    }
}
