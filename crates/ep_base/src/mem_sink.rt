//! A sink in memory, for tests and for whoever wants the bytes themselves.

ghost use Rattle.std.specs.Prelude.{◌≡◌, ◌<◌, ◌≤◌, ◌^◌, ◌↔◌, ◌++◌, [], length, take, min, IsTrue, IfOk, OnErr, IsErrOf};
ghost use Rattle.ep_base.specs.Calls.{next_fails, after_call, no_call};

use crate::calls::Calls;
use crate::{PutError, Sink};
use std::alloc::Global;
use std::marker::Model;

/// Takes at most a given number of bytes in one put, keeps them, and fails in chosen puts.
#[derive(Drop)]
pub struct MemSink {
    taken: Vec<u8>,
    most: usize,
    calls: Calls,
}

impl Model for MemSink {
    ghost use Rattle.std.specs.Prelude.{◌≤◌};
    ghost use Rattle.ep_base.specs.MemoryDevices.{SinkInMemory, sink_code};

    ghost Value = { SinkInMemory };

    ghost coded = { sink_code };

    ghost view = { λ sink. record { taken = sink.taken.items; most = sink.most; calls = sink.calls } };

    ghost invariant = { λ sink. 1 ≤ sink.most };
}

impl MemSink {
    /// Has taken nothing. The puts whose numbers stand in `fails`, counted from 1, will fail.
    pub fn new(alloc: Global, most: usize, fails: Vec<u64>) -> MemSink
        requires { 1 ≤ most }
        ensures nothing { result ≡ record { taken = []; most = most; calls = no_call fails.items } }
    {
        MemSink {
            taken: Vec::new(alloc),
            most,
            calls: Calls::new(fails),
        }
    }

    /// All bytes that it took.
    pub fn taken(&self) -> &[u8]
        ensures taken { result.now ≡ self.now.taken }
    {
        &self.taken
    }
}

impl Sink for MemSink {
    ghost use Rattle.std.specs.Prelude.{Some};

    ghost taken = { λ sink. Some sink.taken };

    ghost faults = { λ sink. sink.calls.faults };

    fn put(&mut self, piece: &[u8]) -> Result<usize, PutError>
        requires { 0 < length piece.now }
        ensures count { IfOk result (λ count. count ≡ min self.old.most (length piece.now)) }
        ensures some { IfOk result (λ count. 1 ≤ count) }
        ensures takes { IfOk result (λ count. self.new.taken ≡ self.old.taken ++ take count piece.now) }
        ensures never_falls { self.old.calls.faults ≤ self.new.calls.faults }
        ensures fits { self.new.calls.faults < 2 ^ 64 }
        ensures failed { IsErrOf result PutError.Failed ↔ IsTrue (next_fails self.old.calls) }
        ensures quiet { (IsErrOf result PutError.Failed → ⊥) → self.new.calls.faults ≡ self.old.calls.faults }
        ensures refused { OnErr result (self.new.taken ≡ self.old.taken) }
        ensures calls { self.new.calls ≡ after_call self.old.calls }
        ensures most { self.new.most ≡ self.old.most }
    {
        if self.calls.next_fails() {
            return Err(PutError::Failed);
        }
        let count = self.most.min(piece.len());
        self.taken.extend_from_slice(&piece[..count])?;
        Ok(count)
    }
}
