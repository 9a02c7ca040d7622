//! What the gate of a check on several threads is told.

use crate::rows::{formula, proof};
use log_check::{Gate, Verdict, check_log_parallel};
use std::sync::atomic::{AtomicBool, AtomicU64, Ordering};
use std::test::Fail;

/// How often a chunk looks for the other.
const MOST_LOOKS: u64 = 100_000_000;

/// Two chunks, each of which waits for the other to begin.
#[derive(Drop)]
struct TwoAtOnce {
    first: AtomicBool,
    second: AtomicBool,
    meetings: AtomicU64,
}

impl TwoAtOnce {
    fn meet(&self, own: &AtomicBool, other: &AtomicBool) {
        own.store(true, Ordering::SeqCst);
        for _ in 0..MOST_LOOKS {
            if other.load(Ordering::SeqCst) {
                self.meetings.fetch_add(1, Ordering::SeqCst);
                return;
            }
        }
    }
}

impl Gate for TwoAtOnce {
    fn enter(&self, chunk: u64) {
        if chunk == 0 {
            self.meet(&self.first, &self.second);
        } else {
            self.meet(&self.second, &self.first);
        }
    }

    fn leave(&self, _chunk: u64) {}
}

#[test]
fn two_chunks_at_once(rt: HostRuntime) -> Result<(), Fail> {
    let f = formula(rt.alloc(), "1 2/1 -2/-1 2/-1 -2")?;
    let p = proof(rt.alloc(), "5:1:1 2/6::5 3 4")?;
    let gate = TwoAtOnce {
        first: AtomicBool::new(false),
        second: AtomicBool::new(false),
        meetings: AtomicU64::new(0),
    };
    let verdict = check_log_parallel(&rt, rt.alloc(), &f, &p, 2, &gate)?;
    assert_eq!(rt; verdict, Verdict::Verified);
    assert_eq!(rt; gate.meetings.load(Ordering::SeqCst), 2);
    Ok(())
}

/// Which chunks began and ended, as bits.
#[derive(Drop)]
struct Seen {
    begun: AtomicU64,
    ended: AtomicU64,
    calls: AtomicU64,
}

impl Gate for Seen {
    fn enter(&self, chunk: u64) {
        self.begun.fetch_or(1 << (chunk % 64), Ordering::SeqCst);
        self.calls.fetch_add(1, Ordering::SeqCst);
    }

    fn leave(&self, chunk: u64) {
        self.ended.fetch_or(1 << (chunk % 64), Ordering::SeqCst);
        self.calls.fetch_add(1, Ordering::SeqCst);
    }
}

// Workers, and the chunks that five lines make for them, as bits.
const CHUNKS: [(u64, u64); 6] = [(1, 1), (2, 3), (3, 7), (4, 7), (5, 31), (64, 31)];

#[test]
fn a_gate_is_told_of_each_chunk_that_has_a_line(rt: HostRuntime) -> Result<(), Fail> {
    let f = formula(rt.alloc(), "1 2/1 -2/-1 2/-1 -2")?;
    let p = proof(rt.alloc(), "5:1:1 2/6:1:5/7:1:6/8:1:99/9::5 3 4")?;
    for (workers, chunks) in CHUNKS {
        let gate = Seen {
            begun: AtomicU64::new(0),
            ended: AtomicU64::new(0),
            calls: AtomicU64::new(0),
        };
        let verdict = check_log_parallel(&rt, rt.alloc(), &f, &p, workers, &gate)?;
        assert_eq!(rt; verdict, Verdict::BadStep(4));
        assert_eq!(rt; gate.begun.load(Ordering::SeqCst), chunks, "by {workers}");
        assert_eq!(rt; gate.ended.load(Ordering::SeqCst), chunks, "by {workers}");
        let calls = 2 * u64::from(chunks.count_ones());
        assert_eq!(rt; gate.calls.load(Ordering::SeqCst), calls, "by {workers}");
    }
    Ok(())
}
