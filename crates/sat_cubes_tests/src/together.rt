//! What the gate of cubes is told, and that two of them are worked on at once.

use crate::formulas::{formula_of, lists_of};
use sat_cubes::{CubeGate, Cubed, solve_cubes};
use std::sync::atomic::{AtomicBool, AtomicU64, Ordering};
use std::test::Fail;
use std::thread::available_parallelism;

/// How often a cube looks for the other.
const MOST_LOOKS: u64 = 100_000_000;

/// Two cubes, each of which waits for the other to begin.
#[derive(Drop)]
struct TwoAtOnce {
    first: AtomicBool,
    second: AtomicBool,
    meetings: AtomicU64,
}

impl TwoAtOnce {
    fn meet(&self, own: &AtomicBool, other: &AtomicBool) {
        own.store(true, Ordering::SeqCst);
        for _ in 0..MOST_LOOKS {
            if other.load(Ordering::SeqCst) {
                self.meetings.fetch_add(1, Ordering::SeqCst);
                return;
            }
        }
    }
}

impl CubeGate for TwoAtOnce {
    fn enter(&self, cube: u64) {
        if cube == 0 {
            self.meet(&self.first, &self.second);
        } else {
            self.meet(&self.second, &self.first);
        }
    }

    fn leave(&self, _cube: u64) {}
}

#[test]
fn two_cubes_at_once(rt: HostRuntime) -> Result<(), Fail> {
    let lists = lists_of(rt.alloc(), "1 2")?;
    let formula = formula_of(rt.alloc(), 2, &lists)?;
    let gate = TwoAtOnce {
        first: AtomicBool::new(false),
        second: AtomicBool::new(false),
        meetings: AtomicU64::new(0),
    };
    let _cubed = solve_cubes(&rt, rt.alloc(), &formula, 1, 10, &gate)?;
    assert_eq!(rt; gate.meetings.load(Ordering::SeqCst), 2);
    Ok(())
}

/// Which cubes were begun and ended, as bits.
#[derive(Drop)]
struct Seen {
    begun: AtomicU64,
    ended: AtomicU64,
    calls: AtomicU64,
}

impl CubeGate for Seen {
    fn enter(&self, cube: u64) {
        self.begun.fetch_or(1 << (cube % 64), Ordering::SeqCst);
        self.calls.fetch_add(1, Ordering::SeqCst);
    }

    fn leave(&self, cube: u64) {
        self.ended.fetch_or(1 << (cube % 64), Ordering::SeqCst);
        self.calls.fetch_add(1, Ordering::SeqCst);
    }
}

#[test]
fn a_gate_is_told_of_each_cube(rt: HostRuntime) -> Result<(), Fail> {
    let lists = lists_of(rt.alloc(), "1 2/1 -2/-1 2/-1 -2/3")?;
    let formula = formula_of(rt.alloc(), 3, &lists)?;
    let gate = Seen {
        begun: AtomicU64::new(0),
        ended: AtomicU64::new(0),
        calls: AtomicU64::new(0),
    };
    let cubed = solve_cubes(&rt, rt.alloc(), &formula, 3, 10, &gate)?;
    assert!(rt; matches!(&cubed, Cubed::Unsat { .. }));
    assert_eq!(rt; gate.begun.load(Ordering::SeqCst), 255);
    assert_eq!(rt; gate.ended.load(Ordering::SeqCst), 255);
    assert_eq!(rt; gate.calls.load(Ordering::SeqCst), 16);
    Ok(())
}

#[test]
fn no_wave_begins_behind_values(rt: HostRuntime) -> Result<(), Fail> {
    let lists = lists_of(rt.alloc(), "1 2 3 4 5 6 7")?;
    let formula = formula_of(rt.alloc(), 7, &lists)?;
    let gate = Seen {
        begun: AtomicU64::new(0),
        ended: AtomicU64::new(0),
        calls: AtomicU64::new(0),
    };
    let cubed = solve_cubes(&rt, rt.alloc(), &formula, 6, 10, &gate)?;
    assert!(rt; matches!(&cubed, Cubed::Sat { cube: 0, .. }));
    let width = match available_parallelism(&rt) {
        Ok(count) => count.get().clamp(2, 64) as u64,
        Err(_) => 2,
    };
    assert_eq!(rt; gate.calls.load(Ordering::SeqCst), 2 * width);
    Ok(())
}
