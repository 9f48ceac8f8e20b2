//! A gate at the reads of one key: a thread waits there with the key's stripe in its hand.
use std::sync::Wait;
use std::sync::atomic::{AtomicU64, Ordering};
use std::thread;

/// The key whose reads come by the gate. Of 16 pages it is on the one of stripe 5.
pub const GATE_KEY: u32 = 69;

const OPEN: u64 = 0;

const SHUT: u64 = 1;

const REACHED: u64 = 2;

/// A gate. It is open at first.
#[derive(Drop)]
pub struct Gate {
    word: AtomicU64,
}

impl Gate {
    /// An open gate.
    pub fn new() -> Gate {
        Gate {
            word: AtomicU64::new(OPEN),
        }
    }

    /// Shuts the gate.
    pub fn shut(&self) {
        self.word.store(SHUT, Ordering::SeqCst);
    }

    /// Opens the gate.
    pub fn open(&self) {
        self.word.store(OPEN, Ordering::SeqCst);
    }

    /// Waits until a thread has reached the gate while it is shut.
    pub fn wait_until_reached<R: Wait>(&self, rt: &R) {
        for _ in rt.forever() {
            if self.word.load(Ordering::SeqCst) == REACHED {
                return;
            }
            thread::yield_now();
        }
        unreachable!()
    }

    /// Goes through the gate, once it is open.
    pub fn pass<R: Wait>(&self, rt: &R) {
        for _ in rt.forever() {
            let found = self
                .word
                .compare_exchange(SHUT, REACHED, Ordering::SeqCst, Ordering::SeqCst);
            if found == Err(OPEN) {
                return;
            }
            thread::yield_now();
        }
        unreachable!()
    }
}
