use std::hint::spin_loop;
use std::sync::atomic::AtomicBool;
use std::sync::atomic::Ordering::SeqCst;

/// What a worker passes between taking a job and running it. It promises nothing; a test may hold workers at it.
pub trait Gate: Sync {
    /// Called for the activation of that number, from 0, of a process.
    fn pass(&self, process: u32, activation: u128);
}

/// A gate that is always open.
#[derive(Clone, Copy)]
pub struct OpenGate;

impl Gate for OpenGate {
    fn pass(&self, _process: u32, _activation: u128) {}
}

/// A gate at which the first activation of process 0 waits for that of process 1, for so many turns at most. Two workers meet
/// there; one alone goes on after these turns.
#[derive(Drop)]
pub struct MeetGate {
    turns: u64,
    entered: AtomicBool,
    met: AtomicBool,
}

impl MeetGate {
    /// A gate at which nobody was.
    pub fn new(turns: u64) -> MeetGate {
        MeetGate {
            turns,
            entered: AtomicBool::new(false),
            met: AtomicBool::new(false),
        }
    }

    /// Whether the two activations were at the gate at once.
    pub fn met(&self) -> bool {
        self.met.load(SeqCst)
    }

    // Waits for process 1.
    fn wait(&self) {
        for _ in 0..self.turns {
            if self.entered.load(SeqCst) {
                self.met.store(true, SeqCst);
                return;
            }
            spin_loop();
        }
    }
}

impl Gate for MeetGate {
    fn pass(&self, process: u32, activation: u128) {
        match (process, activation) {
            (0, 0) => self.wait(),
            (1, 0) => self.entered.store(true, SeqCst),
            _ => {}
        }
    }
}
