use std::sync::{Mutex, Wait};
use std::thread;
use std::thread::Threads;

/// Whether so many threads can run beside this one. Each that could be started waits for the last of them, and ends.
pub(crate) fn can_run<W: Threads + Wait + Sync>(rt: &W, threads: usize) -> bool {
    let gate = Mutex::new(());
    let shared = &gate;
    thread::scope(thread::scope_env(), rt, |scope| {
        let _shut = shared.lock(rt);
        for _ in 0..threads {
            if scope.spawn(move || pass(rt, shared)).is_err() {
                return false;
            }
        }
        true
    })
}

/// Waits until the gate is open.
fn pass<W: Wait>(rt: &W, gate: &Mutex<()>) {
    let _open = gate.lock(rt);
}
