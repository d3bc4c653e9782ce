//! The trait of gates. A run calls its gate when a worker reaches certain points, and the gate may
//! make this worker wait. Gates are for tests that need an order between threads. The gate `Open`
//! makes no worker wait. No gate is called under the lock, so a worker that waits in its gate keeps
//! no other worker from the map. The contract of a run is the same with every gate.
/// An observer of workers in threads. Each call may make its worker wait.
pub trait Gate: Sync {
    /// Called when a worker is about to do an action of a script. The commit counts as one more
    /// action, after the last one.
    ///
    /// # Cost
    ///
    /// The cost of the gate's own code.
    fn before(&self, worker: usize, script: usize, action: usize);

    /// Called when a script has its outcome.
    ///
    /// # Cost
    ///
    /// The cost of the gate's own code.
    fn done(&self, script: usize);

    /// Called when a worker has released the lock.
    ///
    /// # Cost
    ///
    /// The cost of the gate's own code.
    fn freed(&self, worker: usize);
}

/// The gate that does nothing and makes no worker wait.
pub struct Open;

impl Gate for Open {
    fn before(&self, _worker: usize, _script: usize, _action: usize) {}

    fn done(&self, _script: usize) {}

    fn freed(&self, _worker: usize) {}
}
