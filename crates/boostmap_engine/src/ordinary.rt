//! `OrdinaryCore`, the type of a core that keeps the locks of its stripes itself. In other cores
//! the stripes are atomic words that others keep, and not every step may be taken. The type's
//! invariant excludes such cores, so the loops over turns need not mention them. Each method either
//! makes one call of the core, and costs what this call costs, or only moves the core.
ghost use Rattle.std.specs.Prelude.{◌≡◌, false, IfOk};
ghost use Rattle.boost_core.specs.Machine.{start};

use boost_core::Core;
use std::alloc::Global;
use std::marker::Model;
use txn_trace::{Answer, Limits, Refusal, Step};

/// A core whose stripes are not atomic words that others keep. Such a core may take every step.
/// Contracts see the core's state.
#[derive(Drop)]
pub(crate) struct OrdinaryCore {
    core: Core,
}

impl Model for OrdinaryCore {
    ghost use Rattle.std.specs.Prelude.{◌≡◌, false};
    ghost use Rattle.boost_core.specs.Machine.{State};

    ghost Value = { State };

    ghost view = { λ ordinary. ordinary.core };

    ghost invariant = { λ ordinary. ordinary.core.words ≡ false };
}

impl OrdinaryCore {
    ghost use Rattle.boost_core.specs.Machine.{Happens};

    /// A new core.
    ///
    /// # Errors
    ///
    /// `Refusal::NoMemory` if memory is refused.
    pub(crate) fn new(alloc: Global, limits: Limits) -> Result<OrdinaryCore, Refusal>
        ensures { IfOk result (λ core. core ≡ start limits) }
    {
        let core = Core::new(alloc, limits)?;
        Ok(OrdinaryCore { core })
    }

    /// Takes one step of the core.
    pub(crate) fn step(&mut self, step: Step) -> Answer
        ensures { Happens self.old step result self.new }
    {
        self.core.step(step)
    }

    /// The number of buckets now.
    pub(crate) fn size(&self) -> u32
        ensures { result ≡ self.now.size }
    {
        self.core.size()
    }

    /// Returns the core itself.
    pub(crate) fn into_core(self) -> Core
        ensures value { result ≡ self }
        ensures ordinary { result.words ≡ false }
    {
        self.core
    }
}
