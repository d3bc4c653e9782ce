//! Scripts and sets of scripts. A script is a list of actions, kept packed in 32 bytes each. A set
//! holds scripts, limits and the number of tries. File readers make both and workers run them;
//! neither side depends on the other. This module bounds neither the number of actions nor the
//! tries.
ghost use Rattle.std.specs.Prelude.{◌≡◌, IfOk};

use crate::action::Action;
use crate::limits::Limits;
use crate::packed_action::PackedAction;
use std::alloc::{AllocError, Global};
use std::marker::Model;

/// The actions of one transaction, in order and packed. A contract sees the script as the list of
/// these actions.
#[derive(Drop)]
pub struct Script {
    actions: Vec<PackedAction>,
}

impl Model for Script {
    ghost use Rattle.std.specs.Prelude.{List};
    ghost use Rattle.txn_words.specs.declared.action.Action.{Action};

    ghost Value = { List Action };

    ghost view = { λ script. script.actions.items };
}

impl Script {
    /// A script with these actions.
    pub fn new(actions: Vec<PackedAction>) -> Script
        ensures { result ≡ actions.items }
    {
        Self { actions }
    }

    /// Packs these actions and returns them as a script.
    ///
    /// # Errors
    ///
    /// `AllocError` if memory is refused.
    ///
    /// # Cost
    ///
    /// Time and memory in proportion to the number of actions.
    pub fn of_actions(alloc: Global, actions: &[Action]) -> Result<Script, AllocError>
        ensures { IfOk result (λ script. script ≡ actions.now) }
    {
        let mut packed = Vec::with_capacity(alloc, actions.len())?;
        for action in actions {
            packed.push(PackedAction::new(*action))?;
        }
        Ok(Script { actions: packed })
    }

    /// The actions in order.
    pub fn actions(&self) -> &[PackedAction]
        ensures { result.now ≡ self.now }
    {
        self.actions.as_slice()
    }

    /// The actions in order, by value.
    pub fn into_actions(self) -> Vec<PackedAction>
        ensures { result.items ≡ self }
    {
        let Script { actions } = self;
        actions
    }
}

/// Scripts for the callers of a map: the version of the file that holds them, the limits of the
/// map, how often a script is tried again, and the scripts.
#[derive(Drop)]
pub struct Scripts {
    version: u64,
    limits: Limits,
    tries: u64,
    scripts: Vec<Script>,
}

impl Model for Scripts {
    ghost use Rattle.txn_words.specs.Work.{Work};

    ghost Value = { Work };

    ghost view = { λ s. record {
      version = s.version;
      sizes = s.limits;
      tries = s.tries;
      scripts = s.scripts.items;
    } };
}

impl Scripts {
    /// A set of these scripts, with this version, these limits and this number of tries.
    pub fn new(version: u64, limits: Limits, tries: u64, scripts: Vec<Script>) -> Scripts
        ensures { result ≡ record {
          version = version;
          sizes = limits;
          tries = tries;
          scripts = scripts.items;
        } }
    {
        Scripts {
            version,
            limits,
            tries,
            scripts,
        }
    }

    /// The version of the file that holds the scripts.
    pub fn version(&self) -> u64
        ensures { result ≡ self.now.version }
    {
        self.version
    }

    /// The limits of the map. The callers of the map are the workers.
    pub fn limits(&self) -> Limits
        ensures { result ≡ self.now.sizes }
    {
        self.limits
    }

    /// How often a script is tried again if it found a stripe held by another caller.
    pub fn tries(&self) -> u64
        ensures { result ≡ self.now.tries }
    {
        self.tries
    }

    /// The scripts in order.
    pub fn scripts(&self) -> &[Script]
        ensures { result.now ≡ self.now.scripts }
    {
        self.scripts.as_slice()
    }
}
