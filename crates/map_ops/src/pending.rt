//! Prepared operations: each has all that it needs. `Pending` is a type of its own, apart from `Op`
//! (`txn_words`), because every prepared operation but a get owns a spare node until it is done or
//! withdrawn. The fields of the variants of `Plan` enforce this rule, so no code tests for a spare.
ghost use Rattle.std.specs.Prelude.{◌≡◌, is_some};

use node_list::Unfilled;
use split_key::Key;
use std::marker::Model;
use txn_words::Op;

/// An operation and, unless it is a get, the spare that it owns.
#[derive(Debug, Drop)]
pub(crate) enum Plan {
    Put(Key, u64, Unfilled),
    Take(Key, Unfilled),
    PutIf(Key, Option<u64>, u64, Unfilled),
    Get(Key),
}

/// A prepared operation: it has all that it needs, and takes no memory from here on.
///
/// Every operation but a get owns a spare of the table that prepared it, until it is done or
/// withdrawn.
#[derive(Debug, Drop)]
pub struct Pending {
    plan: Plan,
}

impl Model for Pending {
    ghost use Rattle.map_ops.specs.Jobs.{PendingAt};

    ghost Value = { PendingAt };

    ghost use Rattle.map_ops.specs.Plans.{pending_of};

    ghost view = { λ p. pending_of p.plan };
}

impl Pending {
    ghost use Rattle.txn_words.specs.Map.{key_of};
    ghost use Rattle.txn_words.specs.Owed.{may_change};
    ghost use Rattle.map_ops.specs.Plans.{pending_of};

    pub(crate) fn new(plan: Plan) -> Pending
        ensures { result ≡ pending_of plan }
    {
        Pending { plan }
    }

    pub(crate) fn into_plan(self) -> Plan
        ensures { pending_of result ≡ self }
    {
        self.plan
    }

    /// The spare of the operation, if it owns one.
    pub(crate) fn into_spare(self) -> Option<Unfilled>
        ensures { result ≡ self.spare }
    {
        match self.plan {
            Plan::Put(_, _, spare) => Some(spare),
            Plan::Take(_, spare) => Some(spare),
            Plan::PutIf(_, _, _, spare) => Some(spare),
            Plan::Get(_) => None,
        }
    }

    /// The operation. It has a spare exactly if it is not a get.
    pub fn op(&self) -> Op
        ensures op { result ≡ self.now.op }
        ensures spare { is_some self.now.spare ≡ may_change result }
    {
        match &self.plan {
            Plan::Put(key, value, _) => Op::Put(key.number(), *value),
            Plan::Take(key, _) => Op::Take(key.number()),
            Plan::PutIf(key, expected, value, _) => Op::PutIf(key.number(), *expected, *value),
            Plan::Get(key) => Op::Get(key.number()),
        }
    }

    /// The key of the operation.
    pub fn key(&self) -> Key
        ensures { result ≡ key_of self.now.op }
    {
        match &self.plan {
            Plan::Put(key, _, _) => *key,
            Plan::Take(key, _) => *key,
            Plan::PutIf(key, _, _, _) => *key,
            Plan::Get(key) => *key,
        }
    }
}
