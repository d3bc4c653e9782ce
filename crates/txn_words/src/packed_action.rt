//! An action packed into 32 bytes instead of 48; the size is proved. A script keeps its actions in
//! this form, and a worker unpacks the next action in constant time. The model of a packed action
//! is the action itself, so a contract reads a list of packed actions as a list of actions.
ghost use Rattle.std.specs.Prelude.{◌≡◌};
ghost use Rattle.txn_words.specs.Packed.{packed_op, packed_action};

use crate::action::Action;
use crate::packed_entry::{OpKind, op_of, parts_of};
use std::marker::Model;
use std::mem::size_of;

/// The kind of an action.
#[derive(Clone, Copy, Debug)]
enum ActionKind {
    Op,
    Save,
    Back,
    Help,
    Abort,
}

/// An action in 32 bytes, for lists of many actions. An `Action` takes 48 bytes. In contracts, a
/// packed action is the action that it stands for.
#[derive(Debug, Drop)]
pub struct PackedAction {
    kind: ActionKind,
    op: OpKind,
    /// The key of an operation or of a `Help`, or the level of a `Back`.
    number: u64,
    value: u64,
    expected: u64,
}

const _: () = prove!(size_of::<PackedAction>() == 32);

impl Model for PackedAction {
    ghost use Rattle.txn_words.specs.declared.action.Action.{Action};
    ghost use Rattle.txn_words.specs.Packed.{packed_action};

    ghost Value = { Action };

    ghost view = { λ p. packed_action p.kind p.op p.number p.value p.expected };
}

impl PackedAction {
    /// The action, packed.
    #[inline(always)]
    pub fn new(action: Action) -> PackedAction
        ensures { result ≡ action }
    {
        match action {
            Action::Op(op) => {
                let (op, number, value, expected) = parts_of(op);
                PackedAction {
                    kind: ActionKind::Op,
                    op,
                    number,
                    value,
                    expected,
                }
            }
            Action::Save => PackedAction::of(ActionKind::Save, 0),
            Action::Back(level) => PackedAction::of(ActionKind::Back, level),
            Action::Help(key) => PackedAction::of(ActionKind::Help, key),
            Action::Abort => PackedAction::of(ActionKind::Abort, 0),
        }
    }

    /// The action.
    #[inline(always)]
    pub fn action(&self) -> Action
        ensures { result ≡ self.now }
    {
        match self.kind {
            ActionKind::Op => {
                let op = op_of(self.op, self.number, self.value, self.expected);
                Action::Op(op)
            }
            ActionKind::Save => Action::Save,
            ActionKind::Back => Action::Back(self.number),
            ActionKind::Help => Action::Help(self.number),
            ActionKind::Abort => Action::Abort,
        }
    }

    /// An action without an operation.
    fn of(kind: ActionKind, number: u64) -> PackedAction
        ensures { result ≡ packed_action kind OpKind.Get number 0 0 }
    {
        PackedAction {
            kind,
            op: OpKind::Get,
            number,
            value: 0,
            expected: 0,
        }
    }
}
