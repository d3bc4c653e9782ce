//! A step in 40 bytes instead of 56; the size is proved. A step file may have a million steps, so
//! the file's reader packs each step as soon as it is read. The model of a packed step is the step
//! itself, so a contract reads a list of packed steps as a list of steps, and packing loses
//! nothing.
ghost use Rattle.std.specs.Prelude.{◌≡◌};
ghost use Rattle.txn_words.specs.Packed.{packed_op, packed_step};

use crate::packed_entry::{OpKind, op_of, parts_of};
use crate::step::Step;
use std::marker::Model;
use std::mem::size_of;

/// The kind of a step.
#[derive(Clone, Copy, Debug)]
enum StepKind {
    Begin,
    Ask,
    Seek,
    Act,
    Save,
    Back,
    Commit,
    Abort,
    Sweep,
    InitSeek,
    InitLink,
    InitStore,
    Double,
}

/// A step in 40 bytes, for lists of many steps. A `Step` takes 56 bytes. In contracts, a packed
/// step is the step that it stands for.
#[derive(Debug, Drop)]
pub struct PackedStep {
    kind: StepKind,
    op: OpKind,
    /// The caller or the helper, or the size that a `Double` names.
    first: u64,
    /// The key of an operation, a level or a bucket.
    second: u64,
    value: u64,
    expected: u64,
}

const _: () = prove!(size_of::<PackedStep>() == 40);

impl Model for PackedStep {
    ghost use Rattle.txn_words.specs.declared.step.Step.{Step};
    ghost use Rattle.txn_words.specs.Packed.{packed_step};

    ghost Value = { Step };

    ghost view = { λ p. packed_step p.kind p.op p.first p.second p.value p.expected };
}

impl PackedStep {
    /// The step, packed.
    #[inline(always)]
    pub fn new(step: Step) -> PackedStep
        ensures { result ≡ step }
    {
        match step {
            Step::Begin(caller) => PackedStep::of(StepKind::Begin, caller, 0),
            Step::Ask(caller, op) => {
                let (op, second, value, expected) = parts_of(op);
                PackedStep {
                    kind: StepKind::Ask,
                    op,
                    first: caller,
                    second,
                    value,
                    expected,
                }
            }
            Step::Seek(caller) => PackedStep::of(StepKind::Seek, caller, 0),
            Step::Act(caller) => PackedStep::of(StepKind::Act, caller, 0),
            Step::Save(caller) => PackedStep::of(StepKind::Save, caller, 0),
            Step::Back(caller, level) => PackedStep::of(StepKind::Back, caller, level),
            Step::Commit(caller) => PackedStep::of(StepKind::Commit, caller, 0),
            Step::Abort(caller) => PackedStep::of(StepKind::Abort, caller, 0),
            Step::Sweep => PackedStep::of(StepKind::Sweep, 0, 0),
            Step::InitSeek(helper, bucket) => PackedStep::of(StepKind::InitSeek, helper, bucket),
            Step::InitLink(helper) => PackedStep::of(StepKind::InitLink, helper, 0),
            Step::InitStore(helper) => PackedStep::of(StepKind::InitStore, helper, 0),
            Step::Double(size) => PackedStep::of(StepKind::Double, size, 0),
        }
    }

    /// The step.
    #[inline(always)]
    pub fn step(&self) -> Step
        ensures { result ≡ self.now }
    {
        let first = self.first;
        match self.kind {
            StepKind::Begin => Step::Begin(first),
            StepKind::Ask => {
                let op = op_of(self.op, self.second, self.value, self.expected);
                Step::Ask(first, op)
            }
            StepKind::Seek => Step::Seek(first),
            StepKind::Act => Step::Act(first),
            StepKind::Save => Step::Save(first),
            StepKind::Back => Step::Back(first, self.second),
            StepKind::Commit => Step::Commit(first),
            StepKind::Abort => Step::Abort(first),
            StepKind::Sweep => Step::Sweep,
            StepKind::InitSeek => Step::InitSeek(first, self.second),
            StepKind::InitLink => Step::InitLink(first),
            StepKind::InitStore => Step::InitStore(first),
            StepKind::Double => Step::Double(first),
        }
    }

    /// A step without an operation.
    fn of(kind: StepKind, first: u64, second: u64) -> PackedStep
        ensures { result ≡ packed_step kind OpKind.Get first second 0 0 }
    {
        PackedStep {
            kind,
            op: OpKind::Get,
            first,
            second,
            value: 0,
            expected: 0,
        }
    }
}
