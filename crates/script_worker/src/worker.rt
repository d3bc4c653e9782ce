// PROMISES scripts-that-take-turns: Worker::take_turn, told
//! A worker: its number, the limits of the map and its task. `task` says what follows an answer.
//! This module adds the type, whose invariant is that a worker with a script left has a step to
//! take. With each turn and each answer the worker keeps to its scripts (`specs/Keeps.antt`).
ghost use Rattle.std.specs.Option.{option_or};
ghost use Rattle.std.specs.Prelude.{◌≡◌, ℕ, ◌<◌, ◌++◌, List, [], Some, true, is_some};
ghost use Rattle.txn_words.specs.declared.action.Action.{Action};
ghost use Rattle.txn_words.specs.declared.entry.Entry.{Entry};
ghost use Rattle.txn_words.specs.declared.step.Step.{Step};
ghost use Rattle.txn_words.specs.Entries.{entries_of};
ghost use Rattle.script_worker.specs.Workers.{new_worker, told_by, told_drive, finish_told, sized_by, turn_by, step_by, IsReady, IsTurnBy, TakesNext};
ghost use Rattle.script_worker.specs.Keeps.{KeepsScripts};

use crate::attempt::Finish;
use crate::task::{Task, tell};
use std::marker::Model;
use txn_drive::Turn;
use txn_trace::{Answer, Limits, Script, Step};

/// One of several workers among which scripts are distributed. Worker `w` of `n` runs the scripts
/// `w`, `w + n`, `w + 2 n` and so on, in this order. While a worker has a script left, it has a
/// step to take.
///
/// Begin with `new`. While the worker is live, call `take_turn`. Or call `turn`, take the steps of
/// that turn yourself, and pass the answer to each step to `told`.
#[derive(Clone, Copy, Debug, PartialEq, Eq)]
pub struct Worker {
    /// The number of the worker and of its caller, counted from 0.
    number: usize,
    /// The limits of the map. The callers of the map are the workers.
    limits: Limits,
    /// The script that the worker is at, or `None` if no script is left.
    task: Option<Task>,
}

impl Model for Worker {
    ghost use Rattle.script_worker.specs.Workers.{Standing, IsReadyTask};

    ghost Value = { Standing };

    ghost view = { λ worker. record {
      number = worker.number;
      limits = worker.limits;
      task = worker.task;
    } };

    ghost invariant = { λ worker. IsReadyTask worker.task };

    ghost inverse = { λ standing. record {
      number = standing.number;
      limits = standing.limits;
      task = standing.task;
    } };
}

impl Worker {
    /// The worker with this number before its first step, on a map with these limits. The map's
    /// callers are the workers.
    pub fn new(number: usize, limits: Limits, scripts: &[Script]) -> Worker
        requires { number < limits.callers }
        ensures worker { result ≡ new_worker scripts.now number limits }
        ensures ready { IsReady result }
        ensures keeps { (tries : ℕ) → KeepsScripts scripts.now tries result [] }
    {
        Worker {
            number,
            limits,
            task: Task::start(number, limits, scripts, number),
        }
    }

    /// The script that the worker is at, or `None` if no script is left.
    pub fn task(self) -> Option<Task>
        ensures task { result ≡ self.task }
        ensures ready { IsReady self }
    {
        self.task
    }

    /// Returns true if the worker has a step to take. It has one until the last step of its last
    /// script is taken.
    pub fn is_live(&self) -> bool
        ensures step { result ≡ is_some (step_by self.now) }
        ensures script { result ≡ is_some self.now.task }
    {
        self.task.is_some()
    }

    /// The next turn, which has one step or two, or `None` if the worker is not live. `size` is the
    /// present size of the table.
    pub fn turn(&mut self, size: u32) -> Option<Turn>
        ensures worker { self.new ≡ sized_by size self.old }
        ensures turn { result ≡ turn_by self.new }
        ensures step { IsTurnBy self.new result }
        ensures ready { IsReady self.new }
        ensures keeps { (scripts : List (List Action)) (tries : ℕ) (seen : List Entry)
            → KeepsScripts scripts tries self.old seen → KeepsScripts scripts tries self.new seen }
    {
        match &mut self.task {
            Some(task) => Some(task.drive.turn(size)),
            None => None,
        }
    }

    /// Takes the next turn. `size` is the present size of the table. The closure `step` takes each
    /// step of the turn, and `told` gives each answer to the worker. If this turn ends the worker's
    /// script, returns how the script ended.
    ///
    /// # Cost
    ///
    /// One or two calls of `step`, and a call of `told` after each.
    pub fn take_turn<F: FnMut(Step) -> Answer>(
        &mut self,
        size: u32,
        scripts: &[Script],
        tries: u64,
        step: &mut F,
    ) -> Option<Finish>
        requires live { is_some (step_by self.old) ≡ true }
        requires callable { (f : F) (s : _) → F.pre f s }
        ensures turn { IsTurnBy (sized_by size self.old) (turn_by (sized_by size self.old)) }
        ensures takes { TakesNext (λ f s answer g. F.step f s answer g) size scripts.now tries
            step.old self.old result step.new self.new }
    {
        let Some(turn) = self.turn(size) else {
            return None;
        };
        let mut finish = None;
        turn.take(
            &mut |now|
                requires { (f : F) (s : _) → F.pre f s }
                ensures taken { F.step step.entry.now now result step.exit.now }
                ensures told { self.exit.now
                    ≡ told_by scripts.entry.now tries self.entry.now result }
                ensures ended { finish.exit
                    ≡ option_or (finish_told scripts.entry.now tries self.entry.now result)
                    finish.entry }
            {
                let answer = step(now);
                finish = self.told(scripts, tries, answer).or(finish);
                answer
            },
        );
        finish
    }

    /// Gives the worker the answer to a step of its turn. If the turn has two steps, call `told`
    /// after each step that was taken. Pass the same scripts and tries each time. A script that
    /// found a stripe held is attempted again up to `tries` times. If this answer ends the worker's
    /// script, returns how the script ended.
    ///
    /// If the answer ended the worker's call, `told` moves the worker to the next call of the same
    /// script. If the script is over, it moves the worker to the first call of the worker's next
    /// script, if there is one.
    ///
    /// # Cost
    ///
    /// Constant time. The search for a helper's next bucket takes up to 32 rounds.
    pub fn told(&mut self, scripts: &[Script], tries: u64, answer: Answer) -> Option<Finish>
        ensures finish { result ≡ finish_told scripts.now tries self.old answer }
        ensures worker { self.new ≡ told_by scripts.now tries self.old answer }
        ensures number { self.new.number ≡ self.old.number }
        ensures limits { self.new.limits ≡ self.old.limits }
        ensures ready { IsReady self.new }
        ensures second { (step : Step) → step_by (told_drive self.old answer) ≡ Some step
            → step_by self.new ≡ Some step }
        ensures keeps { (seen : List Entry) (step : Step) → step_by self.old ≡ Some step
            → KeepsScripts scripts.now tries self.old seen
            → KeepsScripts scripts.now tries self.new (seen ++ entries_of step answer) }
    {
        let (number, limits) = (self.number, self.limits);
        tell(&mut self.task, number, limits, scripts, tries, answer)
    }
}
