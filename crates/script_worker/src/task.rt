//! The script that a worker is at, and how an answer changes it. The call's drive receives the
//! answer. If the call has then ended, the script's next call follows. If the script is over, the
//! worker's next script follows. A worker without a script left has no task.
ghost use Rattle.std.specs.Prelude.{◌≡◌};
ghost use Rattle.script_worker.specs.Workers.{started, progressed, settled, task_told};
ghost use Rattle.script_worker.specs.Workers.{finish_at, finish_by, finish_after};

use crate::attempt::{Attempt, Finish, Progress};
use txn_drive::{Call, Drive};
use txn_trace::{Answer, Limits, Script};

/// A script that a worker is at, with the attempt and the drive of the attempt's call. This call
/// may have ended already.
#[derive(Clone, Copy, Debug, PartialEq, Eq)]
pub struct Task {
    /// The number of the script among all scripts, from 0.
    pub script: usize,
    /// The present attempt at the script.
    pub attempt: Attempt,
    /// The drive of the attempt's present call.
    pub drive: Drive,
}

impl Task {
    /// The first attempt at the script with this index, or `None` if there is no such script.
    pub(crate) fn start(
        worker: usize,
        limits: Limits,
        scripts: &[Script],
        script: usize,
    ) -> Option<Task>
        ensures { result ≡ started limits.half scripts.now worker script }
    {
        if script < scripts.len() {
            Some(Task {
                script,
                attempt: Attempt::first(),
                drive: Drive::new(worker as u64, Call::Begin, limits),
            })
        } else {
            None
        }
    }
}

/// If the call of the worker's task has ended, moves to the next call. If that call was the last of
/// its script, returns how the script ended.
fn settle(
    task: &mut Option<Task>,
    worker: usize,
    limits: Limits,
    scripts: &[Script],
    tries: u64,
) -> Option<Finish>
    ensures task { task.new ≡ settled scripts.now tries worker limits task.old }
    ensures finish { result ≡ finish_by scripts.now tries task.old }
{
    let Some(now) = task else {
        return None;
    };
    let Some(end) = now.drive.ended() else {
        return None;
    };
    let Some(script) = scripts.get(now.script) else {
        *task = None;
        return None;
    };
    match now.attempt.progress(script.actions(), tries, end) {
        Progress::Next(attempt) => {
            let call = attempt.call(script.actions());
            now.attempt = attempt;
            now.drive = Drive::new(worker as u64, call, limits);
            None
        }
        Progress::Over(finish) => {
            let next = now.script.saturating_add(limits.callers() as usize);
            *task = Task::start(worker, limits, scripts, next);
            Some(finish)
        }
    }
}

/// Gives the worker's task the answer to its step, and finds the task's next step. If this answer
/// ends the task's script, returns how the script ended.
pub(crate) fn tell(
    task: &mut Option<Task>,
    worker: usize,
    limits: Limits,
    scripts: &[Script],
    tries: u64,
    answer: Answer,
) -> Option<Finish>
    ensures task { task.new ≡ task_told scripts.now tries worker limits task.old answer }
    ensures finish { result ≡ finish_after scripts.now tries worker limits task.old answer }
{
    let Some(now) = task else {
        return None;
    };
    now.drive.told(answer);
    let Some(_end) = now.drive.ended() else {
        return None;
    };
    let first = settle(task, worker, limits, scripts, tries);
    // A call of help may end before its first step. Then the next call is an abort, and an abort
    // takes a step.
    let Some(next) = task else {
        return first;
    };
    let Some(_end) = next.drive.ended() else {
        return first;
    };
    let second = settle(task, worker, limits, scripts, tries);
    first.or(second)
}
