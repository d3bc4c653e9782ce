//! The engines of the program `judge`, over any reader and any writer.
//!
//! `check` judges a history file, and writes the verdict as one line. `why` also writes lines that
//! explain the bad entry or, if a file is refused, its flaw. `watch` reads entries, one per line,
//! and judges each when it is read. All three judge by locks (`history_check`) or by the order of
//! commits (`serial_check`). `tell_outcomes` writes the outcome of each script in a history, and
//! judges nothing.
//!
//! Proved: the verdict is that of the definitions (`specs/Files.antt`, `specs/Watching.antt`), and
//! the outcomes are those of `script_worker` (`specs/Outcomes.antt`). The lines that explain a
//! bad entry are those of a right reason (`specs/Explained.antt`). The line of a flaw is that of
//! the file's flaw (`specs/Whys.antt`). At a fault nothing is written, with two exceptions: `why`
//! writes the flaw of a refused file, and a failed write may leave a proper prefix of the text.
#![tactic(auto)]

mod answer;
mod basis;
mod class;
mod engine;
mod fault;
mod file;
mod judge;
mod lines;
mod order;
mod order_dot;
mod order_lines;
mod order_why;
mod outcomes;
mod output;
mod reading;
mod watcher;

pub use answer::Answer;
pub use basis::Basis;
pub use engine::{check, check_serializable, watch, why, why_serializable};
pub use fault::Fault;
pub use outcomes::{OutcomesFault, tell_outcomes};
