//! The idle sides of all callers. They are made with the core, so no step makes a side later. They
//! are in one vector, in the order of the callers' numbers. No `Session` knows another. The vector
//! takes one allocation, and an idle side takes no more memory.
ghost use Rattle.std.specs.Prelude.{◌≡◌, IfOk, length};
ghost use Rattle.std.specs.List.{All};
ghost use Rattle.boost_core.specs.Sessions.{IsIdle};

use crate::session::Session;
use std::alloc::{AllocError, Global};

/// Makes `count` callers without a transaction.
pub(crate) fn idle_sessions(alloc: Global, count: usize) -> Result<Vec<Session>, AllocError>
    ensures length { IfOk result (λ sessions. length sessions.items ≡ count) }
    ensures idle { IfOk result (λ sessions. All IsIdle sessions.items) }
{
    let mut sessions = Vec::with_capacity(alloc, count)?;
    for _ in 0..count {
        sessions.push_reserved(Session::new(alloc));
    }
    Ok(sessions)
}
