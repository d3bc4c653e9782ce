//! Which transactions replace a value: what an access wrote, or a key as it was at the beginning.
//! Who replaces what was written is found at the index of the access that wrote it. Most values are
//! replaced soon after, so that the places that are read lie close together.
ghost use Rattle.std.specs.Prelude.{◌≡◌, ◌<◌, IfOk, IfSome, None, OnOk, slice_index_or, vec_len};
ghost use Rattle.order_check.specs.Joined.{AreReplacers, AreSourced};
ghost use Rattle.order_check.specs.Tables.{NotesReplacer, replacer_in};

use crate::access::Access;
use std::alloc::{AllocError, Global};
use std::collections::HashMap;

/// The first transactions of the list that replace a value.
#[derive(Drop)]
pub(crate) struct Replacers {
    /// At the index of an access: who replaces what it writes.
    pub(crate) written: Vec<Option<usize>>,
    /// Who replaces the key as it was at the beginning.
    pub(crate) beginnings: HashMap<u64, usize>,
}

impl Replacers {
    /// The transaction that replaces what the access needs, if there is one.
    pub(crate) fn replacer(&self, access: &Access) -> Option<usize>
        ensures { result ≡ replacer_in self.now access.now.key access.now.source }
    {
        match access.source {
            Some(index) => at(&self.written, index),
            None => match self.beginnings.get(&access.key) {
                Some(txn) => Some(*txn),
                None => None,
            },
        }
    }

    /// Notes that the access replaces what it needs, if no other one does.
    fn note(&mut self, access: &Access) -> Result<(), AllocError>
        requires { IfSome access.now.source (λ i. i < vec_len self.old.written) }
        ensures { OnOk result (NotesReplacer access.now self.old self.new) }
    {
        if self.replacer(access).is_none() {
            return self.put(access);
        }
        Ok(())
    }

    /// Puts the access's transaction where it is noted.
    fn put(&mut self, access: &Access) -> Result<(), AllocError>
        requires { IfSome access.now.source (λ i. i < vec_len self.old.written) }
        ensures { OnOk result (NotesReplacer access.now self.old self.new) }
    {
        match access.source {
            Some(index) => self.written[index] = Some(access.txn),
            None => {
                self.beginnings.insert(access.key, access.txn)?;
            }
        }
        Ok(())
    }
}

/// What is at an index.
fn at(list: &[Option<usize>], index: usize) -> Option<usize>
    ensures { result ≡ slice_index_or list.now index None }
{
    match list.get(index) {
        Some(found) => *found,
        None => None,
    }
}

/// The transactions that replace what an access of the list needs.
pub(crate) fn make_replacers(alloc: Global, accesses: &[Access]) -> Result<Replacers, AllocError>
    requires { AreSourced accesses.now }
    ensures { IfOk result (AreReplacers accesses.now) }
{
    let mut replacers = Replacers {
        written: vec![in alloc; None; accesses.len()]?,
        beginnings: HashMap::new(alloc),
    };
    for access in accesses {
        if access.need != access.left {
            replacers.note(access)?;
        }
    }
    Ok(replacers)
}
