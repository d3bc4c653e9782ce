//! Chooses the source of each access, in the order of the list.
ghost use Rattle.std.specs.Prelude.{◌≡◌, IfOk, IfSome, IsSome, List, OnOk};
ghost use Rattle.order_check.specs.Choices.{IsChoice, IsSourced, LatestWrite, IsSourcing};
ghost use Rattle.order_check.specs.Choices.{AreFirst, NotesFirst};
ghost use Rattle.order_check.specs.Joined.{SourceIs};
ghost use Rattle.order_check.specs.declared.access.Access.{Access};

use crate::access::Access;
use crate::forward::find_writers;
use crate::table::Version;
use std::alloc::{AllocError, Global};
use std::collections::HashMap;

/// The accesses with their sources.
#[derive(Drop)]
pub(crate) enum Choice {
    /// The same accesses, each with a source that gives what it needs.
    Sourced(Vec<Access>),
    /// No transaction writes the value that this access needs.
    Unwritten(Access),
}

/// Where a value comes from.
#[derive(Clone, Copy)]
pub(crate) enum Source {
    /// The key is as it was at the beginning.
    Beginning,
    /// The access with this index writes it.
    Written(usize),
    /// Nobody writes it.
    Nobody,
}

/// Chooses the source of each access: the last one before it in the list that writes the value. If
/// there is none, the first one after it, or the beginning if the key must be absent.
pub(crate) fn choose_sources(alloc: Global, accesses: &[Access]) -> Result<Choice, AllocError>
    ensures { IfOk result (IsChoice accesses.now) }
{
    let mut firsts = None;
    let mut latest = HashMap::new(alloc);
    let mut sourced = Vec::with_capacity(alloc, accesses.len())?;
    for access in accesses {
        let index = sourced.len();
        let found = source_of(alloc, accesses, &mut firsts, &latest, access)?;
        let source = match found {
            Source::Beginning => None,
            Source::Written(writer) => Some(writer),
            Source::Nobody => return Ok(Choice::Unwritten(*access)),
        };
        sourced.push(with_source(*access, source))?;
        if access.need != access.left {
            latest.insert((access.key, access.left), index)?;
        }
    }
    Ok(Choice::Sourced(sourced))
}

/// The access with this source.
fn with_source(access: Access, source: Option<usize>) -> Access
    ensures { result ≡ record access { source = source } }
{
    Access {
        txn: access.txn,
        key: access.key,
        need: access.need,
        left: access.left,
        source,
    }
}

/// The source of an access. The table of first accesses is made when a value is needed that is not
/// written before it in the list: few are.
fn source_of(
    alloc: Global,
    accesses: &[Access],
    firsts: &mut Option<HashMap<Version, usize>>,
    latest: &HashMap<Version, usize>,
    access: &Access,
) -> Result<Source, AllocError>
    requires latest { LatestWrite accesses.now latest.now }
    requires told { IfSome firsts.old (AreFirst accesses.now) }
    ensures source { IfOk result (IsSourcing accesses.now access.now) }
    ensures told { OnOk result (IfSome firsts.new (AreFirst accesses.now)) }
{
    if let Some(index) = latest.get(&(access.key, access.need)) {
        return Ok(Source::Written(*index));
    }
    if access.need.is_none() {
        return Ok(Source::Beginning);
    }
    let made = match firsts.take() {
        Some(made) => made,
        None => make_firsts(alloc, accesses)?,
    };
    let source = later_source(&made, access);
    *firsts = Some(made);
    Ok(source)
}

/// The first access that writes what an access needs, if there is one.
fn later_source(firsts: &HashMap<Version, usize>, access: &Access) -> Source
    requires { IsSome access.now.need }
    ensures { (accesses : List Access) → AreFirst accesses firsts.now
        → IsSourcing accesses access.now result }
{
    match firsts.get(&(access.key, access.need)) {
        Some(index) => Source::Written(*index),
        None => Source::Nobody,
    }
}

/// The index of the first access that writes each value.
fn make_firsts(alloc: Global, accesses: &[Access]) -> Result<HashMap<Version, usize>, AllocError>
    ensures { IfOk result (AreFirst accesses.now) }
{
    let mut firsts = HashMap::new(alloc);
    for index in 0..accesses.len() {
        let access = accesses[index];
        if access.need != access.left {
            note_first(&mut firsts, (access.key, access.left), index)?;
        }
    }
    Ok(firsts)
}

/// Notes that the access with this index writes the value, if no other one does.
fn note_first(
    firsts: &mut HashMap<Version, usize>,
    version: Version,
    index: usize,
) -> Result<(), AllocError>
    ensures { OnOk result (NotesFirst version index firsts.old firsts.new) }
{
    if !firsts.contains_key(&version) {
        firsts.insert(version, index)?;
    }
    Ok(())
}

/// Searches for an order of so many transactions by at most so many branches, and chooses the sources
/// by it. `since` says of each
/// transaction how many had committed when it began. Returns `None` if no order is found.
pub(crate) fn find_sources(
    alloc: Global,
    most_branches: usize,
    count: usize,
    since: &[usize],
    accesses: &[Access],
) -> Result<Option<Vec<Access>>, AllocError>
    ensures { IfOk result (λ found. IfSome found (λ sourced.
        IsSourced accesses.now sourced.items)) }
{
    match find_writers(alloc, most_branches, count, since, accesses)? {
        Some(writers) => with_writers(alloc, accesses, &writers),
        None => Ok(None),
    }
}

/// The accesses, each with the transaction of its writer as its source. A writer is the index of an
/// access. Returns `None` if a writer does not write what is needed.
fn with_writers(
    alloc: Global,
    accesses: &[Access],
    writers: &[Option<usize>],
) -> Result<Option<Vec<Access>>, AllocError>
    ensures { IfOk result (λ found. IfSome found (λ sourced.
        IsSourced accesses.now sourced.items)) }
{
    let mut sourced = Vec::with_capacity(alloc, accesses.len())?;
    for access in accesses {
        let Some(source) = source_by(accesses, access, writers.get(sourced.len())) else {
            return Ok(None);
        };
        sourced.push(with_source(*access, source))?;
    }
    Ok(Some(sourced))
}

/// The source of an access, if this is its writer.
fn source_by(
    accesses: &[Access],
    access: &Access,
    writer: Option<&Option<usize>>,
) -> Option<Option<usize>>
    ensures { IfSome result (SourceIs accesses.now access.now) }
{
    let Some(index) = *writer? else {
        return if access.need.is_none() {
            Some(None)
        } else {
            None
        };
    };
    let by = accesses.get(index)?;
    if by.key == access.key && by.left == access.need && by.need != by.left {
        Some(Some(index))
    } else {
        None
    }
}
