// PROMISES each-change-has-an-inverse: there_and_back, either_order
//! The laws of the table, stated as contracts of functions that do nothing. One law is about a
//! change followed by its inverse, the other about two inverses of different keys in either order.
//! Both follow from the contracts of `apply` and `take_back` and need no code, so they are apart
//! from the table.

ghost use Rattle.std.specs.Prelude.{◌≡◌, ◌≢◌, ℕ, Option, None};
ghost use Rattle.txn_words.specs.declared.op.Op.{Op};
ghost use Rattle.map_ops.specs.declared.job.MapJob.{MapJob};
ghost use Rattle.map_ops.specs.TableAt.{KeepsSpares, TableAt, content, regular};
ghost use Rattle.map_ops.specs.Jobs.{key_of_job, spare_of_job};
ghost use Rattle.map_ops.specs.Changes.{Applies, AreApart, ShowsAfter, TakesBack};
ghost use Rattle.map_ops.specs.Laws.{GoesAndReturns, IsInOrder, TakesBackTwo};

/// A change followed by its inverse leaves the content unchanged. It also leaves the list of pairs
/// unchanged, because this list is always the pairs of the content in order (clause `ordered` of
/// `Table::size`). An operation without a job leaves the content unchanged too.
///
/// The function does nothing. Its contract states the law, which follows from the contracts of
/// `Table::apply` and `Table::take_back`.
pub fn there_and_back()
    ensures content { (old new : TableAt) → GoesAndReturns old new → content new ≡ content old }
    ensures regular { (old new : TableAt) → GoesAndReturns old new
        → IsInOrder old → IsInOrder new → regular new ≡ regular old }
    ensures no_job { (old new : TableAt) (op : Op) (reply : Option ℕ)
        → Applies old new op reply None → content new ≡ content old }
{}

/// Two jobs of different keys may run in either order. After both orders the content and the list
/// of pairs are the same, and the same spares are out. Clause `due` says: if the spares of the two
/// jobs are at different places, the second job may still run after the first.
///
/// The function does nothing. Its contract states the law, which follows from the contract of
/// `Table::take_back`.
pub fn either_order()
    ensures due { (old new : TableAt) (first second : MapJob)
        → key_of_job first ≢ key_of_job second → AreApart (spare_of_job first) (spare_of_job second)
        → ShowsAfter second old → TakesBack old new first → ShowsAfter second new }
    ensures content { (old one other : TableAt) (first second : MapJob)
        → key_of_job first ≢ key_of_job second
        → TakesBackTwo old one first second → TakesBackTwo old other second first
        → content one ≡ content other }
    ensures regular { (old one other : TableAt) (first second : MapJob)
        → key_of_job first ≢ key_of_job second
        → TakesBackTwo old one first second → TakesBackTwo old other second first
        → IsInOrder one → IsInOrder other → regular one ≡ regular other }
    ensures spares { (old one other : TableAt) (first second : MapJob)
        → TakesBackTwo old one first second → TakesBackTwo old other second first
        → KeepsSpares other one }
{}
