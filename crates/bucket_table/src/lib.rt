//! The buckets of a hash table whose keys are in one split-ordered list (Shalev and Shavit,
//! "Split-Ordered Lists", 2006, section 2). A bucket is initialised in steps, between which other
//! callers may act.
//!
//! A bucket is *stored* once the table knows its dummy, the node that precedes all its keys. Bucket
//! 0 always is, every other bucket only after its parent. A key is sought from its bucket's dummy
//! or, until that is stored, from the nearest stored ancestor's. A *helper* stores a bucket in
//! three steps: it seeks the dummy's position, links the dummy unless it is linked, and stores it.
//! Here bucket 2 is not stored, so key 2 is sought from dummy 0:
//!
//! ```text
//!  buckets   0: dummy 0     1: dummy 1     2: -     3: dummy 3
//!  list      dummy 0   key 4   key 2   dummy 1   key 1   dummy 3
//! ```
//!
//! A contract sees a `Directory`: the size, the place of each stored bucket's dummy, and each
//! helper's state. The size and the largest size are powers of two, and no bucket is stored before
//! its parent (`IsSound`). Buckets are *at home* (`IsHome`) if each stored bucket names its linked
//! dummy, and each helper's cursor or dummy is of this list, for its bucket. Each call keeps them
//! so, and so does any change of the list (`still_home`). The state before a call determines its
//! answer, unless it is `NoMemory` (`Answers`). A refused call changes nothing.
//!
//! Calls take constant time and no memory unless they say otherwise.
#![tactic(auto)]

mod answer;
mod buckets;
mod fill;
mod helper;
mod segments;

pub use answer::{Double, InitLink, InitRefusal, InitSeek};
pub use buckets::Buckets;
pub use helper::Helper;
