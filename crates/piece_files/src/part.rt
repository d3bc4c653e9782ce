//! The names for the pieces of each kind of file. A fault prints such a name before an index. This
//! crate knows nothing else of steps, scripts and entries: the crates above define them, and each
//! kind of pieces says which name its pieces have.
/// What a file's pieces are called. A fault gives this name and the index of a piece.
#[derive(Clone, Copy, Debug, PartialEq, Eq)]
pub enum Part {
    /// A step of a step file.
    Step,
    /// A script of a script file.
    Script,
    /// An entry of a history file.
    Entry,
}
