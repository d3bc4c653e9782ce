//! Judges lines that arrive in chunks; `reading.rt` calls the reader. A chunk may end anywhere, so
//! contracts speak of the bytes of all chunks together (`TookIn`). Between two chunks, a `Watcher`
//! keeps at most `MAX_LINE` of these bytes: the start of an unfinished line.
ghost use Rattle.std.specs.Prelude.{◌≡◌, ◌++◌, [], ◌∷◌, ℕ, List, Option, Some, None, Ok, IfOk, IfErr, OnOk, IfSome, MatchResult};
ghost use Rattle.std.specs.List.{position};
ghost use Rattle.txn_words.specs.declared.entry.Entry.{Entry};
ghost use Rattle.txn_files.specs.EntryLine.{entry_on};
ghost use Rattle.judge_engine.specs.declared.basis.Basis.{Basis};
ghost use Rattle.judge_engine.specs.declared.fault.Fault.TheVariants as faults;
ghost use Rattle.judge_engine.specs.Bases.{HasStripes, IsFedBy, IsLegalBy};
ghost use Rattle.judge_engine.specs.LineReads.{ReadsLine};
ghost use Rattle.judge_engine.specs.Breaks.{is_break, IsUnbroken};
ghost use Rattle.judge_engine.specs.Watching.{IsJudgedLines, IsUnjudged};

use crate::basis::Basis;
use crate::fault::Fault;
use crate::judge::Judge;
use history_check::Verdict;
use piece_files::FileFault;
use std::alloc::{AllocError, Global};
use txn_files::{MAX_LINE, Scratch, entry_on};

/// The index of the first line feed.
fn first_break(bytes: &[u8]) -> Option<usize>
    ensures { result ≡ position is_break bytes.now }
{
    bytes.iter().position(|byte| *byte == b'\n')
}

/// Feeds the judge the entry of a line, unless the line is blank. If the line is refused, returns
/// the fault.
fn read_line(
    judge: &mut Judge,
    scratch: &mut Scratch<Global>,
    line: &[u8],
) -> Result<Option<FileFault>, Fault>
    ensures ok { IfOk result (λ fault. (basis : Basis) (h : List Entry) → IsFedBy basis h judge.old →
        ReadsLine basis h (entry_on line.now) fault judge.new) }
    ensures err { IfErr result (λ fault. fault ≡ faults.NoMemory) }
{
    match entry_on(line, scratch) {
        Ok(Some(entry)) => {
            judge.feed(&entry)?;
            Ok(None)
        }
        Ok(None) => Ok(None),
        Err(FileFault::NoMemory) => Err(Fault::NoMemory),
        Err(fault) => Ok(Some(fault)),
    }
}

/// Reads lines that arrive in parts of any length. A watcher keeps the part of the present line
/// that has arrived, the number and the fault of the first line that was refused, and a judge that
/// was fed the entries so far. After a refused line, further bytes are ignored.
#[derive(Drop)]
pub(crate) struct Watcher {
    judge: Judge,
    scratch: Scratch<Global>,
    part: Vec<u8>,
    number: u64,
    refused: Option<(u64, FileFault)>,
}

impl Watcher {
    ghost use Rattle.judge_engine.specs.Watchers.{TookIn};

    /// A watcher before the first byte.
    pub(crate) fn new(alloc: Global, basis: Basis) -> Result<Watcher, AllocError>
        requires { HasStripes basis }
        ensures { IfOk result (TookIn basis []) }
    {
        Ok(Watcher {
            judge: Judge::new(alloc, basis)?,
            scratch: Scratch::new(alloc),
            part: Vec::new(alloc),
            number: 1,
            refused: None,
        })
    }

    /// Adds bytes to the present line. If the line becomes too long, it is refused.
    fn hold(&mut self, piece: &[u8]) -> Result<(), Fault>
        requires { IsUnbroken piece.now }
        ensures ok { OnOk result ((basis : Basis) (bytes : List ℕ) → TookIn basis bytes self.old →
            TookIn basis (bytes ++ piece.now) self.new) }
        ensures err { IfErr result (λ fault. fault ≡ faults.NoMemory) }
    {
        if self.refused.is_some() {
            return Ok(());
        }
        if self.part.len().saturating_add(piece.len()) > MAX_LINE {
            self.refused = Some((self.number, FileFault::Limit));
            return Ok(());
        }
        self.part.extend_from_slice(piece)?;
        Ok(())
    }

    /// Reads the present line, whose last part is `rest`. If an earlier part of the line was kept,
    /// the whole line is copied, unless it is too long.
    fn read_rest(&mut self, rest: &[u8]) -> Result<Option<FileFault>, Fault>
        ensures ok { IfOk result (λ fault. (basis : Basis) (h : List Entry) →
            IsFedBy basis h self.old.judge →
            ReadsLine basis h (entry_on (self.old.part.items ++ rest.now)) fault self.new.judge) }
        ensures part { OnOk result (self.new.part.items ≡ []) }
        ensures others { OnOk result (self.new.refused ≡ self.old.refused) }
        ensures err { IfErr result (λ fault. fault ≡ faults.NoMemory) }
    {
        if self.part.is_empty() {
            return read_line(&mut self.judge, &mut self.scratch, rest);
        }
        if self.part.len().saturating_add(rest.len()) > MAX_LINE {
            self.part.clear();
            return Ok(Some(FileFault::Limit));
        }
        self.part.extend_from_slice(rest)?;
        let refused = read_line(&mut self.judge, &mut self.scratch, &self.part)?;
        self.part.clear();
        Ok(refused)
    }

    /// Reads the last part of the present line, and its line feed.
    fn end_line(&mut self, piece: &[u8]) -> Result<(), Fault>
        requires { IsUnbroken piece.now }
        ensures line { OnOk result ((basis : Basis) (bytes : List ℕ) → TookIn basis bytes self.old →
            TookIn basis (bytes ++ (piece.now ++ 10 ∷ [])) self.new) }
        ensures empty { OnOk result (self.new.refused ≡ None → self.new.part.items ≡ []) }
        ensures err { IfErr result (λ fault. fault ≡ faults.NoMemory) }
    {
        if self.refused.is_some() {
            return Ok(());
        }
        let number = self.number;
        let next = number.checked_add(1).ok_or(AllocError)?;
        if let Some(fault) = self.read_rest(piece)? {
            self.refused = Some((number, fault));
            return Ok(());
        }
        self.number = next;
        Ok(())
    }

    /// Reads the next bytes of the input.
    ///
    /// # Errors
    ///
    /// `NoMemory` if memory is refused. The watcher is of no use after that.
    ///
    /// # Cost
    ///
    /// The cost of the judge for each entry, and time in proportion to the number of bytes. Memory
    /// for the judge and for one line.
    pub(crate) fn take_in(&mut self, chunk: &[u8]) -> Result<(), Fault>
        ensures ok { OnOk result ((basis : Basis) (bytes : List ℕ) → TookIn basis bytes self.old →
            TookIn basis (bytes ++ chunk.now) self.new) }
        ensures err { IfErr result (λ fault. fault ≡ faults.NoMemory) }
    {
        let mut rest = chunk;
        'lines: while let Some(at) = first_break(rest) {
            self.end_line(&rest[..at])?;
            rest = &rest[at + 1..];
        }
        self.hold(rest)
    }

    /// If an entry is bad, returns the verdict; no further byte can change it. Returns `None` if no
    /// entry is bad and no line is refused.
    ///
    /// # Errors
    ///
    /// `Line` if no entry is bad, and a line is refused.
    ///
    /// # Cost
    ///
    /// Constant time; takes no memory.
    #[tactic(auto, using(crate::proofs::Settled::legal_said))]
    pub(crate) fn verdict_so_far(&self) -> Result<Option<Verdict>, Fault>
        ensures settled { (basis : Basis) (bytes more : List ℕ) → TookIn basis bytes self.now →
            MatchResult result
            (λ found. IfSome found (IsJudgedLines basis (bytes ++ more)))
            (IsUnjudged basis (bytes ++ more)) }
        ensures open { result ≡ Ok None → self.now.refused ≡ None }
        ensures legal { result ≡ Ok None → (basis : Basis) (h : List Entry) →
            IsFedBy basis h self.now.judge → IsLegalBy basis h }
    {
        let verdict = self.judge.verdict();
        match (verdict, self.refused) {
            (Verdict::Illegal { .. }, _) => Ok(Some(verdict)),
            (Verdict::Legal { .. }, Some((number, fault))) => Err(Fault::Line(number, fault)),
            (Verdict::Legal { .. }, None) => Ok(None),
        }
    }

    /// Ends the input, and returns the verdict. A last line without its line feed is read as a
    /// line.
    ///
    /// # Errors
    ///
    /// `Line` if no entry is bad, and a line is refused; `NoMemory` if memory is refused.
    ///
    /// # Cost
    ///
    /// The cost of reading one line.
    pub(crate) fn end(&mut self) -> Result<Verdict, Fault>
        ensures { (basis : Basis) (bytes : List ℕ) → TookIn basis bytes self.old →
            MatchResult result (IsJudgedLines basis bytes) (IsUnjudged basis bytes) }
    {
        self.end_line(&[])?;
        match self.verdict_so_far()? {
            Some(verdict) => Ok(verdict),
            None => Ok(self.judge.verdict()),
        }
    }
}
