//! The system that a program runs on, as a trait, and `Process`, the system that a process runs on.
//! Programs are written for the trait. Their contracts say more if the words and the files are
//! known. The toolchain promises nothing about a process's words and files, so those of `Process`
//! are unknown.
ghost use Rattle.std.specs.Prelude.{◌≡◌, ℕ, List, Option, Some, None, IfOk, IfErr, IfSome, map};
ghost use Rattle.std.specs.String.{string_bytes};
ghost use Rattle.std.specs.IoError.{error_kind};
ghost use Rattle.std.specs.declared.io.ErrorKind.TheVariants.{OutOfMemory};

use std::alloc::{AllocError, Global};
use std::env::Env;
use std::fs::Files;
use std::io::Read;
use std::{env, fs, io};

/// The services that a program needs of its system: the words of its command line, and files.
pub trait System {
    /// A file that is open for reading.
    type Input: Read + Drop;

    /// The words of the command line, if they are known.
    ghost spoken: { Self → Option (List (List ℕ)) } = { λ _. None };

    /// The bytes of the file with this name, if they are known.
    ghost bytes: { Self → List ℕ → Option (List ℕ) } = { λ _ _. None };

    /// The words of the command line. The first word is the program's name.
    ///
    /// # Errors
    ///
    /// - `OutOfMemory` if memory is refused.
    /// - An error of another kind if a word is not text. This cannot happen if the words are known.
    ///
    /// # Cost
    ///
    /// Depends on the system.
    fn words(&self, alloc: Global) -> io::Result<Vec<String>>
        ensures words { IfOk result (λ words. IfSome (spoken self.now)
            (λ known. map string_bytes words.items ≡ known)) }
        ensures err { IfErr result (λ error. IfSome (spoken self.now)
            (λ known. error_kind error ≡ OutOfMemory)) };

    /// Opens the file with this name for reading.
    ///
    /// # Errors
    ///
    /// - `OutOfMemory` if memory is refused.
    /// - An error of another kind if the file cannot be opened.
    ///
    /// # Cost
    ///
    /// Depends on the system.
    fn open(&self, name: &str) -> io::Result<Self::Input>
        ensures { IfOk result (λ input. IfSome (bytes self.now name.now)
            (λ known. Self.Input.remaining input ≡ Some known)) };
}

/// The system that a process runs on.
#[derive(Clone, Copy, Debug)]
pub struct Process<'a, R> {
    rt: &'a R,
}

impl<'a, R> Process<'a, R> {
    /// The system of this process, which is used through the runtime `rt`.
    pub fn new(rt: &'a R) -> Process<'a, R> {
        Process { rt }
    }
}

impl<R: Env + Files + AllocGlobal> System for Process<'_, R> {
    type Input = R::File;

    fn words(&self, alloc: Global) -> io::Result<Vec<String>> {
        let words: Result<Vec<String>, AllocError> = env::args(self.rt)?.collect(alloc);
        Ok(words?)
    }

    fn open(&self, name: &str) -> io::Result<R::File> {
        fs::open(self.rt, name)
    }
}
