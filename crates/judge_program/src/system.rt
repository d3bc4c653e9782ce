//! The system of a process: the `Process` of `program_system`, and standard input under the name
//! `-`. Only this module needs a process. The rest of the crate works with any `System`. The
//! toolchain promises nothing about a process's words and files, so no contract says what they are.
use program_system::System;
use std::alloc::Global;
use std::env::Env;
use std::fs::Files;
use std::io::{self, Input, Read};

/// A file of the process's system, or its standard input.
#[derive(Drop)]
pub enum ProcessInput<F, I> {
    /// A file.
    File(F),
    /// Standard input.
    Standard(I),
}

impl<F: Read, I: Read> Read for ProcessInput<F, I> {
    fn read(&mut self, buf: &mut [u8]) -> io::Result<usize> {
        match self {
            ProcessInput::File(file) => file.read(buf),
            ProcessInput::Standard(input) => input.read(buf),
        }
    }
}

/// The system that a process runs on, with standard input as the file `-`.
#[derive(Clone, Copy, Debug)]
pub struct Process<'a, R> {
    rt: &'a R,
    files: program_system::Process<'a, R>,
}

impl<'a, R> Process<'a, R> {
    /// Returns the system to which this runtime gives access. Takes constant time.
    pub fn new(rt: &'a R) -> Process<'a, R> {
        let files = program_system::Process::new(rt);
        Process { rt, files }
    }
}

impl<R: Env + Files + Input + AllocGlobal> System for Process<'_, R> {
    type Input = ProcessInput<R::File, R::Reader>;

    fn words(&self, alloc: Global) -> io::Result<Vec<String>> {
        self.files.words(alloc)
    }

    fn open(&self, name: &str) -> io::Result<ProcessInput<R::File, R::Reader>> {
        if name == "-" {
            return Ok(ProcessInput::Standard(self.rt.reader()));
        }
        let file = self.files.open(name)?;
        Ok(ProcessInput::File(file))
    }
}
