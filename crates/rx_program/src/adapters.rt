//! The real world as the program sees it: standard input and output, and the folder in which the program runs.
//!
//! They are trusted to hand on what the operating system gives and takes. Each loops over one real call while that
//! call is interrupted, counts each fault, and tells no content.
ghost use Rattle.std.specs.Prelude.{None, IfSome, ◌≤◌, length};

use rx_io::{Failed, Fetched, ReadFault, Shelf, ShelfFault, Sink, Source, TEXT_LIMIT, read_all};
use std::alloc::Global;
use std::fs;
use std::fs::File;
use std::io::{ErrorKind, Read, Stdin, Stdout, Write};

// How many bytes were read; None after a fault.
fn read_once<R: Read>(from: &mut R, into: &mut [u8]) -> Option<usize>
    ensures { IfSome result (λ n. n ≤ length into.old) }
{
    for _ in 0..u64::MAX {
        match from.read(into) {
            Ok(count) => return Some(count),
            Err(error) => {
                if error.kind() != ErrorKind::Interrupted {
                    return None;
                }
            }
        }
    }
    None
}

// How many bytes were written; None after a fault.
fn write_once<W: Write>(to: &mut W, from: &[u8]) -> Option<usize>
    ensures { IfSome result (λ n. n ≤ length from.now) }
{
    for _ in 0..u64::MAX {
        match to.write(from) {
            Ok(count) => return Some(count),
            Err(error) => {
                if error.kind() != ErrorKind::Interrupted {
                    return None;
                }
            }
        }
    }
    None
}

/// Standard input.
#[derive(Drop)]
pub struct StdSource {
    stdin: Stdin,
    faults: u64,
}

impl StdSource {
    pub fn make(stdin: Stdin) -> StdSource {
        StdSource { stdin, faults: 0 }
    }
}

impl Source for StdSource {
    ghost left = { λ _. None };

    ghost faults = { λ source. source.faults };

    fn read(&mut self, into: &mut [u8]) -> Result<usize, Failed> {
        match read_once(&mut self.stdin, into) {
            Some(count) => Ok(count),
            None => {
                self.faults = self.faults.saturating_add(1);
                Err(Failed)
            }
        }
    }
}

/// Standard output. A write that takes no byte of some is a fault.
#[derive(Drop)]
pub struct StdSink {
    stdout: Stdout,
    faults: u64,
}

impl StdSink {
    pub fn make(stdout: Stdout) -> StdSink {
        StdSink { stdout, faults: 0 }
    }
}

impl Sink for StdSink {
    ghost written = { λ _. None };

    ghost faults = { λ sink. sink.faults };

    fn write(&mut self, from: &[u8]) -> Result<usize, Failed> {
        if let Some(count) = write_once(&mut self.stdout, from) {
            if count > 0 || from.is_empty() {
                return Ok(count);
            }
        }
        self.faults = self.faults.saturating_add(1);
        Err(Failed)
    }
}

// A file that was opened.
#[derive(Drop)]
struct FileSource {
    file: File,
    faults: u64,
}

impl Source for FileSource {
    ghost left = { λ _. None };

    ghost faults = { λ source. source.faults };

    fn read(&mut self, into: &mut [u8]) -> Result<usize, Failed> {
        match read_once(&mut self.file, into) {
            Some(count) => Ok(count),
            None => {
                self.faults = self.faults.saturating_add(1);
                Err(Failed)
            }
        }
    }
}

/// The folder in which the program runs: the text of a package is the file of its name with `.rflx`. A file that is
/// not there is absent; any other that cannot be opened is a fault.
#[derive(Drop)]
pub struct FolderShelf<'a> {
    rt: &'a HostRuntime,
    faults: u64,
}

impl<'a> FolderShelf<'a> {
    pub fn make(rt: &'a HostRuntime) -> FolderShelf<'a> {
        FolderShelf { rt, faults: 0 }
    }
}

impl Shelf for FolderShelf<'_> {
    ghost texts = { λ _. None };

    ghost faults = { λ shelf. shelf.faults };

    fn fetch(
        &mut self,
        alloc: Global,
        name: &str,
        into: &mut Vec<u8>,
    ) -> Result<Fetched, ShelfFault> {
        into.clear();
        let Ok(path) = format!(in alloc; "{name}.rflx") else {
            return Err(ShelfFault::NoMemory);
        };
        let file = match fs::open(self.rt, path.as_str()) {
            Ok(file) => file,
            Err(error) => {
                if error.kind() == ErrorKind::NotFound {
                    return Ok(Fetched::Absent);
                }
                self.faults = self.faults.saturating_add(1);
                return Err(ShelfFault::Failed);
            }
        };
        let mut source = FileSource { file, faults: 0 };
        match read_all(alloc, &mut source, TEXT_LIMIT) {
            Ok(bytes) => {
                *into = bytes;
                Ok(Fetched::Text)
            }
            Err(ReadFault::TooLong) => Ok(Fetched::TooLong),
            Err(ReadFault::NoMemory) => Err(ShelfFault::NoMemory),
            Err(ReadFault::Failed) => {
                self.faults = self.faults.saturating_add(1);
                Err(ShelfFault::Failed)
            }
        }
    }
}
