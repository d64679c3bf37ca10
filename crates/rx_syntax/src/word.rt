//! Words: ASCII text that is shown as it was written.

use std::alloc::{AllocError, AllocFailed, Global};
use std::marker::Model;

/// Want of memory.
#[derive(Clone, Copy, Debug, PartialEq, Eq)]
pub struct NoMemory;

impl From<AllocError> for NoMemory {
    fn from(_: AllocError) -> Self {
        NoMemory
    }
}

impl<T: Drop> From<AllocFailed<T>> for NoMemory {
    fn from(_: AllocFailed<T>) -> Self {
        NoMemory
    }
}

/// A name or a reserved word, as it is written. Contracts see the list of its bytes.
#[derive(Debug, Drop)]
pub struct Word {
    text: String,
}

impl Model for Word {
    ghost use Rattle.std.specs.Prelude.{ℕ, List, string_bytes};
    ghost use Rattle.std.specs.Str.{IsAscii};

    ghost Value = { List ℕ };

    ghost view = { λ word. string_bytes word.text };

    ghost invariant = { λ word. IsAscii (string_bytes word.text) };
}

impl Word {
    ghost use Rattle.std.specs.Prelude.{◌≡◌, IfOk};
    ghost use Rattle.std.specs.Str.{IsAscii, bytes_eq, str_eq_ignore_ascii_case};

    /// The word of this text.
    pub fn make(alloc: Global, text: &str) -> Result<Word, NoMemory>
        requires { IsAscii text.now }
        ensures { IfOk result (λ word. word ≡ text.now) }
    {
        Ok(Word {
            text: String::from_str(alloc, text)?,
        })
    }

    /// The word of these bytes.
    pub(crate) fn from_bytes(alloc: Global, bytes: &[u8]) -> Result<Word, NoMemory>
        requires { IsAscii bytes.now }
        ensures { IfOk result (λ word. word ≡ bytes.now) }
    {
        match str::from_utf8(bytes) {
            Ok(text) => Word::make(alloc, text),
            Err(_) => unreachable!(),
        }
    }

    /// A second word with the same text.
    pub fn copy(&self, alloc: Global) -> Result<Word, NoMemory>
        ensures { IfOk result (λ word. word ≡ self.now) }
    {
        Ok(Word {
            text: String::from_str(alloc, self.text.as_str())?,
        })
    }

    /// The text of the word.
    pub fn as_str(&self) -> &str
        ensures { result.now ≡ self.now }
    {
        self.text.as_str()
    }

    /// Whether it is the same word, but for ASCII case.
    pub fn same(&self, other: &Word) -> bool
        ensures { result ≡ str_eq_ignore_ascii_case self.now other.now }
    {
        self.is(other.as_str())
    }

    /// Whether it is this text, but for ASCII case.
    pub fn is(&self, text: &str) -> bool
        ensures { result ≡ str_eq_ignore_ascii_case self.now text.now }
    {
        self.text.as_str().eq_ignore_ascii_case(text)
    }

    /// Whether it is written just so.
    pub fn is_written(&self, text: &str) -> bool
        ensures { result ≡ bytes_eq self.now text.now }
    {
        self.text.as_bytes() == text.as_bytes()
    }
}
