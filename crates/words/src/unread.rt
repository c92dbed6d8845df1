//! Words that are still to be read.
ghost use Rattle.std.specs.Prelude.{◌≡◌, ◌+◌, ◌^◌, ◌<◌, min, length, drop};
ghost use Rattle.words.specs.Words.{begins};

use crate::{Kind, is_kind};

/// Words that are still to be read, and the place of the first of them, counted from 0 at the front of the file.
#[derive(Clone, Copy)]
pub struct Unread<'a> {
    words: &'a [u32],
    place: usize,
    ghost counted: { place + length words.now < 2 ^ 64 },
}

impl<'a> Unread<'a> {
    /// All the words of a file.
    pub fn all(words: &'a [u32]) -> Unread<'a>
        ensures words { result.words.now ≡ words.now }
        ensures place { result.place ≡ 0 }
    {
        Unread { words, place: 0 }
    }

    /// The words.
    pub fn words(&self) -> &'a [u32]
        ensures { result.now ≡ self.now.words.now }
    {
        self.words
    }

    /// The place of the first word; where none is left, the place behind the last.
    pub fn place(&self) -> usize
        ensures { result ≡ self.now.place }
    {
        self.place
    }

    /// The place behind the last word.
    pub fn end(&self) -> usize
        ensures { result ≡ self.now.place + length self.now.words.now }
    {
        self.nth_place(self.words.len())
    }

    /// The place of the n-th word, counted from 0; where there are not so many, the place behind the last.
    pub fn nth_place(&self, n: usize) -> usize
        ensures { result ≡ self.now.place + min n (length self.now.words.now) }
    {
        n.min(self.words.len()) + self.place
    }

    /// What is left behind the first n words; where there are not so many, nothing.
    pub fn behind(&self, n: usize) -> Unread<'a>
        ensures words { result.words.now ≡ drop n self.now.words.now }
        ensures place { result.place ≡ self.now.place + min n (length self.now.words.now) }
    {
        Unread {
            words: self.words.get(n..).unwrap_or_default(),
            place: self.nth_place(n),
        }
    }

    /// Whether a word of this kind comes next.
    pub fn begins_with(&self, kind: Kind) -> bool
        ensures { result ≡ begins kind self.now.words.now }
    {
        matches!(self.words, [word, ..] if is_kind(*word, kind))
    }
}
