//! What can be wrong with a word by itself, whatever file it stands in.
ghost use Rattle.std.specs.Prelude.{◌≡◌};
ghost use Rattle.words.specs.Fault.{word_number};

/// A word that is wrong by itself.
#[derive(Clone, Copy, PartialEq, Eq, Debug)]
pub enum WordFault {
    /// Its kind cannot stand here, it is another edition, a wrong end, or a word after the end.
    Misplaced,
    /// The words end where another one should stand.
    EndsEarly,
}

// Methods and no trait of numbered causes: each type lists its own cases, and no caller takes any of them.
impl WordFault {
    /// 9 for a word that cannot stand here, 10 for words that end early.
    pub fn number(&self) -> u32
        ensures { result ≡ word_number self.now }
    {
        match self {
            WordFault::Misplaced => 9,
            WordFault::EndsEarly => 10,
        }
    }
}
