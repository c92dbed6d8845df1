//! The head of a file: every file of words begins with its edition, which is 1, and then has a word for each rate. What
//! stands behind the rates is left to whoever reads the file.
#![tactic(auto)]

ghost use Rattle.std.specs.Prelude.{◌≡◌, ◌+◌, ◌≤◌, length, IfOk};
ghost use Rattle.heading.specs.declared.HeadError.TheVariants.{FirstWord, NoMemory};
ghost use Rattle.heading.specs.Heading.{rates_in};
ghost use Rattle.heading.specs.Heads.{Edition, ReadAs};

use std::alloc::{AllocError, Global};
use words::fault::WordFault;
use words::unread::Unread;
use words::{Kind, is_kind, payload_of};

/// The head of a file.
#[derive(Drop)]
pub struct Head<'a> {
    /// The rates as they stand, whether or not they make a table.
    pub rates: Vec<u32>,
    /// The words behind the rates. The first of them, if there is one, is no rate.
    pub rest: Unread<'a>,
}

/// Why no head came of the words.
#[derive(Clone, Copy, PartialEq, Eq, Debug)]
pub enum HeadError {
    /// The first word is not edition 1, or there is none. Nothing else can be wrong with a head.
    FirstWord(WordFault),
    NoMemory,
}

impl From<WordFault> for HeadError {
    ghost from_gives = { λ fault r. r ≡ FirstWord fault };

    fn from(fault: WordFault) -> HeadError {
        HeadError::FirstWord(fault)
    }
}

impl From<AllocError> for HeadError {
    ghost from_gives = { λ _ r. r ≡ NoMemory };

    fn from(_e: AllocError) -> HeadError {
        HeadError::NoMemory
    }
}

/// The first word is that of edition 1.
fn check_edition(words: &[u32]) -> Result<(), WordFault>
    ensures { Edition words.now result }
{
    match words {
        [] => Err(WordFault::EndsEarly),
        [1, ..] => Ok(()),
        _ => Err(WordFault::Misplaced),
    }
}

/// The rates at the front of the words, up to the first word of another kind.
fn rates_at_front(heap: Global, words: &[u32]) -> Result<Vec<u32>, AllocError>
    ensures { IfOk result (λ rates. rates.items ≡ rates_in words.now) }
{
    words
        .iter()
        .take_while(|word| is_kind(**word, Kind::Rate))
        .map(|word| payload_of(*word))
        .collect(heap)
}

/// Reads the head of a file.
pub fn read_head(heap: Global, words: &[u32]) -> Result<Head<'_>, HeadError>
    ensures read { ReadAs words.now result }
    ensures counted { IfOk result (λ head. 1 + length head.rates.items + length head.rest.words.now ≡ length words.now) }
    ensures placed { IfOk result (λ head. head.rest.place ≡ 1 + length head.rates.items) }
{
    check_edition(words)?;
    let file = Unread::all(words);
    let rates = rates_at_front(heap, file.behind(1).words())?;
    let rest = file.behind(1 + rates.len());
    Ok(Head { rates, rest })
}
