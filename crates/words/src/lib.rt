//! Words of 32 bits, as sheets and traces are made of: the top four bits are the kind, the rest is the payload.
//! In files a word is four bytes, the highest first.
#![tactic(auto)]

ghost use Rattle.std.specs.Prelude.{◌≡◌, ◌/◌, ◌%◌, ◌^◌, IfOk};
ghost use Rattle.words.specs.Words.{number, is, payload, whole};

use std::alloc::{AllocError, Global};

pub mod fault;
pub mod unread;

/// What a word says, by its top four bits.
#[derive(Clone, Copy, PartialEq, Eq, Debug)]
pub enum Kind {
    /// The first word of a file.
    Edition,
    /// The release tick of a cue; in a trace the number of the released job.
    Release,
    Deadline,
    Budget,
    /// The actual units of a cue; in a trace the ticks gone by.
    Spent,
    /// A job was set aside.
    Aside,
    Start,
    Resume,
    Level,
    Bound,
    Finished,
    Cut,
    Failed,
    /// The code of a failed job.
    Code,
    /// The rate of a level.
    Rate,
    /// The last word of a file.
    End,
}

/// The largest payload.
pub const PAYLOAD_MAX: u32 = 0x0fff_ffff;

/// The kind of a word.
pub fn kind_of(word: u32) -> Kind
    ensures { number result ≡ word / 2 ^ 28 }
{
    // No derive reads a number as a variant, and a table of the kinds by their numbers would be no shorter.
    match word / 0x1000_0000 {
        0 => Kind::Edition,
        1 => Kind::Release,
        2 => Kind::Deadline,
        3 => Kind::Budget,
        4 => Kind::Spent,
        5 => Kind::Aside,
        6 => Kind::Start,
        7 => Kind::Resume,
        8 => Kind::Level,
        9 => Kind::Bound,
        10 => Kind::Finished,
        11 => Kind::Cut,
        12 => Kind::Failed,
        13 => Kind::Code,
        14 => Kind::Rate,
        _ => Kind::End,
    }
}

/// Whether a word is of this kind.
pub fn is_kind(word: u32, kind: Kind) -> bool
    ensures { result ≡ is kind word }
{
    word / 0x1000_0000 == kind as u32
}

/// The payload of a word.
pub fn payload_of(word: u32) -> u32
    ensures { result ≡ payload word }
{
    word % 0x1000_0000
}

/// The whole words of a row of bytes; one to three bytes may be left over at its end.
pub fn words_of(heap: Global, bytes: &[u8]) -> Result<Vec<u32>, AllocError>
    ensures { IfOk result (λ words. words.items ≡ whole bytes.now) }
{
    let (chunks, _) = bytes.as_chunks::<4>();
    let words: Vec<u32> = chunks
        .iter()
        .map(|chunk| u32::from_be_bytes(*chunk))
        .collect(heap)?;
    Ok(words)
}
