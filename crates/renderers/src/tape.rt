//! A renderer that plays nothing and reads its answers off a tape: one word a request, kind A finished, kind C failed with
//! the payload's remainder by 65,536 as its code, any other kind running, and running past the end of the tape.

ghost use Rattle.std.specs.Prelude.{◌≡◌};
ghost use Rattle.renderers.specs.Requests.{fresh};
ghost use Rattle.renderers.specs.Tape.{said, Read, EachByItsWord};

use crate::answer::Answer;
use crate::noted::{Answers, Noted};
use words::{Kind, kind_of, payload_of};

/// The words that are still to come, whatever the length of the tape.
#[derive(Clone, Copy)]
pub struct Tape<'a> {
    coming: &'a [u32],
}

/// A tape, and the requests so far.
pub type AnswerTape<'a> = Noted<Tape<'a>>;

impl<'a> AnswerTape<'a> {
    /// A tape at its first word, before the first request.
    pub fn over(words: &'a [u32]) -> AnswerTape<'a>
        ensures tape { result.answers.coming.now ≡ words.now }
        ensures meaning { result.noted ≡ fresh }
        ensures law { EachByItsWord words.now }
    {
        each_by_its_word(words);
        Noted::fresh(Tape { coming: words })
    }
}

impl<'a> Answers for Tape<'a> {
    ghost tells = { λ before _ _ answer after. Read before.coming.now answer after.coming.now };

    /// Reads the next word.
    fn answer(&mut self, _job: u32, _rate: u32) -> Answer {
        match self.coming {
            [word, rest @ ..] => {
                self.coming = rest;
                answer_of(*word)
            }
            [] => Answer::Running,
        }
    }
}

/// What one word of a tape answers.
pub fn answer_of(word: u32) -> Answer
    ensures { result ≡ said word }
{
    match kind_of(word) {
        Kind::Finished => Answer::Finished,
        Kind::Failed => Answer::Failed((payload_of(word) % 0x1_0000) as u16),
        _ => Answer::Running,
    }
}

/// There is nothing to run: reading in turn already gives each request its own word, and this says so.
fn each_by_its_word(words: &[u32])
    ensures { EachByItsWord words.now }
{}
