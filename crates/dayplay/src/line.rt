//! How the answer to a call is told: one line a call.
ghost use Rattle.std.specs.Prelude.{◌≡◌, Some};
ghost use Rattle.calls.specs.Refusals.{number_of, value_of};
ghost use Rattle.dayplay.specs.Lines.{refused_line, aside_part, turn_part, switch_part, ending_part, line_of};
ghost use Rattle.rates.specs.Refusal.{number_of as table_number, value_of as table_value};

use calls::call::Reply;
use calls::refusal::Refusal;
use calls::ticked::{Ending, Switch, Ticked, Turn};
use rates::TableRefusal;
use std::fmt;

/// The line of a call.
#[derive(Clone, Copy)]
pub struct Line(pub Result<Reply, Refusal>);

/// The line of a refusal: its number and its value.
#[derive(Clone, Copy)]
pub struct RefusedLine {
    pub number: u32,
    pub value: usize,
}

// The parts of a tick's line. Each is a type, since this crate can write `Display` for its own types alone.
#[derive(Clone, Copy)]
struct SwitchPart(Option<Switch>);

#[derive(Clone, Copy)]
struct AsidePart(Option<u32>);

#[derive(Clone, Copy)]
struct TurnPart(Turn);

#[derive(Clone, Copy)]
struct EndingPart(Option<Ending>);

// The same twice and no trait of refusals: it would serve these two impls alone.
impl From<Refusal> for RefusedLine {
    ghost from_gives = { λ refusal line. (line.number ≡ number_of refusal) × (line.value ≡ value_of refusal) };

    fn from(refusal: Refusal) -> RefusedLine {
        RefusedLine {
            number: refusal.number(),
            value: refusal.value(),
        }
    }
}

impl From<TableRefusal> for RefusedLine {
    ghost from_gives = { λ cause line. (line.number ≡ table_number cause) × (line.value ≡ table_value cause) };

    fn from(cause: TableRefusal) -> RefusedLine {
        RefusedLine {
            number: cause.number(),
            value: cause.value(),
        }
    }
}

impl fmt::Display for Line {
    ghost output = { λ line. Some (line_of line.0) };

    fn fmt<W: fmt::Write>(&self, f: &mut fmt::Formatter<W>) -> fmt::Result {
        match self.0 {
            Ok(Reply::Released(job)) => write!(f, "release {job}"),
            Ok(Reply::Ticked(Ticked::Idle)) => write!(f, "idle"),
            Ok(Reply::Ticked(Ticked::Ran(ran))) => {
                let job = ran.job;
                let switch = SwitchPart(ran.switch);
                let rate = ran.rate;
                let ending = EndingPart(ran.ending);
                write!(f, "job {job}{switch} rate {rate}{ending}")
            }
            Err(refusal) => write!(f, "{}", RefusedLine::from(refusal)),
        }
    }
}

impl fmt::Display for RefusedLine {
    ghost output = { λ line. Some (refused_line line.number line.value) };

    fn fmt<W: fmt::Write>(&self, f: &mut fmt::Formatter<W>) -> fmt::Result {
        let RefusedLine { number, value } = *self;
        write!(f, "refused {number} {value}")
    }
}

impl fmt::Display for SwitchPart {
    ghost output = { λ part. Some (switch_part part.0) };

    fn fmt<W: fmt::Write>(&self, f: &mut fmt::Formatter<W>) -> fmt::Result {
        match self.0 {
            None => Ok(()),
            Some(switch) => {
                let aside = AsidePart(switch.aside);
                let turn = TurnPart(switch.turn);
                let level = switch.level.0;
                let bound = switch.bound;
                write!(f, "{aside}{turn} level {level} bound {bound}")
            }
        }
    }
}

impl fmt::Display for AsidePart {
    ghost output = { λ part. Some (aside_part part.0) };

    fn fmt<W: fmt::Write>(&self, f: &mut fmt::Formatter<W>) -> fmt::Result {
        match self.0 {
            None => Ok(()),
            Some(job) => write!(f, " aside {job}"),
        }
    }
}

impl fmt::Display for TurnPart {
    ghost output = { λ part. Some (turn_part part.0) };

    fn fmt<W: fmt::Write>(&self, f: &mut fmt::Formatter<W>) -> fmt::Result {
        match self.0 {
            Turn::Start => write!(f, " start"),
            Turn::Resume => write!(f, " resume"),
        }
    }
}

impl fmt::Display for EndingPart {
    ghost output = { λ part. Some (ending_part part.0) };

    fn fmt<W: fmt::Write>(&self, f: &mut fmt::Formatter<W>) -> fmt::Result {
        match self.0 {
            None => write!(f, " running"),
            Some(Ending::Finished) => write!(f, " finished"),
            Some(Ending::Cut) => write!(f, " cut"),
            Some(Ending::Failed(code)) => write!(f, " failed {code}"),
        }
    }
}
