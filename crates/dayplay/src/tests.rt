//! Scripts and lines by example.
use crate::line::Line;
use crate::rehearsal::Rehearsal;
use calls::call::{Call, Reply};
use calls::refusal::Refusal;
use calls::ticked::{Ending, Ran, Switch, Ticked, Turn};
use cues::refusal::CueRefusal;
use rates::Level;
use renderers::answer::Answer;
use script::{Script, ScriptError, read_script};
use std::alloc::Global;
use std::test::Fail;

/// What comes of the script with these words.
fn read(heap: Global, words: &[u32]) -> Result<Script, ScriptError> {
    let mut bytes = Vec::new(heap);
    for word in words {
        bytes.extend_from_slice(&word.to_be_bytes())?;
    }
    read_script(heap, bytes.as_slice())
}

/// The place of the first word that is wrong or missing.
fn wrong_at(heap: Global, words: &[u32]) -> Option<usize> {
    match read(heap, words) {
        Err(ScriptError::WrongWord { place }) => Some(place),
        _ => None,
    }
}

#[test]
fn a_script_holds_rates_calls_and_tape(rt: HostRuntime) -> Result<(), Fail> {
    let words = [
        0x0000_0001,
        0xe000_0007,
        0x2000_0009,
        0x3000_0002,
        0x4000_0002,
        0x4000_0000,
        0xf000_0001,
        0xa000_0000,
    ];
    let script = read(rt.alloc(), &words)?;
    let release = Call::Release {
        deadline: 9,
        budget: 2,
    };
    assert_eq!(rt; script.rates.as_slice(), [7].as_slice());
    assert_eq!(rt;
        script.calls.as_slice(),
        [release, Call::Tick, Call::Tick].as_slice()
    );
    assert_eq!(rt; script.tape.as_slice(), [0xa000_0000].as_slice());
    Ok(())
}

#[test]
fn the_first_wrong_or_missing_word_is_named(rt: HostRuntime) {
    let heap = rt.alloc();
    assert_eq!(rt; wrong_at(heap, &[]), Some(0));
    assert_eq!(rt; wrong_at(heap, &[2, 0xf000_0000]), Some(0));
    assert_eq!(rt; wrong_at(heap, &[1]), Some(1));
    assert_eq!(rt; wrong_at(heap, &[1, 0x2000_0009, 0xf000_0000]), Some(2));
    assert_eq!(rt; wrong_at(heap, &[1, 0x2000_0009]), Some(2));
    assert_eq!(rt; wrong_at(heap, &[1, 0x3000_0009, 0xf000_0000]), Some(1));
    assert_eq!(rt; wrong_at(heap, &[1, 0xf000_0002, 5]), Some(3));
    assert_eq!(rt; wrong_at(heap, &[1, 0xf000_0000, 5]), Some(2));
    assert_eq!(rt;
        read_script(heap, &[0, 0, 0, 1, 0xf0, 0, 0, 0, 9]).err(),
        Some(ScriptError::WrongWord { place: 2 })
    );
}

#[test]
fn a_million_ticks_are_the_most(rt: HostRuntime) {
    let heap = rt.alloc();
    let most = [1, 0x400f_423f, 0x4000_0001, 0x4000_0000, 0xf000_0000];
    assert_eq!(rt; wrong_at(heap, &most), None);
    let past = [1, 0x400f_423f, 0x4000_0002, 0xf000_0000];
    assert_eq!(rt; wrong_at(heap, &past), Some(2));
}

#[test]
fn a_rehearsal_is_told_line_by_line(rt: HostRuntime) -> Result<(), Fail> {
    let heap = rt.alloc();
    let switch = Switch {
        aside: Some(2),
        turn: Turn::Start,
        level: Level(4),
        bound: 8,
    };
    let ran = Ran {
        job: 3,
        switch: Some(switch),
        rate: 14,
        answer: Answer::Failed(7),
        ending: Some(Ending::Failed(7)),
    };
    let replies = vec![in heap;
        Ok(Reply::Released(3)),
        Ok(Reply::Ticked(Ticked::Ran(ran))),
        Ok(Reply::Ticked(Ticked::Idle)),
        Err(Refusal::Job(CueRefusal::Deadline { deadline: 1 })),
    ]?;
    let rehearsal = Rehearsal {
        replies,
        clock: 2,
        requests: 1,
        trace: vec![in heap; 0x0000_0001, 0xf000_0002]?,
    };
    assert_eq!(rt;
        format!(in heap; "{rehearsal}")?.as_str(),
        "release 3\njob 3 aside 2 start level 4 bound 8 rate 14 failed 7\nidle\nrefused 4 1\nclock 2 requests 1\n00000001\nF0000002\n"
    );
    Ok(())
}

#[test]
fn a_job_that_runs_on_is_told_without_a_switch(rt: HostRuntime) -> Result<(), Fail> {
    let ran = Ran {
        job: 2,
        switch: None,
        rate: 12,
        answer: Answer::Running,
        ending: None,
    };
    let line = Line(Ok(Reply::Ticked(Ticked::Ran(ran))));
    assert_eq!(rt;
        format!(in rt.alloc(); "{line}")?.as_str(),
        "job 2 rate 12 running"
    );
    Ok(())
}
