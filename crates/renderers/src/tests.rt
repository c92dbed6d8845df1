//! The supplied renderers by example.

use crate::answer::Answer;
use crate::renderer::run_job;
use crate::sheet::SheetRenderer;
use crate::tape::AnswerTape;
use cues::cue::Cue;
use cues::list::CueList;
use std::test::Fail;

#[test]
fn tape_answers_word_by_word(rt: HostRuntime) {
    let words = [0xa000_0003, 0xc001_2345, 0x4000_0001];
    let mut tape = AnswerTape::over(&words);
    let finished = run_job(&mut tape, 1, 7);
    let failed = run_job(&mut tape, 2, 10);
    let running = run_job(&mut tape, 3, 12);
    let past_the_end = run_job(&mut tape, 3, 14);
    assert_eq!(rt;
        (finished, failed),
        (Answer::Finished, Answer::Failed(0x2345))
    );
    assert_eq!(rt; (running, past_the_end), (Answer::Running, Answer::Running));
    assert_eq!(rt;
        (tape.requests(), tape.latest()),
        (4, (3, 14, Answer::Running))
    );
}

#[test]
fn sheet_plays_by_release_then_place(rt: HostRuntime) -> Result<(), Fail> {
    let mut cues = CueList::new(rt.alloc());
    cues.push(Cue::new(5, 15, 6, 28)?)?;
    cues.push(Cue::new(0, 7, 4, 0)?)?;
    cues.push(Cue::new(0, 9, 2, 14)?)?;
    let mut renderer = SheetRenderer::new(rt.alloc(), &cues)?;
    let halfway = run_job(&mut renderer, 3, 14);
    let last_released = run_job(&mut renderer, 3, 14);
    let later_place = run_job(&mut renderer, 2, 14);
    let no_units = run_job(&mut renderer, 1, 14);
    let no_cue = (run_job(&mut renderer, 0, 14), run_job(&mut renderer, 4, 14));
    assert_eq!(rt;
        (halfway, last_released),
        (Answer::Running, Answer::Finished)
    );
    assert_eq!(rt;
        (later_place, no_units),
        (Answer::Finished, Answer::Running)
    );
    assert_eq!(rt; no_cue, (Answer::Running, Answer::Running));
    assert_eq!(rt;
        (renderer.requests(), renderer.latest()),
        (6, (4, 14, Answer::Running))
    );
    Ok(())
}
