//! Sheets by example: what is told of them.
use crate::report::report_on;
use faults::{ReadError, Returned};
use sheet::read::ReadSheet;
use std::alloc::{AllocError, Global};
use std::test::Fail;

/// What is told of the sheet with these words.
fn told(heap: Global, words: &[u32]) -> Result<String, AllocError> {
    let mut bytes = Vec::new(heap);
    for word in words {
        bytes.extend_from_slice(&word.to_be_bytes())?;
    }
    let report = report_on(heap, bytes.as_slice())?;
    format!(in heap; "{report}")
}

#[test]
fn an_overloaded_sheet_is_refused_at_its_end(rt: HostRuntime) -> Result<(), Fail> {
    let sheet = [
        0x0000_0001,
        0xe000_000e,
        0x1000_0003,
        0x2000_0012,
        0x3000_0004,
        0x4000_0000,
        0x1000_0005,
        0x2000_000c,
        0x3000_0004,
        0x4000_0000,
        0x1000_0006,
        0x2000_000e,
        0x3000_0006,
        0x4000_0000,
        0xf000_0003,
    ];
    assert_eq!(rt;
        told(rt.alloc(), &sheet)?.as_str(),
        "rates 14\ncues 3\nload 10 of 9 in 5 to 14\nsheet 13 14"
    );
    Ok(())
}

#[test]
fn three_ticks_hold_a_budget_of_three(rt: HostRuntime) -> Result<(), Fail> {
    let three = [
        0x0000_0001,
        0xe000_000e,
        0x1000_0000,
        0x2000_0003,
        0x3000_0003,
        0x4000_0000,
        0xf000_0001,
    ];
    assert_eq!(rt;
        told(rt.alloc(), &three)?.as_str(),
        "rates 14\ncues 1\nload 3 of 3 in 0 to 3\nadmitted"
    );
    let four = [
        0x0000_0001,
        0xe000_000e,
        0x1000_0000,
        0x2000_0003,
        0x3000_0004,
        0x4000_0000,
        0xf000_0001,
    ];
    assert_eq!(rt;
        told(rt.alloc(), &four)?.as_str(),
        "rates 14\ncues 1\nload 4 of 3 in 0 to 3\nsheet 13 6"
    );
    Ok(())
}

#[test]
fn words_that_end_early_are_refused_behind_the_last(rt: HostRuntime) -> Result<(), Fail> {
    let heap = rt.alloc();
    assert_eq!(rt; told(heap, &[])?.as_str(), "word 10 0");
    let byte = report_on(heap, &[0])?;
    assert_eq!(rt; format!(in heap; "{byte}")?.as_str(), "word 10 0");
    assert_eq!(rt;
        told(heap, &[0x0000_0001, 0xe000_000e, 0x1000_0000])?.as_str(),
        "word 10 3"
    );
    Ok(())
}

#[test]
fn a_table_is_refused_at_its_first_word(rt: HostRuntime) -> Result<(), Fail> {
    let heap = rt.alloc();
    assert_eq!(rt;
        told(heap, &[0x0000_0001, 0xf000_0000])?.as_str(),
        "sheet 1 1"
    );
    assert_eq!(rt;
        told(heap, &[0x0000_0001, 0xe000_0002, 0xe000_0002, 0xf000_0000])?.as_str(),
        "sheet 2 1"
    );
    let mut seventeen = [0xe000_0000; 19];
    seventeen[0] = 1;
    seventeen[18] = 0xf000_0000;
    assert_eq!(rt; told(heap, &seventeen)?.as_str(), "sheet 1 1");
    Ok(())
}

#[test]
fn the_end_counts_the_cues_and_is_the_last(rt: HostRuntime) -> Result<(), Fail> {
    let heap = rt.alloc();
    assert_eq!(rt;
        told(heap, &[0x0000_0001, 0xe000_000e, 0xf000_0001])?.as_str(),
        "word 9 2"
    );
    assert_eq!(rt;
        told(heap, &[0x0000_0001, 0xe000_000e, 0xf000_0000, 0xf000_0000])?.as_str(),
        "word 9 3"
    );
    Ok(())
}

/// The words of a sheet with one level and one cue, and the end.
fn one_cue(release: u32, deadline: u32, budget: u32, actual: u32) -> [u32; 7] {
    [
        0x0000_0001,
        0xe000_000e,
        release,
        deadline,
        budget,
        actual,
        0xf000_0001,
    ]
}

#[test]
fn a_cue_is_judged_at_its_first_word(rt: HostRuntime) -> Result<(), Fail> {
    let heap = rt.alloc();
    let no_budget = one_cue(0x1000_0003, 0x2000_0003, 0x3000_0000, 0x4000_0000);
    assert_eq!(rt; told(heap, &no_budget)?.as_str(), "cue 3 2");
    let no_time = one_cue(0x1000_0003, 0x2000_0003, 0x3000_0001, 0x4000_0000);
    assert_eq!(rt; told(heap, &no_time)?.as_str(), "cue 4 2");
    let no_third_word = one_cue(0x1000_0003, 0x2000_0003, 0x5000_0000, 0x4000_0000);
    assert_eq!(rt; told(heap, &no_third_word)?.as_str(), "word 9 4");
    Ok(())
}

#[test]
fn another_edition_is_refused_at_word_0(rt: HostRuntime) -> Result<(), Fail> {
    assert_eq!(rt;
        told(rt.alloc(), &[0x0000_0002, 0xe000_000e, 0xf000_0000])?.as_str(),
        "word 9 0"
    );
    Ok(())
}

#[test]
fn bytes_left_over_are_a_word_that_ends_early(rt: HostRuntime) -> Result<(), Fail> {
    let heap = rt.alloc();
    let whole = report_on(heap, &[0, 0, 0, 1, 0xe0, 0, 0, 14, 0xf0, 0, 0, 0, 0xf0])?;
    assert_eq!(rt; format!(in heap; "{whole}")?.as_str(), "word 10 3");
    let wrong_before = report_on(heap, &[0, 0, 0, 2, 0xe0])?;
    assert_eq!(rt; format!(in heap; "{wrong_before}")?.as_str(), "word 9 0");
    Ok(())
}

/// The head of a sheet and 1,024 cues.
fn full_sheet(heap: Global) -> Result<Vec<u32>, AllocError> {
    let mut words = vec![in heap; 0x0000_0001, 0xe000_000e]?;
    for _ in 0..1_024 {
        words.extend_from_slice(&[0x1000_0000, 0x2000_0001, 0x3000_0001, 0x4000_0000])?;
    }
    Ok(words)
}

#[test]
fn the_cue_past_1024_is_one_too_many(rt: HostRuntime) -> Result<(), Fail> {
    let heap = rt.alloc();
    let mut words = vec![in heap; 0x0000_0001, 0xe000_000e]?;
    for _ in 0..1_025 {
        words.extend_from_slice(&[0x1000_0000, 0x2000_0001, 0x3000_0001, 0x4000_0000])?;
    }
    assert_eq!(rt; told(heap, words.as_slice())?.as_str(), "sheet 11 4098");
    Ok(())
}

#[test]
fn a_wrong_budget_is_told_before_too_many_cues(rt: HostRuntime) -> Result<(), Fail> {
    let heap = rt.alloc();
    let mut words = full_sheet(heap)?;
    words.extend_from_slice(&[0x1000_0000, 0x2000_0001, 0x3000_0000, 0x4000_0000])?;
    assert_eq!(rt; told(heap, words.as_slice())?.as_str(), "cue 3 4098");
    Ok(())
}

/// What comes back with the fault of these words, if they have one.
fn returned(heap: Global, words: &[u32]) -> Option<Returned> {
    match ReadSheet::from_words(heap, words) {
        Err(ReadError::Fault(fault)) => Some(fault.returned()),
        _ => None,
    }
}

#[test]
fn a_fault_returns_its_value(rt: HostRuntime) -> Result<(), Fail> {
    let heap = rt.alloc();
    assert_eq!(rt;
        returned(heap, &[0x0000_0001, 0xe000_000e]),
        Some(Returned::Value(2))
    );
    assert_eq!(rt;
        returned(heap, &[0x0000_0001, 0xe000_0002, 0xe000_0002, 0xf000_0000]),
        Some(Returned::Value(1))
    );
    let too_long = one_cue(0x1000_0003, 0x2000_0009, 0x3001_0000, 0x4000_0000);
    assert_eq!(rt; returned(heap, &too_long), Some(Returned::Value(65_536)));
    let too_late = one_cue(0x1000_0003, 0x2800_0000, 0x3000_0001, 0x4000_0000);
    assert_eq!(rt;
        returned(heap, &too_late),
        Some(Returned::Value(134_217_728))
    );
    let mut too_many = full_sheet(heap)?;
    too_many.extend_from_slice(&[0x1000_0000, 0x2000_0001, 0x3000_0001, 0x4000_0000])?;
    assert_eq!(rt;
        returned(heap, too_many.as_slice()),
        Some(Returned::Value(1_024))
    );
    Ok(())
}
