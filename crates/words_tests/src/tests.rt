//! Lists of words, and what they ask for.

use pf_words::{Words, read};
use std::process::Abort;
use std::test::Fail;

// The words ask for this.
fn assert_asks(
    rt: &(impl Abort + AllocGlobal),
    words: &[&str],
    asked: Words<'_>,
) -> Result<(), Fail> {
    match read(rt.alloc(), words) {
        Ok(Some(found)) => {
            assert!(rt; found == asked);
            Ok(())
        }
        Ok(None) => Err(Fail::new("the words are refused")),
        Err(_) => Err(Fail::new("no memory")),
    }
}

// The words are in no form.
fn assert_refused(rt: &(impl Abort + AllocGlobal), words: &[&str]) -> Result<(), Fail> {
    match read(rt.alloc(), words) {
        Ok(Some(_)) => Err(Fail::new("the words are accepted")),
        Ok(None) => Ok(()),
        Err(_) => Err(Fail::new("no memory")),
    }
}

const REPLAY: Words<'static> = Words::Replay {
    base: "k",
    out: "o",
    scale: 2,
};

#[test]
fn each_command_has_its_form(rt: HostRuntime) -> Result<(), Fail> {
    let adapt = Words::Adapt {
        base: "k",
        out: "o",
        workers: 4,
        ops: None,
        turns: 1_000_000,
        scale: 1,
    };
    assert_asks(&rt, &["adapt", "k", "o"], adapt)?;
    assert_asks(
        &rt,
        &["check", "k"],
        Words::Check {
            base: "k",
            scale: 1,
        },
    )?;
    assert_asks(
        &rt,
        &["chunks", "k"],
        Words::Chunks {
            base: "k",
            scale: 1,
        },
    )?;
    let trace = Words::Trace {
        base: "k",
        file: "t",
        scale: 1,
    };
    assert_asks(&rt, &["trace", "k", "t"], trace)?;
    assert_asks(&rt, &["demo", "64"], Words::Demo { cells: 64 })
}

#[test]
fn options_stand_in_any_order(rt: HostRuntime) -> Result<(), Fail> {
    let adapt = Words::Adapt {
        base: "k",
        out: "o",
        workers: 64,
        ops: Some(0),
        turns: 7,
        scale: 1_048_576,
    };
    for words in [
        [
            "adapt",
            "k",
            "o",
            "--workers",
            "64",
            "--ops",
            "0",
            "--turns",
            "7",
            "--scale",
            "1048576",
        ]
        .as_slice(),
        &[
            "adapt",
            "--scale=1048576",
            "--turns=7",
            "--ops=0",
            "--workers=64",
            "k",
            "o",
        ],
        &[
            "adapt",
            "--ops",
            "00",
            "k",
            "--workers=064",
            "o",
            "--scale",
            "1048576",
            "--turns",
            "7",
        ],
    ] {
        assert_asks(&rt, words, adapt)?;
    }
    assert_asks(&rt, &["replay", "--scale", "2", "k", "o"], REPLAY)?;
    assert_asks(&rt, &["replay", "k", "--scale=2", "o"], REPLAY)
}

#[test]
fn words_behind_two_dashes_are_plain(rt: HostRuntime) -> Result<(), Fail> {
    assert_asks(&rt, &["replay", "--scale", "2", "--", "k", "o"], REPLAY)?;
    let dashed = Words::Check {
        base: "--scale=2",
        scale: 1,
    };
    assert_asks(&rt, &["check", "--", "--scale=2"], dashed)?;
    let dashes = Words::Check {
        base: "--",
        scale: 1,
    };
    assert_asks(&rt, &["check", "--", "--"], dashes)?;
    let dash = Words::Check {
        base: "-",
        scale: 3,
    };
    assert_asks(&rt, &["check", "-", "--scale", "3"], dash)?;
    let empty = Words::Check { base: "", scale: 1 };
    assert_asks(&rt, &["check", ""], empty)?;
    assert_refused(&rt, &["check", "-k"])?;
    assert_refused(&rt, &["check", "--"])
}

#[test]
fn values_are_digits_in_their_range(rt: HostRuntime) -> Result<(), Fail> {
    for words in [
        ["check", "k", "--scale", "0"].as_slice(),
        &["check", "k", "--scale", "1048577"],
        &["check", "k", "--scale", "+2"],
        &["check", "k", "--scale", "2x"],
        &["check", "k", "--scale="],
        &["check", "k", "--scale"],
        &["adapt", "k", "o", "--workers", "65"],
        &["adapt", "k", "o", "--ops", "1048577"],
        &["adapt", "k", "o", "--turns", "10000001"],
        &["demo", "+4"],
        &["demo", "0"],
        &["demo", "65"],
    ] {
        assert_refused(&rt, words)?;
    }
    Ok(())
}

#[test]
fn an_option_is_the_commands_own_and_stands_once(rt: HostRuntime) -> Result<(), Fail> {
    for words in [
        ["check", "k", "--scale", "2", "--scale", "2"].as_slice(),
        &["check", "k", "--scale=2", "--scale", "2"],
        &["check", "k", "--workers", "2"],
        &["check", "k", "--scal", "2"],
        &["demo", "4", "--scale", "2"],
        &["check", "k", "o"],
        &["check", "--help"],
        &["help"],
        &[],
    ] {
        assert_refused(&rt, words)?;
    }
    Ok(())
}
