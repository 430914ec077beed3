//! Lists of words, and what they say. A word that isn't text can't stand in such a list: who makes the list refuses it.
use command_words::{CommandLine, WordsFault, command_line};
use std::alloc::{AllocError, Global};
use std::test::Fail;

/// Words with a blank between two of them, and what they say.
const LINES: [(&str, bool, bool, u8, Option<u32>); 12] = [
    ("noisemap", false, false, 0, None),
    ("--help --bands", true, false, 0, None),
    ("-- --bands --counts", true, true, 0, None),
    ("noisemap --counts --workers=16", false, true, 16, None),
    (
        "noisemap --counts --workers 16 --bands",
        true,
        true,
        16,
        None,
    ),
    ("noisemap --make 7 --workers 4", false, false, 4, Some(7)),
    ("noisemap --workers=4 --make=7", false, false, 4, Some(7)),
    (
        "noisemap --make=007 --workers 000016",
        false,
        false,
        16,
        Some(7),
    ),
    ("noisemap --make 999999", false, false, 0, Some(999_999)),
    (
        "noisemap --bands --make 0 --counts --workers 0",
        true,
        true,
        0,
        Some(0),
    ),
    (
        " --workers 1 --bands --make=000000",
        true,
        false,
        1,
        Some(0),
    ),
    (
        "noisemap --counts --bands --workers=00 --make 10",
        true,
        true,
        0,
        Some(10),
    ),
];

/// Words with a blank between two of them, so that two blanks hold an empty word between them.
const REFUSED: [&str; 36] = [
    "noisemap --workers 17",
    "noisemap --workers",
    "noisemap --workers 2 --workers 2",
    "noisemap --",
    "noisemap --help",
    "noisemap x",
    "noisemap ",
    "noisemap  --bands",
    "noisemap -",
    "noisemap -h",
    "noisemap -b",
    "noisemap --version",
    "noisemap --band",
    "noisemap --Bands",
    "noisemap --bands=",
    "noisemap --bands=1",
    "noisemap --bands 1",
    "noisemap --bands --bands",
    "noisemap --counts --bands --counts",
    "noisemap --bands --",
    "noisemap -- --bands",
    "noisemap --workers -- 2",
    "noisemap --workers --bands",
    "noisemap --workers=2 --workers",
    "noisemap --make 1 --make=1",
    "noisemap --make",
    "noisemap --make ",
    "noisemap --make=",
    "noisemap --make 1234567",
    "noisemap --make 0000007",
    "noisemap --make +7",
    "noisemap --make -7",
    "noisemap --make=7.0",
    "noisemap --make==7",
    "noisemap --make ７",
    "noisemap --workers 256",
];

fn read(alloc: Global, text: &str) -> Result<Result<CommandLine, WordsFault>, AllocError> {
    let mut words = Vec::new(alloc);
    for word in text.split(' ') {
        words.push(String::from_str(alloc, word)?)?;
    }
    Ok(command_line(alloc, words.as_slice()))
}

#[test]
fn words_say_what_they_say(rt: HostRuntime) -> Result<(), Fail> {
    for (text, bands, counts, workers, make) in LINES.as_slice() {
        let line = CommandLine {
            bands: *bands,
            counts: *counts,
            workers: *workers,
            make: *make,
        };
        assert!(rt; read(rt.alloc(), text)? == Ok(line), "{text}");
    }
    Ok(())
}

#[test]
fn other_words_are_refused(rt: HostRuntime) -> Result<(), Fail> {
    for text in REFUSED.as_slice() {
        assert!(rt; read(rt.alloc(), text)? == Err(WordsFault::Usage), "{text}");
    }
    Ok(())
}

#[test]
fn no_words_are_refused(rt: HostRuntime) {
    let answer = command_line(rt.alloc(), &[]);
    assert!(rt; answer == Err(WordsFault::Usage));
}
