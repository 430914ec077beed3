//! Lines are told as an independent program tells them.
use crate::ground_rows::{FOLIAGE, GROUND};
use crate::request_rows::REQUESTS;
use crate::rows::{FORMS, MISSING, RANGES, TYPES, VALUES};
use command_lines::{Command, LineFault, command};
use scene_book::Edit;
use scene_parts::{Class, Field, PartFault, Word};
use std::alloc::{AllocError, Global};
use std::process::Abort;
use std::test::Fail;

/// Bytes that aren't UTF-8.
const BROKEN: [&[u8]; 3] = [
    b"{\"do\":\"look\",\"x\":\"\xff\"}",
    b"{\"do\":\"look\",\"x\":\"\xed\xa0\x80\"}",
    b"\xff",
];

/// The word of a command.
fn command_word(command: &Command) -> &'static str {
    match command {
        Command::Settle => "settle",
        Command::Look => "look",
        Command::Contour(_) => "contour",
        Command::Line(_) => "line",
        Command::Unline(_) => "unline",
        Command::Undo(_) => "undo",
        Command::Edit(edit) => edit_word(edit),
    }
}

fn edit_word(edit: &Edit) -> &'static str {
    match edit {
        Edit::Put(_) => "put",
        Edit::Remove(_) => "remove",
        Edit::Grid(_) => "grid",
        Edit::Set(_) => "set",
    }
}

fn told(alloc: Global, line: &[u8]) -> Result<String, AllocError> {
    match command(alloc, line) {
        Ok(command) => String::from_str(alloc, command_word(&command)),
        Err(fault) => fault_told(alloc, &fault),
    }
}

fn fault_told(alloc: Global, fault: &LineFault) -> Result<String, AllocError> {
    match fault {
        LineFault::NoMemory => Err(AllocError),
        LineFault::NotJson => String::from_str(alloc, "NotJson"),
        LineFault::NotObject => String::from_str(alloc, "NotObject"),
        LineFault::UnknownDo { word } => with_word(alloc, "UnknownDo", word),
        LineFault::Missing { field } => format!(in alloc; "Missing,{}", field.word()),
        LineFault::WrongType { field } => format!(in alloc; "WrongType,{}", field.word()),
        LineFault::Part(fault) => part_told(alloc, fault),
    }
}

fn part_told(alloc: Global, fault: &PartFault) -> Result<String, AllocError> {
    match fault {
        PartFault::NoMemory => Err(AllocError),
        PartFault::OutOfRange { field, value } => {
            format!(in alloc; "OutOfRange,{},{}", field.word(), value)
        }
        PartFault::OutsideMethod { kind } => with_word(alloc, "OutsideMethod", kind),
        PartFault::UnknownKind { kind } => with_word(alloc, "UnknownKind", kind),
        PartFault::TooLight { density } => format!(in alloc; "TooLight,{}", density),
        PartFault::FewCorners { count } => format!(in alloc; "FewCorners,{}", count),
        PartFault::FlatShape => String::from_str(alloc, "FlatShape"),
        PartFault::SideTooLong { side, mm } => format!(in alloc; "SideTooLong,{},{}", side, mm),
        PartFault::WeakMirror { rho } => format!(in alloc; "WeakMirror,{}", rho),
    }
}

fn with_word(alloc: Global, fault: &str, word: &Word) -> Result<String, AllocError> {
    match str::from_utf8(word.items()) {
        Ok("") => String::from_str(alloc, fault),
        Ok(text) => format!(in alloc; "{},{}", fault, text),
        Err(_) => String::from_str(alloc, "no text"),
    }
}

/// Each of these lines is told so.
fn tell(rt: &impl Abort, alloc: Global, rows: &[(&str, &str)]) -> Result<(), Fail> {
    for (line, wanted) in rows {
        let told = told(alloc, line.as_bytes())?;
        assert_eq!(rt; told.as_str(), *wanted, "of {line}");
    }
    Ok(())
}

#[test]
fn lines_are_told_so(rt: HostRuntime) -> Result<(), Fail> {
    let alloc = rt.alloc();
    tell(&rt, alloc, &FORMS)?;
    tell(&rt, alloc, &MISSING)?;
    tell(&rt, alloc, &TYPES)?;
    tell(&rt, alloc, &VALUES)?;
    tell(&rt, alloc, &RANGES)?;
    tell(&rt, alloc, &REQUESTS)?;
    tell(&rt, alloc, &FOLIAGE)?;
    tell(&rt, alloc, &GROUND)?;
    for line in BROKEN {
        assert_eq!(rt; told(alloc, line)?.as_str(), "NotJson");
    }
    Ok(())
}

#[test]
fn classes_have_their_words(rt: HostRuntime) {
    assert_eq!(rt; Class::Obstacle.word(), "obstacle");
    assert_eq!(rt; Class::Foliage.word(), "foliage");
    assert_eq!(rt; Field::C0.word(), "c0");
    assert_eq!(rt; Field::Ground.word(), "ground");
}
