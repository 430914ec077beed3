//! Edits whose marks come from several threads, beside the same edits in one thread, with ample memory. Which rows an edit
//! touches is told from the plan: a barrier stands in the way of those receivers alone that lie behind it.
use crate::edits::{barrier, put};
use crate::solving::solve;
use map_board::{Board, Shown, Took};
use scene_book::Edit;
use scene_parts::{PlainName, RawPart, Word};
use std::alloc::Global;
use std::test::Fail;
use std::thread::Threads;

/// The name of a source of 64: two letters.
fn source_name(alloc: Global, number: u8) -> Option<PlainName> {
    let first = b'a' + number / 8 % 8;
    let second = b'a' + number % 8;
    if !first.is_ascii_alphanumeric() || !second.is_ascii_alphanumeric() {
        return None;
    }
    match vec![in alloc; first, second] {
        Ok(bytes) => Some(PlainName::from_vec(bytes)),
        Err(_) => None,
    }
}

/// A source in the west. They stand 1 cm from each other.
fn source(alloc: Global, number: u8) -> Option<Edit> {
    let name = source_name(alloc, number)?;
    put(
        alloc,
        RawPart::Source {
            name,
            kind: Word::from_vec(b"industry".to_vec(alloc).ok()?),
            x: 0,
            y: i64::from(number) * 10,
            h: 2000,
            lw: [None, None, None, None, Some(10_000), None, None, None],
            dc: 0,
        },
    )
}

/// Receivers from 100 m in the east on, 50 m from each other, in so many columns and rows. The first row lies due east of
/// the sources.
fn receivers(alloc: Global, columns: i64, rows: i64) -> Option<Edit> {
    let name = PlainName::from_vec(b"r".to_vec(alloc).ok()?);
    put(
        alloc,
        RawPart::Grid {
            name,
            x: 100_000,
            y: 0,
            step: 50_000,
            columns,
            rows,
            h: 2000,
        },
    )
}

/// A low barrier 50 m in the east of the sources, in the way of the first row of receivers alone.
fn low_barrier(alloc: Global) -> Option<Edit> {
    barrier(alloc, [(50_000, -2000), (50_000, 2000)], 3000)
}

/// Takes a job, solves it and lands the answer, where there is a job; whether there was one.
fn answer_next(alloc: Global, board: &mut Board) -> Option<bool> {
    let Took::Job(job) = board.take() else {
        return Some(false);
    };
    match solve(alloc, job) {
        Ok(answer) => {
            board.offer(answer);
            Some(true)
        }
        Err(_) => None,
    }
}

/// Answers all jobs.
fn settle(alloc: Global, board: &mut Board) -> Option<()> {
    for _ in 0..board.rows() {
        answer_next(alloc, board)?;
    }
    if board.settled() { Some(()) } else { None }
}

/// An edit that is accepted.
fn edit(alloc: Global, board: &mut Board, edit: Edit) -> Option<()> {
    board.edit(alloc, edit).ok()?;
    Some(())
}

/// Puts so many sources, and receivers in so many columns and rows, and answers all jobs.
fn fill(alloc: Global, board: &mut Board, sources: u8, columns: i64, rows: i64) -> Option<()> {
    for number in 0..sources {
        edit(alloc, board, source(alloc, number)?)?;
    }
    edit(alloc, board, receivers(alloc, columns, rows)?)?;
    settle(alloc, board)
}

/// Whether two rows show the same: the version that they are of, and the edit by which they are stale.
fn is_same(one: &Shown, other: &Shown) -> bool {
    match (one, other) {
        (Shown::Current(_), Shown::Current(_)) => true,
        (
            Shown::Stale {
                version,
                by,
                levels: _,
            },
            Shown::Stale {
                version: other_version,
                by: other_by,
                levels: _,
            },
        ) => version == other_version && by == other_by,
        (Shown::New { since }, Shown::New { since: other_since }) => since == other_since,
        _ => false,
    }
}

/// How many rows are stale, where the boards show the same in each.
fn stale_in_both(one: &Board, other: &Board) -> Option<u32> {
    let mut count: u32 = 0;
    for row in 0..one.rows() {
        if row >= other.rows() || !is_same(&one.shown(row), &other.shown(row)) {
            return None;
        }
        if matches!(one.shown(row), Shown::Stale { .. }) {
            count = count.saturating_add(1);
        }
    }
    Some(count)
}

/// Whether both boards take jobs for the same rows, one after another, until all are current.
fn take_the_same(alloc: Global, one: &mut Board, other: &mut Board) -> Option<bool> {
    settle(alloc, one)?;
    settle(alloc, other)?;
    Some(one.counts() == other.counts())
}

// The barrier put on two like boards, once by the caller alone and once with threads: how many rows are stale by it, and
// whether the same is taken after it.
fn put_on_both<R: Threads + Sync>(
    rt: &R,
    alloc: Global,
    one: &mut Board,
    other: &mut Board,
) -> Option<(u32, bool)> {
    edit(alloc, one, low_barrier(alloc)?)?;
    other.edit_with(rt, alloc, low_barrier(alloc)?).ok()?;
    let stale = stale_in_both(one, other)?;
    let same = take_the_same(alloc, one, other)?;
    Some((stale, same))
}

// Fills both boards alike, with so many sources, and receivers in so many columns and rows.
fn fill_both(
    alloc: Global,
    one: &mut Board,
    other: &mut Board,
    sources: u8,
    columns: i64,
    rows: i64,
) -> Option<()> {
    fill(alloc, one, sources, columns, rows)?;
    fill(alloc, other, sources, columns, rows)
}

// The same on a board that is lent and one that is made for it, both filled so. What may fail borrows the boards, and each
// function owns one at most, since each way out of a function that owns one is proved for itself.
fn put_beside<R: Threads + Sync>(
    rt: &R,
    alloc: Global,
    one: &mut Board,
    sources: u8,
    columns: i64,
    rows: i64,
) -> Option<(u32, bool)> {
    let mut other = Board::new(alloc).ok()?;
    match fill_both(alloc, one, &mut other, sources, columns, rows) {
        Some(()) => put_on_both(rt, alloc, one, &mut other),
        None => None,
    }
}

// The same on two boards that are made for it.
fn put_twice<R: Threads + Sync>(
    rt: &R,
    alloc: Global,
    sources: u8,
    columns: i64,
    rows: i64,
) -> Option<(u32, bool)> {
    let mut one = Board::new(alloc).ok()?;
    put_beside(rt, alloc, &mut one, sources, columns, rows)
}

#[test]
fn an_edit_with_threads_marks_what_one_alone_marks(rt: HostRuntime) -> Result<(), Fail> {
    let marked = put_twice(&rt, rt.alloc(), 3, 2, 3).ok_or("there is memory")?;
    assert_eq!(rt; marked, (2, true));
    Ok(())
}

// 64 sources and 130 receivers have 8,320 paths, of which two threads at the least have their part.
#[test]
fn threads_share_the_paths_of_many_rows(rt: HostRuntime) -> Result<(), Fail> {
    let marked = put_twice(&rt, rt.alloc(), 64, 13, 10).ok_or("there is memory")?;
    assert_eq!(rt; marked, (13, true));
    Ok(())
}
