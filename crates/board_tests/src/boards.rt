//! A board with ample memory.
use map_board::{Board, Took};
use std::test::Fail;

/// Whether a board is idle with no job out, and finished once it has been finished.
fn is_idle_and_then_finished(board: &mut Board) -> (bool, bool) {
    let is_idle = matches!(board.take(), Took::Idle { taken: 0 });
    board.finish();
    (is_idle, matches!(board.take(), Took::Finished))
}

#[test]
fn a_new_board_is_idle_until_it_is_finished(rt: HostRuntime) -> Result<(), Fail> {
    let Ok(mut board) = Board::new(rt.alloc()) else {
        return Err("no memory".into());
    };
    let found = is_idle_and_then_finished(&mut board);
    assert_eq!(rt; found, (true, true));
    Ok(())
}
