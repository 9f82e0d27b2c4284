ghost use Rattle.session.specs.Determined.{DeterminesState};
ghost use Rattle.session.specs.Reading.{LeavesTheFile};
ghost use Rattle.session.specs.Unfaulted.{AnswersUnfaulted};

/// A law of runs: where no call of the disk fails, a session that is not shut stays so, and each line gets what it is due: no reply says
/// that the disk failed or that the session is shut, and a commit is acknowledged, unless it is refused as read only, as past the last
/// number or the cap, or for want of memory.
pub fn lines_are_answered()
    ensures { AnswersUnfaulted }
{}

/// A law of runs: a session that only reads leaves the file as it is, whatever its lines ask for.
pub fn reading_leaves_the_file()
    ensures { LeavesTheFile }
{}

/// A law of lines: from one state, one line and one reply leave one world, with its tables, the commit that is kept, the one that failed, and
/// all watches, mappings, cursors and snapshots; and one disk, unless the session is shut then. A line that is no commit, and neither opens
/// nor reads the file, leaves one state.
pub fn the_reply_determines_the_state()
    ensures { DeterminesState }
{
    cmd_text::one_meaning();
    cmd_text::one_offence();
    commit_plan::follows_unique();
    recovery::one_commit();
    recovery::a_file_has_one_answer();
}
