//! What holds of the definitions, whatever is run.
ghost use Rattle.shell.specs.Complete.{RunsAreAnswered};

/// A law of whole runs: where the words are right, the file may be opened and no call fails, each line of a run that is done got what a
/// session owes it. No reply says that the disk failed or that the session is shut, and a commit is acknowledged, unless it is refused as read
/// only, as past the last number or the cap, or for want of memory.
pub fn runs_are_answered()
    ensures { RunsAreAnswered }
{
    session::lines_are_answered();
}
