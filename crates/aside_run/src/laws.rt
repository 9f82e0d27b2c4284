//! What holds of the definitions, whatever is run.
ghost use Rattle.aside_run.specs.Complete.{RunsOverAreAnswered};

/// A law of whole runs over a base: where the words are right, the base stands for a commit, the aside file may be opened, is not worn out, and no
/// call fails, each line of a run that is done got what a session owes it. No reply says that the disk failed or that the session is shut.
pub fn runs_over_are_answered()
    ensures { RunsOverAreAnswered }
{
    session::lines_are_answered();
}
