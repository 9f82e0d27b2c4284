ghost use Rattle.std.specs.Prelude.{◌≡◌, ◌≢◌, ◌∷◌, ℕ, List, []};
ghost use Rattle.command_line.specs.Words.{AsksFor};
ghost use Rattle.command_line.specs.Asking.{IsServed, IsSameJob};

use crate::job::Job;

/// A law of words: what they ask for is one job.
pub fn words_ask_for_one_job()
    ensures { (words : List (List ℕ)) (one other : Job) → AsksFor words one → AsksFor words other → IsSameJob one other }
{}

/// A law of words: the name of a file by itself, which begins with no hyphen, asks that the file be served.
pub fn a_name_alone_is_served()
    ensures { (program rest : List ℕ) (first : ℕ) (job : Job) → first ≢ 45 → IsServed (first ∷ rest) job → AsksFor (program ∷ (first ∷ rest) ∷ []) job }
{}
