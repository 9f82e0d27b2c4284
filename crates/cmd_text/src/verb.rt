ghost use Rattle.std.specs.Prelude.{◌≡◌, IfSome, IsNone};
ghost use Rattle.cmd_text.specs.Words.{word_of};
ghost use Rattle.cmd_text.specs.declared.verb.Verb.{Verb as TheVerb};

/// The first word of a command that is cut into tokens.
#[derive(Clone, Copy, Debug, PartialEq, Eq)]
pub(crate) enum Verb {
    Drop,
    Struct,
    Add,
    Insert,
    Set,
    Remove,
    Size,
    Show,
    Find,
    Search,
    Locate,
    Dup,
    Undup,
    Watch,
    Unwatch,
    Hash,
    Ordered,
    Unmap,
    Cursor,
    Uncursor,
    Next,
    Prev,
    Row,
    Commit,
    Log,
    Rollback,
    Reopen,
    Revert,
    Space,
    Quit,
}

impl Verb {
    /// The command that a word begins.
    pub(crate) fn of(word: &str) -> Option<Verb>
        ensures word { IfSome result (λ verb. word.now ≡ word_of verb) }
        ensures none { IsNone result → (verb : TheVerb) → word.now ≡ word_of verb → ⊥ }
    {
        Some(match word {
            "drop" => Verb::Drop,
            "struct" => Verb::Struct,
            "add" => Verb::Add,
            "insert" => Verb::Insert,
            "set" => Verb::Set,
            "remove" => Verb::Remove,
            "size" => Verb::Size,
            "show" => Verb::Show,
            "find" => Verb::Find,
            "search" => Verb::Search,
            "locate" => Verb::Locate,
            "dup" => Verb::Dup,
            "undup" => Verb::Undup,
            "watch" => Verb::Watch,
            "unwatch" => Verb::Unwatch,
            "hash" => Verb::Hash,
            "ordered" => Verb::Ordered,
            "unmap" => Verb::Unmap,
            "cursor" => Verb::Cursor,
            "uncursor" => Verb::Uncursor,
            "next" => Verb::Next,
            "prev" => Verb::Prev,
            "row" => Verb::Row,
            "commit" => Verb::Commit,
            "log" => Verb::Log,
            "rollback" => Verb::Rollback,
            "reopen" => Verb::Reopen,
            "revert" => Verb::Revert,
            "space" => Verb::Space,
            "quit" => Verb::Quit,
            _ => return None,
        })
    }
}
