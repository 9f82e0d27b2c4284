//! What a line asks for, as far as what is shown depends on it.

/// The first word of a line, without the spaces before it.
pub(crate) fn first_word(line: &str) -> &str {
    let line = line.trim_ascii();
    match line.find(|c: char| !c.is_ascii_alphanumeric()) {
        Some(end) => line.get(..end).unwrap_or_default(),
        None => line,
    }
}

/// What stands after the first word of a line.
pub(crate) fn after_word(line: &str) -> &str {
    let line = line.trim_ascii();
    line.strip_prefix(first_word(line))
        .unwrap_or_default()
        .trim_ascii()
}

/// Whether a line with this word edits views, if it is not refused.
pub(crate) fn edits(word: &str) -> bool {
    matches!(
        word,
        "getas" | "drop" | "add" | "insert" | "set" | "remove" | "revert"
    )
}

/// Whether after a line with this word, if it is not refused, the views are those of a commit.
pub(crate) fn settles(word: &str) -> bool {
    matches!(word, "commit" | "rollback" | "reopen")
}
