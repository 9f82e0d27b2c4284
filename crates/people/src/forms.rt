//! The lines that a session takes, as help shows them.
use std::alloc::{AllocError, Global};
use strsim::levenshtein;

/// A kind of line.
pub struct Form {
    /// The word that it begins with.
    pub word: &'static str,
    /// Its arguments, as the grammar names them.
    pub arguments: &'static str,
    /// What it does.
    pub does: &'static str,
    /// One that is answered, if those before it in the table were given first.
    pub example: &'static str,
}

/// All kinds of lines, those that most people want first.
pub static FORMS: [Form; 32] = [
    Form {
        word: "getas",
        arguments: "NAME[PROP:KIND,..]",
        does: "makes a view, or gives it another structure; KIND is I, L (numbers), S (text), B (bytes) or [PROP:KIND,..]",
        example: "getas people[name:S,phones[kind:S,number:S],born:I]",
    },
    Form {
        word: "add",
        arguments: "PATH VALUES",
        does: "puts a row last; values that are missing at the end are empty or 0",
        example: "add people \"Ann\" {(\"home\",\"555-0100\")} 1970",
    },
    Form {
        word: "insert",
        arguments: "PATH POS COUNT VALUES",
        does: "puts COUNT equal rows before row POS; rows count from 0",
        example: "insert people 1 2 \"Bob\" {} 1985",
    },
    Form {
        word: "set",
        arguments: "PATH ROW PROP VALUE",
        does: "changes one value",
        example: "set people 1 born 1986",
    },
    Form {
        word: "remove",
        arguments: "PATH POS COUNT",
        does: "removes COUNT rows from row POS on",
        example: "remove people 2 1",
    },
    Form {
        word: "show",
        arguments: "EXPR",
        does: "lists rows; EXPR is a view, or an operator such as sort(people,-born)",
        example: "show sort(people,-born)",
    },
    Form {
        word: "size",
        arguments: "EXPR",
        does: "counts rows",
        example: "size select(people,born=1970)",
    },
    Form {
        word: "find",
        arguments: "EXPR START PROP=VALUE,..",
        does: "gives the first row from START on with these values",
        example: "find people 0 name=\"Ann\"",
    },
    Form {
        word: "search",
        arguments: "EXPR PROP=VALUE,..",
        does: "gives the first row of a sorting that is not before these values",
        example: "search sort(people,born) born=1980",
    },
    Form {
        word: "locate",
        arguments: "EXPR PROP=VALUE,..",
        does: "gives the same, and how many rows have the values",
        example: "locate sort(people,born) born=1970",
    },
    Form {
        word: "struct",
        arguments: "",
        does: "lists the views with their structures",
        example: "struct",
    },
    Form {
        word: "commit",
        arguments: "[NOTE]",
        does: "stores the views, so that they outlast a crash",
        example: "commit \"first people\"",
    },
    Form {
        word: "log",
        arguments: "",
        does: "lists the notes of the commits, the newest first",
        example: "log",
    },
    Form {
        word: "rollback",
        arguments: "",
        does: "gives up all edits since the last commit",
        example: "rollback",
    },
    Form {
        word: "dup",
        arguments: "NEW EXPR",
        does: "keeps the rows as they are now under a new name, as a snapshot",
        example: "dup before people",
    },
    Form {
        word: "undup",
        arguments: "NAME",
        does: "ends a snapshot",
        example: "undup before",
    },
    Form {
        word: "watch",
        arguments: "NEW OP",
        does: "keeps the rows of an operator up to date under a new name",
        example: "watch young select(people,born=1986)",
    },
    Form {
        word: "unwatch",
        arguments: "NAME",
        does: "ends a watch",
        example: "unwatch young",
    },
    Form {
        word: "hash",
        arguments: "NAME K",
        does: "makes the first K properties a key: a row replaces the one of its key",
        example: "hash people 1",
    },
    Form {
        word: "unmap",
        arguments: "NAME",
        does: "ends a hash or an order",
        example: "unmap people",
    },
    Form {
        word: "ordered",
        arguments: "NAME K",
        does: "keeps a view sorted by its first K properties, which are its key",
        example: "ordered people 1",
    },
    Form {
        word: "cursor",
        arguments: "NEW NAME",
        does: "sets a cursor on the first row",
        example: "cursor here people",
    },
    Form {
        word: "next",
        arguments: "NAME",
        does: "moves a cursor one row down",
        example: "next here",
    },
    Form {
        word: "prev",
        arguments: "NAME",
        does: "moves a cursor one row up",
        example: "prev here",
    },
    Form {
        word: "row",
        arguments: "NAME",
        does: "reads the row at a cursor",
        example: "row here",
    },
    Form {
        word: "uncursor",
        arguments: "NAME",
        does: "ends a cursor",
        example: "uncursor here",
    },
    Form {
        word: "revert",
        arguments: "",
        does: "brings back the commit before the last, not stored yet",
        example: "revert",
    },
    Form {
        word: "reopen",
        arguments: "",
        does: "gives up all edits and reads the file anew",
        example: "reopen",
    },
    Form {
        word: "drop",
        arguments: "NAME",
        does: "removes a view",
        example: "drop people",
    },
    Form {
        word: "space",
        arguments: "",
        does: "gives the last commit, the end of the used part of the file, and the bytes in use",
        example: "space",
    },
    Form {
        word: "help",
        arguments: "[WORD]",
        does: "lists these lines, or tells of one",
        example: "help show",
    },
    Form {
        word: "quit",
        arguments: "",
        does: "ends the session",
        example: "quit",
    },
];

/// The kind of line that begins with a word.
pub fn form_of(word: &str) -> Option<&'static Form> {
    FORMS.iter().find(|form| form.word == word)
}

/// The word of a line that a word was meant for, if one is at most two edits away.
pub fn nearest(alloc: Global, word: &str) -> Result<Option<&'static str>, AllocError> {
    let mut best = None;
    let mut least = 3;
    for form in &FORMS {
        let edits = levenshtein(alloc, word, form.word)?;
        if edits < least {
            least = edits;
            best = Some(form.word);
        }
    }
    Ok(best)
}
