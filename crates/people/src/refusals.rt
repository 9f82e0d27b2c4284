//! Refusals in words.

/// A reply that refuses a line: its word, and the numbers after it.
#[derive(Clone, Copy)]
pub struct Refusal<'a> {
    pub word: &'a str,
    pub numbers: &'a str,
}

impl<'a> Refusal<'a> {
    /// The refusal that a reply is, if it is one.
    pub fn of(reply: &'a str) -> Option<Refusal<'a>> {
        let (_number, rest) = reply.strip_prefix("err ")?.split_once(' ')?;
        let rest = rest.trim_ascii();
        Some(match rest.split_once(' ') {
            Some((word, numbers)) => Refusal { word, numbers },
            None => Refusal {
                word: rest,
                numbers: "",
            },
        })
    }

    /// Where in the line the offence is, in bytes, if the refusal tells.
    pub fn place(&self) -> Option<usize> {
        match self.word {
            "syntax" | "floating" => self.numbers.parse::<usize>().ok(),
            _ => None,
        }
    }
}

/// What the word of a refusal means.
pub fn meaning(word: &str) -> &'static str {
    match word {
        "memory" => "out of memory; nothing changed",
        "syntax" => "this can't be read",
        "noname" => "nothing has this name, or there is no commit before",
        "exists" => "the name is taken",
        "range" => "a number is out of range; this many are there:",
        "noprop" => "there is no such property",
        "kind" => "a value of another kind is wanted",
        "limit" => "a limit would be passed (docs/VALUES.md lists them)",
        "disk" => "the disk failed (docs/LOSING_DATA.md)",
        "full" => "the file would end past its limit; its end then, and the limit:",
        "shut" => "this session stores no more; reopen reads the file anew",
        "lastnumber" => "no commit can follow this one",
        "floating" => "numbers have no fraction",
        "readonly" => "the file is only read",
        "damaged" => "the file is damaged, at this byte:",
        "inuse" => "something stands on it: a watch, a cursor or a key",
        "keys" => "two rows have one key; the second is row",
        "unsorted" => "the rows are not sorted so",
        _ => "refused",
    }
}

/// Why a file is not served, by the word of the line that says so.
pub fn not_served(word: &str) -> &'static str {
    match word {
        "empty" => "the file is empty, and it is only read",
        "notempty" => "a store is made in an empty file, and this one is not",
        "notastore" => "the file is no store",
        "damaged" => "the file is damaged, first at this byte:",
        "badbase" => "the base is empty, damaged or no store",
        "aside" => "the file is no aside file, first at this byte:",
        "otherbase" =>
            "the file is the aside file of another base; its length and number, and those of the given one:",
        "badstream" => "the input is no stream, first at this byte:",
        "full" => "the store would end past its limit; its end, and the limit:",
        _ => "the file is not served:",
    }
}
