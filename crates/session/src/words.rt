//! Lines that are told without memory.
ghost use Rattle.std.specs.Prelude.{◌≡◌, ◌&&◌, codes};
ghost use Rattle.std.specs.List.{list_all};
ghost use Rattle.std.specs.Str.{bytes_eq};
ghost use Rattle.cmd_text.specs.Lines.{is_space, without_leading, without_trailing};
ghost use Rattle.session.specs.Lines.{is_blank, is_quit};

/// What parts words. A tab or a carriage return does not.
const SPACE: char = ' ';

/// Whether a line asks for nothing: it is all spaces, or empty.
pub fn is_blank(line: &[u8]) -> bool
    ensures { result ≡ is_blank line.now }
{
    line.iter().all(|byte| *byte == b' ')
}

/// Whether a line ends the session: its one word is `quit`.
pub fn is_quit(line: &[u8]) -> bool
    ensures { result ≡ is_quit line.now }
{
    match str::from_utf8(line) {
        Ok(text) => without_spaces(text) == "quit",
        Err(_) => false,
    }
}

/// The text without the spaces around it.
fn without_spaces(text: &str) -> &str
    ensures { result.now ≡ without_trailing (without_leading text.now) }
{
    let text = without_leading_spaces(text);
    text.trim_end_matches(SPACE)
}

fn without_leading_spaces(text: &str) -> &str
    ensures { result.now ≡ without_leading text.now }
{
    text.trim_start_matches(SPACE)
}
