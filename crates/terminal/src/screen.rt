ghost use Rattle.std.specs.Prelude.{◌≤◌, length, IfOk};

use crate::line::{Line, Typed};
use crate::showing::{begins_session, greeting, push_all, shown};
use crate::verb::{after_word, edits, first_word, settles};
use host_io::{Disk, Failed, Host};
use lines::say_all;
use people::{FORMS, Form, form_of};
use read_ahead::Ahead;
use real_host::RealHost;
use std::alloc::AllocError;
use std::io::IsTerminal;
use std::time::Instant;

/// A line that is longer than this is handed on in pieces.
const PIECE: usize = 65_536;

/// How many milliseconds a line takes, at least, of which it is told how long it took.
const SLOW: u64 = 20;

/// What the session is to say next.
#[derive(Clone, Copy, PartialEq, Eq)]
enum Due {
    /// That it begins, or why not.
    Greeting,
    /// Its structures, which this host asked for.
    Structures,
    /// The reply to a person's line.
    Reply,
    /// Bytes for no person: no session began, and a stream is said.
    Stream,
}

/// What a person types and sees, over the host of the machine.
#[derive(Drop)]
pub(crate) struct Screen {
    runtime: HostRuntime,
    pub(crate) host: Ahead<RealHost>,
    /// Whether a person sees the output as it is typed: only then there are prompts and questions.
    is_seen: bool,
    file: String,
    typed: Typed,
    has_ended: bool,
    /// What the session takes now, the first piece of the line that it is answering, and one that waits for the structures.
    line: Line,
    head: Line,
    waiting: Line,
    /// Whether the next piece begins a line.
    begins: bool,
    due: Due,
    structures: String,
    /// Whether views were edited since they were those of a commit.
    is_changed: bool,
    /// When the session got its line.
    since: Option<Instant>,
}

impl Screen {
    /// A screen with no file yet.
    pub fn new(runtime: HostRuntime) -> Screen {
        let alloc = runtime.alloc();
        let is_seen = runtime.stdin().is_terminal() && runtime.stdout().is_terminal();
        Screen {
            runtime,
            host: Ahead::new(alloc, RealHost::new(runtime)),
            is_seen,
            file: String::new(alloc),
            typed: Typed::new(alloc),
            has_ended: false,
            line: Line::new(alloc),
            head: Line::new(alloc),
            waiting: Line::new(alloc),
            begins: true,
            due: Due::Greeting,
            structures: String::new(alloc),
            is_changed: false,
            since: None,
        }
    }

    /// Opens a file, by whose name the person is asked.
    pub fn attach(&mut self, name: &str, create: bool) -> Result<(), Failed> {
        self.file.clear();
        self.file.push_str(file_name(name)).map_err(of_memory)?;
        self.host.attach(name, create)
    }

    /// Gives the next bytes of the line, or those of the next one: 0 at the end of the input. Where no session began the input is a stream.
    pub fn give(&mut self, into: &mut [u8]) -> Result<usize, Failed>
        ensures { IfOk result (λ n. n ≤ length into.new) }
    {
        if matches!(self.due, Due::Greeting | Due::Stream) {
            return self.host.take(into);
        }
        let count = self.line.give(into);
        if count > 0 || !self.prepare()? {
            return Ok(count);
        }
        Ok(self.line.give(into))
    }

    /// Makes the line ready that the session takes next. There is none at the end of the input.
    fn prepare(&mut self) -> Result<bool, Failed> {
        if self.due == Due::Structures {
            self.due = Due::Reply;
            self.line
                .replace(self.waiting.as_bytes())
                .map_err(of_memory)?;
            self.since = self.now();
            return Ok(true);
        }
        for _ in 0..u64::MAX {
            let begins = self.begins;
            if !self.read_piece()? {
                self.tell_loss()?;
                return Ok(false);
            }
            if !begins || self.goes_on()? {
                self.since = self.now();
                return Ok(true);
            }
        }
        Ok(false)
    }

    /// Reads a line, or a piece of a long one. There is none at the end of the input.
    fn read_piece(&mut self) -> Result<bool, Failed> {
        for _ in 0..u64::MAX {
            if let Some(count) = self.typed.line_len() {
                return self.hand_on(count, true);
            }
            let left = self.typed.len();
            if left >= PIECE || (self.has_ended && left > 0) {
                return self.hand_on(left, false);
            }
            if self.has_ended {
                return Ok(false);
            }
            if left == 0 && self.begins {
                self.prompt()?;
            }
            self.read_more()?;
        }
        Ok(false)
    }

    /// Hands so many bytes on, with which a line ends or not.
    fn hand_on(&mut self, count: usize, ends: bool) -> Result<bool, Failed> {
        self.typed
            .hand_on(count, &mut self.line)
            .map_err(of_memory)?;
        if self.begins {
            self.head.replace(self.line.as_bytes()).map_err(of_memory)?;
        }
        self.begins = ends;
        Ok(true)
    }

    fn read_more(&mut self) -> Result<(), Failed> {
        let mut bytes = [0; 4096];
        let count = self.host.take(&mut bytes)?;
        if count == 0 {
            self.has_ended = true;
        }
        self.typed
            .append(bytes.get(..count).unwrap_or_default())
            .map_err(of_memory)
    }

    /// Whether a line that was typed goes to the session. One that asks for help does not, and before one that shows a view the session is asked
    /// for its structures.
    fn goes_on(&mut self) -> Result<bool, Failed> {
        self.due = Due::Reply;
        match first_word(self.head.text()) {
            "help" => {
                self.help()?;
                Ok(false)
            }
            "quit" => self.may_leave(),
            "show" if self.begins => {
                self.waiting
                    .replace(self.line.as_bytes())
                    .map_err(of_memory)?;
                self.line.replace(b"struct\n").map_err(of_memory)?;
                self.due = Due::Structures;
                Ok(true)
            }
            _ => Ok(true),
        }
    }

    fn prompt(&mut self) -> Result<(), Failed> {
        if !self.is_seen {
            return Ok(());
        }
        let mut text = String::new(self.runtime.alloc());
        text.push_str(self.file.as_str()).map_err(of_memory)?;
        text.push_str(if self.is_changed { "*> " } else { "> " })
            .map_err(of_memory)?;
        self.tell(text.as_str())
    }

    fn tell(&mut self, text: &str) -> Result<(), Failed> {
        say_all(&mut self.host, text.as_bytes())
    }

    /// Lists the kinds of lines, or tells of one.
    fn help(&mut self) -> Result<(), Failed> {
        let mut out = String::new(self.runtime.alloc());
        match form_of(after_word(self.head.text())) {
            Some(form) => tell_form(&mut out, form),
            None => list_forms(&mut out),
        }
        .map_err(of_memory)?;
        self.tell(out.as_str())
    }

    /// Whether a person who leaves means it, if there are edits that are not stored.
    fn may_leave(&mut self) -> Result<bool, Failed> {
        if !self.is_changed || !self.is_seen {
            return Ok(true);
        }
        self.tell("There are edits that no commit has stored. Leave without them? (y/n) ")?;
        if !self.read_answer()? {
            return Ok(true);
        }
        let means_it = self.line.text().trim_ascii().starts_with('y');
        if means_it {
            self.line.replace(b"quit\n").map_err(of_memory)?;
        }
        Ok(means_it)
    }

    /// Reads a line that is no line of the session. There is none at the end of the input.
    fn read_answer(&mut self) -> Result<bool, Failed> {
        for _ in 0..u64::MAX {
            if let Some(count) = self.typed.line_len() {
                self.typed
                    .hand_on(count, &mut self.line)
                    .map_err(of_memory)?;
                return Ok(true);
            }
            if self.has_ended || self.typed.len() >= PIECE {
                return Ok(false);
            }
            self.read_more()?;
        }
        Ok(false)
    }

    /// At the end of the input it is told what is lost.
    fn tell_loss(&mut self) -> Result<(), Failed> {
        if !self.is_changed {
            return Ok(());
        }
        self.is_changed = false;
        self.tell("The edits since the last commit are not stored.\n")
    }

    /// Shows what the session says. A stream is said as it is.
    pub fn say(&mut self, from: &[u8]) -> Result<(), Failed> {
        match std::str::from_utf8(from) {
            Ok(reply) if self.due != Due::Stream => self.show(reply),
            _ => {
                self.due = Due::Stream;
                say_all(&mut self.host, from)
            }
        }
    }

    fn show(&mut self, reply: &str) -> Result<(), Failed> {
        match self.due {
            Due::Greeting => self.greet(reply),
            Due::Structures => {
                self.structures.clear();
                self.structures.push_str(reply).map_err(of_memory)
            }
            Due::Reply => self.show_reply(reply),
            Due::Stream => self.tell(reply),
        }
    }

    /// Shows that a session begins, or what comes in its place.
    fn greet(&mut self, reply: &str) -> Result<(), Failed> {
        self.due = if begins_session(reply) {
            Due::Reply
        } else {
            Due::Stream
        };
        let text = greeting(self.runtime.alloc(), reply, self.file.as_str()).map_err(of_memory)?;
        self.tell(text.as_str())
    }

    fn show_reply(&mut self, reply: &str) -> Result<(), Failed> {
        let took = self.took();
        self.note(reply);
        let text = shown(
            self.runtime.alloc(),
            self.head.text(),
            reply,
            self.structures.as_str(),
        )
        .map_err(of_memory)?;
        self.tell(text.as_str())?;
        self.tell_time(took)
    }

    fn now(&self) -> Option<Instant> {
        Instant::now(&self.runtime).ok()
    }

    /// How many milliseconds the session took for its line, if there is a clock.
    fn took(&self) -> u64 {
        match &self.since {
            Some(since) => match since.elapsed(&self.runtime) {
                Ok(took) => u64::try_from(took.as_millis()).unwrap_or(u64::MAX),
                Err(_) => 0,
            },
            None => 0,
        }
    }

    /// A person who waited is told how long it took.
    fn tell_time(&mut self, millis: u64) -> Result<(), Failed> {
        if !self.is_seen || millis < SLOW {
            return Ok(());
        }
        let mut text = String::new(self.runtime.alloc());
        let mut buffer = itoa::Buffer::new();
        push_all(&mut text, &["in ", buffer.format(millis), " ms\n"]).map_err(of_memory)?;
        self.tell(text.as_str())
    }

    /// Notes whether the views are those of a commit after the line that is answered so.
    fn note(&mut self, reply: &str) {
        if !reply.starts_with("ok") {
            return;
        }
        let word = first_word(self.head.text());
        if edits(word) {
            self.is_changed = true;
        } else if settles(word) {
            self.is_changed = false;
        }
    }
}

/// Lists all kinds of lines.
fn list_forms(out: &mut String) -> Result<(), AllocError> {
    for form in &FORMS {
        out.push_str("  ")?;
        push_form(out, form)?;
        push_all(out, &["\n      ", form.does, "\n"])?;
    }
    out.push_str("What an operator is: docs/EXPRESSIONS.md. What a value is: docs/VALUES.md.\n")
}

/// Tells of a kind of lines, with an example.
fn tell_form(out: &mut String, form: &Form) -> Result<(), AllocError> {
    push_form(out, form)?;
    push_all(
        out,
        &["\n  ", form.does, "\n  such as: ", form.example, "\n"],
    )
}

/// The word of a line with its arguments.
fn push_form(out: &mut String, form: &Form) -> Result<(), AllocError> {
    out.push_str(form.word)?;
    if !form.arguments.is_empty() {
        push_all(out, &[" ", form.arguments])?;
    }
    Ok(())
}

/// Out of memory, a call fails.
fn of_memory(_error: AllocError) -> Failed {
    Failed
}

/// The last name of a path.
fn file_name(path: &str) -> &str {
    match path.rsplit_once('/') {
        Some((_folder, name)) => name,
        None => path,
    }
}
