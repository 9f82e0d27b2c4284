//! What a person is shown of a reply.
use crate::verb::{after_word, first_word};
use people::{Refusal, form_of, meaning, nearest, not_served, properties, table, view_of};
use std::alloc::{AllocError, Global};

/// What is said where a session begins, in front of the number of its commit.
const BEGINS: &str = "ok mkshell ";

/// Whether a session begins with this.
pub(crate) fn begins_session(reply: &str) -> bool {
    reply.starts_with(BEGINS)
}

/// What the session says first, as a person reads it.
pub(crate) fn greeting(alloc: Global, reply: &str, file: &str) -> Result<String, AllocError> {
    let mut out = String::new(alloc);
    if let Some(number) = reply.strip_prefix(BEGINS) {
        push_all(&mut out, &[file, ", commit ", number.trim_ascii()])?;
        out.push_str(". `help` lists what can be asked.\n")?;
    } else if let Some(rest) = reply.strip_prefix("refused ") {
        let (word, numbers) = rest
            .trim_ascii()
            .split_once(' ')
            .unwrap_or((rest.trim_ascii(), ""));
        push_all(&mut out, &["refused: ", not_served(word)])?;
        if !numbers.is_empty() {
            push_all(&mut out, &[" ", numbers])?;
        }
        push_all(&mut out, &[" (", word, ")\n"])?;
    } else if reply.starts_with("usage ") {
        out.push_str("These words are wrong. `mk --help` tells which are right.\n")?;
    } else {
        out.push_str(reply)?;
    }
    Ok(out)
}

/// A reply to a line as a person reads it. The structures are the lines of `struct`.
pub(crate) fn shown(
    alloc: Global,
    line: &str,
    reply: &str,
    structures: &str,
) -> Result<String, AllocError> {
    if let Some(refusal) = Refusal::of(reply) {
        return refused(alloc, line, refusal);
    }
    let word = first_word(line);
    let (first, rest) = reply.split_once('\n').unwrap_or((reply, ""));
    let told = first.strip_prefix("ok").unwrap_or(first).trim_ascii();
    match word {
        "show" => rows(alloc, after_word(line), told, rest, structures),
        "struct" | "log" => listed(alloc, told, rest),
        _ => told_as(alloc, word, told),
    }
}

/// A refusal: where in the line the offence is, what it means, and the word that may have been meant.
fn refused(alloc: Global, line: &str, refusal: Refusal<'_>) -> Result<String, AllocError> {
    let mut out = String::new(alloc);
    if let Some(at) = refusal.place() {
        point_at(&mut out, line, at)?;
    }
    push_all(&mut out, &["refused: ", meaning(refusal.word)])?;
    if refusal.place().is_none() && !refusal.numbers.is_empty() {
        push_all(&mut out, &[" ", refusal.numbers])?;
    }
    let word = first_word(line);
    if refusal.word == "syntax" {
        match form_of(word) {
            Some(form) => push_all(
                &mut out,
                &["; its form is ", form.word, " ", form.arguments],
            )?,
            None => {
                if let Some(near) = nearest(alloc, word)? {
                    push_all(&mut out, &["; did you mean ", near, "?"])?;
                }
            }
        }
    }
    push_all(&mut out, &[" (", refusal.word, ")\n"])?;
    Ok(out)
}

/// The line again, with a caret under a byte of it.
fn point_at(out: &mut String, line: &str, at: usize) -> Result<(), AllocError> {
    let line = line.strip_suffix("\n").unwrap_or(line);
    if line.len() > 200 {
        return Ok(());
    }
    push_all(out, &["  ", line, "\n  "])?;
    for _ in line.get(..at.min(line.len())).unwrap_or_default().chars() {
        out.push(' ')?;
    }
    out.push_str("^\n")
}

/// The rows of an expression as a table, and how many they are.
fn rows(
    alloc: Global,
    expression: &str,
    count: &str,
    rows: &str,
    structures: &str,
) -> Result<String, AllocError> {
    let names = match view_of(expression) {
        Some(view) => properties(alloc, structures, view)?,
        None => Vec::new(alloc),
    };
    let mut out = table(alloc, &names, rows)?;
    push_rows(&mut out, count)?;
    out.push_str("\n")?;
    Ok(out)
}

/// The lines of a reply as they are.
fn listed(alloc: Global, count: &str, lines: &str) -> Result<String, AllocError> {
    let mut out = String::new(alloc);
    if count == "0" {
        out.push_str("none\n")?;
    }
    out.push_str(lines)?;
    Ok(out)
}

/// What a line with this word was told, in words.
fn told_as(alloc: Global, word: &str, told: &str) -> Result<String, AllocError> {
    let mut out = String::new(alloc);
    match word {
        "quit" => return Ok(out),
        _ if told.is_empty() => out.push_str("done")?,
        "add" => push_all(&mut out, &["row ", told])?,
        "size" | "watch" | "dup" => push_rows(&mut out, told)?,
        "insert" | "remove" => {
            out.push_str("now ")?;
            push_rows(&mut out, told)?;
        }
        "find" | "search" | "next" | "prev" | "cursor" if told != "none" => {
            push_all(&mut out, &["row ", told])?;
        }
        "locate" => {
            let (place, count) = told.split_once(' ').unwrap_or((told, ""));
            push_all(&mut out, &["row ", place, ", "])?;
            push_rows(&mut out, count)?;
        }
        "commit" => {
            let number = told.strip_prefix("commit ").unwrap_or(told);
            push_all(&mut out, &["stored as commit ", number])?;
        }
        _ => out.push_str(told)?,
    }
    out.push_str("\n")?;
    Ok(out)
}

/// So many rows.
fn push_rows(out: &mut String, count: &str) -> Result<(), AllocError> {
    push_all(out, &[count, if count == "1" { " row" } else { " rows" }])
}

/// Appends texts.
pub(crate) fn push_all(out: &mut String, texts: &[&str]) -> Result<(), AllocError> {
    for text in texts {
        out.push_str(text)?;
    }
    Ok(())
}
