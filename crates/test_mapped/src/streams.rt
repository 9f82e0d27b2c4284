//! Streams of events that follow from a number, over an index and beside it over plain keys.
ghost use Rattle.std.specs.Prelude.{◌<◌, ◌≡◌};

use crate::following::{change, insert, remove};
use mapped::HashIndex;
use mk_value::{HeldRows, Row, Rows, Text, Value, rows_fit};
use std::alloc::Global;
use std::test::Fail;
use struct_text::parse;

/// How many streams there are, and how many edits each has. The keys are the numbers below another.
const STREAMS: u64 = 60;

const EDITS: usize = 120;

const KEYS: usize = 35;

/// How many edits there are from one index made anew to the next.
const BETWEEN: usize = 20;

/// Numbers that follow from a first one.
#[derive(Drop)]
struct Numbers {
    state: u64,
}

impl Numbers {
    /// The next number below another.
    fn below(&mut self, bound: usize) -> usize
        requires { 0 < bound }
        ensures { result < bound }
    {
        self.state = self
            .state
            .wrapping_mul(6_364_136_223_846_793_005)
            .wrapping_add(1_442_695_040_888_963_407);
        (self.state >> 33) as usize % bound
    }
}

/// An index, and the numbers of the keys that it is to have.
#[derive(Drop)]
struct Both {
    index: HashIndex,
    plain: Vec<usize>,
}

/// The key of a number: a number that several have, and a text.
fn key_of(alloc: Global, number: usize) -> Result<Row, Fail> {
    let mut text = Text::new(alloc);
    text.push_str(format!(in alloc; "key {}", number / 5)?.as_str())?;
    let mut key = Row::new(alloc);
    key.push(Value::I((number % 5) as i32))?;
    key.push(Value::S(text))?;
    Ok(key)
}

/// An index made of rows with these keys.
fn index_of(alloc: Global, plain: &[usize]) -> Result<HashIndex, Fail> {
    let (_, schema) = parse(alloc, "t[a:I,b:S]")?;
    let mut rows = Rows::new(alloc);
    for number in plain {
        rows.push(key_of(alloc, *number)?)?;
    }
    if !rows_fit(&rows, &schema) {
        return Err(Fail::new("no rows of the schema"));
    }
    Ok(HashIndex::make(alloc, &HeldRows::of(schema, rows), 2)?)
}

impl Both {
    /// Adds a row: in the place of the row that has its key, or at a position.
    fn add(&mut self, alloc: Global, at: usize, number: usize) -> Result<(), Fail> {
        match self.plain.iter().position(|known| *known == number) {
            Some(old) => {
                self.take(old)?;
                self.put(alloc, old, number)
            }
            None => self.put(alloc, at, number),
        }
    }

    /// Gives a row another key, and takes another row that has it out first.
    fn set(&mut self, alloc: Global, at: usize, number: usize) -> Result<(), Fail> {
        let mut at = at;
        let other = self.plain.iter().position(|known| *known == number);
        if let Some(other) = other {
            if other != at {
                self.take(other)?;
                at = if other < at { at.saturating_sub(1) } else { at };
            }
        }
        if at >= self.plain.len() {
            return Err(Fail::new("no row"));
        }
        self.plain[at] = number;
        change(&mut self.index, at, key_of(alloc, number)?)
    }

    fn put(&mut self, alloc: Global, at: usize, number: usize) -> Result<(), Fail> {
        if at > self.plain.len() {
            return Err(Fail::new("no place"));
        }
        self.plain.insert(at, number)?;
        insert(&mut self.index, at, key_of(alloc, number)?)
    }

    fn take(&mut self, at: usize) -> Result<(), Fail> {
        if at >= self.plain.len() {
            return Err(Fail::new("no row"));
        }
        self.plain.remove(at);
        remove(&mut self.index, at)
    }

    /// One edit, as the numbers say.
    fn edit(&mut self, alloc: Global, numbers: &mut Numbers) -> Result<(), Fail> {
        let size = self.plain.len();
        let number = numbers.below(KEYS);
        let kind = numbers.below(4);
        if size == 0 || kind < 2 {
            let at = numbers.below(size.saturating_add(1).max(1));
            return self.add(alloc, at, number);
        }
        let at = numbers.below(size.max(1));
        if kind == 2 {
            self.take(at)
        } else {
            self.set(alloc, at, number)
        }
    }
}

/// Whether an index has each key where the plain list has it.
fn agrees(alloc: Global, index: &HashIndex, plain: &[usize]) -> Result<bool, Fail> {
    for number in 0..KEYS {
        let expected = plain.iter().position(|known| *known == number);
        if index.find(&key_of(alloc, number)?) != expected {
            return Ok(false);
        }
    }
    Ok(index.len() == plain.len())
}

/// Whether a stream leaves the index as one made anew, and finds each key after each edit.
fn stream_agrees(alloc: Global, first: u64) -> Result<bool, Fail> {
    let mut numbers = Numbers { state: first };
    let mut both = Both {
        index: index_of(alloc, &[])?,
        plain: Vec::new(alloc),
    };
    for edit in 0..EDITS {
        both.edit(alloc, &mut numbers)?;
        if !agrees(alloc, &both.index, &both.plain)? {
            return Ok(false);
        }
        if edit % BETWEEN == 0 {
            both.index = index_of(alloc, &both.plain)?;
        }
    }
    Ok(true)
}

#[test]
fn an_index_follows_its_rows(rt: HostRuntime) -> Result<(), Fail> {
    for first in 0..STREAMS {
        assert!(rt; stream_agrees(rt.alloc(), first)?, "stream {first}");
    }
    Ok(())
}
