//! The spans that blocks were given, handed out again in their order.
ghost use Rattle.std.specs.Prelude.{◌≡◌, ◌<◌, ◌≤◌, ◌∷◌, length, take, drop};

use mk_value::Span;
use std::marker::Model;

/// Spans that are handed out in their order. A caller sees those to come.
#[derive(Drop)]
pub(crate) struct Places<'a> {
    spans: &'a [Span],
    next: usize,
}

impl<'a> Model for Places<'a> {
    ghost use Rattle.std.specs.Prelude.{List, drop, length, ◌≤◌};
    ghost use Rattle.mk_value.specs.declared.span.Span.{Span};

    ghost Value = { List Span };

    ghost view = { λ p. drop p.next p.spans.now };

    ghost invariant = { λ p. p.next ≤ length p.spans.now };
}

impl<'a> Places<'a> {
    /// All of these.
    pub(crate) fn of(spans: &'a [Span]) -> Places<'a>
        ensures { result ≡ spans.now }
    {
        Places { spans, next: 0 }
    }

    /// How many are to come.
    pub(crate) fn left(&self) -> usize
        ensures { result ≡ length self.now }
    {
        self.spans.len() - self.next
    }

    /// The next one.
    pub(crate) fn one(&mut self) -> Span
        requires { 0 < length self.old }
        ensures { self.old ≡ result ∷ self.new }
    {
        let span = self.spans[self.next];
        self.next += 1;
        span
    }

    /// The next ones, so many.
    pub(crate) fn many(&mut self, count: usize) -> &'a [Span]
        requires { count ≤ length self.old }
        ensures given { result.now ≡ take count self.old }
        ensures rest { self.new ≡ drop count self.old }
    {
        let from = self.next;
        self.next += count;
        &self.spans[from..from + count]
    }
}
