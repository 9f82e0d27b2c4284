// The spans of a directory.
ghost use Rattle.std.specs.Prelude.{◌≡◌, ◌++◌, ◌∷◌, [], IfOk, OnOk};
ghost use Rattle.dir_codec.specs.Dir.{bodies_from, entries_from};
ghost use Rattle.dir_codec.specs.Values.{dir_of, entry_of};
ghost use Rattle.recovery.specs.Spans.{bodies_spans, dir_spans, entries_spans, entry_spans, memo_spans, some_spans};

use dir_codec::{Dir, DirBodies, DirCol, DirCols, Memo};
use mk_value::{Memory, Span};
use std::alloc::Global;

/// The spans of a directory that are not empty, in its order, and its own last.
pub(crate) fn spans_of(alloc: Global, dir: &Dir, own: Span) -> Result<Vec<Span>, Memory>
    ensures { IfOk result (λ spans. spans.items ≡ some_spans (dir_spans (dir_of dir.now)) ++ own ∷ []) }
{
    let mut spans = Vec::new(alloc);
    for view in dir.views.as_slice() {
        push_columns(&mut spans, &view.body.cols)?;
    }
    spans.push(own)?;
    Ok(spans)
}

/// Appends a span, unless it is empty.
fn push_some(spans: &mut Vec<Span>, span: Span) -> Result<(), Memory>
    ensures { OnOk result (spans.new.items ≡ spans.old.items ++ some_spans (span ∷ [])) }
{
    if span.len > 0 {
        spans.push(span)?;
    }
    Ok(())
}

fn push_memos(spans: &mut Vec<Span>, memos: &[Memo]) -> Result<(), Memory>
    ensures { OnOk result (spans.new.items ≡ spans.old.items ++ some_spans (memo_spans memos.now)) }
{
    for memo in memos {
        push_some(spans, memo.span)?;
    }
    Ok(())
}

#[cycle(spans)]
fn push_column(spans: &mut Vec<Span>, column: &DirCol) -> Result<(), Memory>
    ensures { OnOk result (spans.new.items ≡ spans.old.items ++ some_spans (entry_spans (entry_of column.now))) }
{
    match column {
        DirCol::Ints { width: _, span } => push_some(spans, *span),
        DirCol::Blobs {
            width: _,
            sizes,
            short,
            memos,
        } => {
            push_some(spans, *sizes)?;
            push_some(spans, *short)?;
            push_memos(spans, memos.as_slice())
        }
        DirCol::Views(bodies) => push_bodies(spans, bodies),
    }
}

#[cycle(spans)]
fn push_columns(spans: &mut Vec<Span>, columns: &DirCols) -> Result<(), Memory>
    ensures { OnOk result (spans.new.items ≡ spans.old.items ++ some_spans (entries_spans (entries_from columns.now))) }
{
    for column in columns.as_slice() {
        push_column(spans, column)?;
    }
    Ok(())
}

#[cycle(spans)]
fn push_bodies(spans: &mut Vec<Span>, bodies: &DirBodies) -> Result<(), Memory>
    ensures { OnOk result (spans.new.items ≡ spans.old.items ++ some_spans (bodies_spans (bodies_from bodies.now))) }
{
    for body in bodies.as_slice() {
        push_columns(spans, &body.cols)?;
    }
    Ok(())
}
