//! Expressions, read or refused.
use expr_text::{Expr, ExprError, parse_expr, print_expr};
use mk_value::Text;
use std::alloc::Global;
use std::process::Abort;
use std::test::Fail;

/// The expression that a text spells.
fn parsed(alloc: Global, text: &str) -> Result<Expr, ExprError> {
    parse_expr(alloc, text)
}

/// The one spelling of an expression.
fn spelled(alloc: Global, expr: &Expr) -> Result<String, Fail> {
    let mut out = Text::new(alloc);
    print_expr(expr, &mut out)?;
    Ok(String::from_str(alloc, out.as_str())?)
}

/// Where a text is refused.
fn refused(alloc: Global, error: &ExprError) -> Result<String, Fail> {
    match error {
        ExprError::Syntax(place) => Ok(format!(in alloc; "syntax {place}")?),
        ExprError::TooDeep(place) => Ok(format!(in alloc; "deep {place}")?),
        ExprError::Memory => Err(Fail::new("out of memory")),
    }
}

/// How a text reads: the one spelling of its expression, or where it is refused.
fn reading(alloc: Global, text: &str) -> Result<String, Fail> {
    match parsed(alloc, text) {
        Ok(expr) => spelled(alloc, &expr),
        Err(error) => refused(alloc, &error),
    }
}

/// The text reads, or is refused, so.
fn reads(rt: &impl Abort, alloc: Global, text: &str, want: &str) -> Result<(), Fail> {
    let found = reading(alloc, text)?;
    assert_eq!(rt; found.as_str(), want, "{text}");
    Ok(())
}

/// Each text reads, or is refused, as is said beside it.
fn all_read(rt: &impl Abort, alloc: Global, table: &[(&str, &str)]) -> Result<(), Fail> {
    for (text, want) in table {
        reads(rt, alloc, text, want)?;
    }
    Ok(())
}

static EXPRESSIONS: [(&str, &str); 33] = [
    ("people", "people"),
    ("  people ", "people"),
    ("t/0/a/12/b", "t/0/a/12/b"),
    ("select(t,a=1)", "select(t,a=1)"),
    (
        "select(t,a=\"x\",b=x\"00ff\",c={(1,2),(3)})",
        "select(t,a=\"x\",b=x\"00ff\",c={(1,2),(3)})",
    ),
    (
        "range(t,a=1:2,b=\"a\":\"b\")",
        "range(t,a=1:2,b=\"a\":\"b\")",
    ),
    ("sort(t)", "sort(t)"),
    ("sort( a , -b )", "sort(a,-b)"),
    ("sort(t,-a,b)", "sort(t,-a,b)"),
    ("project(t,a,a)", "project(t,a,a)"),
    ("without(t,a)", "without(t,a)"),
    ("rename(t,a,b)", "rename(t,a,b)"),
    ("slice(t,0,9,-2)", "slice(t,0,9,-2)"),
    ("slice(t,0,9,0)", "slice(t,0,9,0)"),
    ("concat(t,u)", "concat(t,u)"),
    ("pair(t,u)", "pair(t,u)"),
    ("product(t,u)", "product(t,u)"),
    ("unique(t)", "unique(t)"),
    ("union(t,u)", "union(t,u)"),
    ("intersect(t,u)", "intersect(t,u)"),
    ("minus(t,u)", "minus(t,u)"),
    ("different(t,u)", "different(t,u)"),
    ("groupby(t,a,b:c)", "groupby(t,a,b:c)"),
    ("counts(t,a:n)", "counts(t,a:n)"),
    ("join(t,u,a,b)", "join(t,u,a,b)"),
    ("outerjoin(t,u,a)", "outerjoin(t,u,a)"),
    ("joinprop(t,a)", "joinprop(t,a)"),
    ("outerjoinprop(t,a)", "outerjoinprop(t,a)"),
    ("calc(t,v,a,b:c)", "calc(t,v,a,b:c)"),
    ("keep(t,v,a,b)", "keep(t,v,a,b)"),
    ("select", "select"),
    ("select(select,select=1)", "select(select,select=1)"),
    (
        " select ( t , a = \"x \\n\\\"\" , b = x\"0aff\" , c = { ( 1 , -2 ) , ( 3 ) , ( { } ) } ) ",
        "select(t,a=\"x \\n\\\"\",b=x\"0aff\",c={(1,-2),(3),({})})",
    ),
];

#[test]
fn each_expression_reads(rt: HostRuntime) -> Result<(), Fail> {
    all_read(&rt, rt.alloc(), &EXPRESSIONS)
}

static PLACES: [(&str, &str); 40] = [
    ("", "syntax 0"),
    ("   ", "syntax 3"),
    ("sort(a", "syntax 6"),
    ("sort(", "syntax 5"),
    ("sort()", "syntax 5"),
    ("foo(a)", "syntax 3"),
    ("SORT(t)", "syntax 4"),
    ("a b", "syntax 2"),
    ("t/0", "syntax 3"),
    ("t/0/", "syntax 4"),
    ("t/-1/a", "syntax 2"),
    ("sort(t))", "syntax 7"),
    ("sort(t,)", "syntax 7"),
    ("sort(t,a,)", "syntax 9"),
    ("select(t)", "syntax 8"),
    ("select(t,a)", "syntax 10"),
    ("select(t,a=1,)", "syntax 13"),
    ("select(t,a=b)", "syntax 11"),
    ("select(t,a=-b)", "syntax 11"),
    ("range(t,a=1)", "syntax 11"),
    ("project(t)", "syntax 9"),
    ("project(t a)", "syntax 10"),
    ("rename(t,a)", "syntax 10"),
    ("rename(t,a b)", "syntax 11"),
    ("slice(t,-1,9,1)", "syntax 8"),
    ("slice(t,0,9)", "syntax 11"),
    ("slice(t,0,9,1,1)", "syntax 13"),
    ("concat(t)", "syntax 8"),
    ("unique(t,a)", "syntax 8"),
    ("groupby(t,a)", "syntax 11"),
    ("counts(t:n)", "syntax 8"),
    ("join(t,u)", "syntax 8"),
    ("calc(t,v:b)", "syntax 8"),
    ("keep(t,v)", "syntax 8"),
    ("select(t,a={({({({({({({({1}", "syntax 26"),
    ("t %", "syntax 2"),
    ("sort(%", "syntax 5"),
    ("foo(a %", "syntax 6"),
    ("minus(t,)", "syntax 8"),
    ("sort(t,--a)", "syntax 8"),
];

#[test]
fn each_offence_has_its_place(rt: HostRuntime) -> Result<(), Fail> {
    all_read(&rt, rt.alloc(), &PLACES)
}

/// A text between so many operators inside one another.
fn nested(
    alloc: Global,
    before: &str,
    count: usize,
    inner: &str,
    behind: &str,
) -> Result<String, Fail> {
    let mut text = String::from_str(alloc, before)?;
    for _ in 0..count {
        text.push_str("sort(")?;
    }
    text.push_str(inner)?;
    for _ in 0..count {
        text.push_str(")")?;
    }
    text.push_str(behind)?;
    Ok(text)
}

/// What stands before, how many operators inside one another, what in them, what behind, and how it reads.
static DEPTHS: [(&str, usize, &str, &str, &str); 8] = [
    ("", 16, "t", "", "deep 75"),
    ("", 17, "t", "", "deep 75"),
    ("", 15, "concat(t,u)", "", "deep 75"),
    ("", 16, "t", " %", "deep 75"),
    ("% ", 16, "t", "", "syntax 0"),
    (") ", 16, "t", "", "syntax 0"),
    (") ", 16, "t", "%", "syntax 99"),
    ("minus(t,", 15, "t", ")", "deep 78"),
];

#[test]
fn depth_decides_by_place(rt: HostRuntime) -> Result<(), Fail> {
    let alloc = rt.alloc();
    for (before, count, inner, behind, want) in &DEPTHS {
        let text = nested(alloc, before, *count, inner, behind)?;
        reads(&rt, alloc, text.as_str(), want)?;
    }
    Ok(())
}

#[test]
fn fifteen_operators_read(rt: HostRuntime) -> Result<(), Fail> {
    let alloc = rt.alloc();
    for inner in ["t", "sort", "t/0/a"] {
        let text = nested(alloc, "", 15, inner, "")?;
        reads(&rt, alloc, text.as_str(), text.as_str())?;
    }
    Ok(())
}
