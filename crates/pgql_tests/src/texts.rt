//! The one text of a query.

ghost use Rattle.std.specs.Prelude.{◌<◌, ◌≤◌, ◌^◌, length};

use pgql_syntax::{parse, print, print_expr};
use std::alloc::Global;
use std::test::Fail;

/// Queries, and below each the text that is written of it.
const FORMS: &str = "\
select distinct a . name as n , ID ( b ) match ( a : x | y ) - [ ] -> ( b ) < - [ e ] - ( ) , (c)
SELECT DISTINCT a.name AS n, id(b) MATCH (a:x|y)->(b)<-[e]-(), (c)

SELECT (1 + 2) * 3 - (4 - 5) MATCH (a) WHERE NOT (a.x = 1 OR (b.y IS not null)) ORDER BY (k) ASC, -(-1) DESC LIMIT 010
SELECT (1 + 2) * 3 - (4 - 5) MATCH (a) WHERE NOT (a.x = 1 OR b.y IS NOT NULL) ORDER BY k, --1 DESC LIMIT 10

SELECT (1 = 2) = TRUE, (NOT x) IS NULL, date '2020-01-01', 'it''s' MATCH ()
SELECT (1 = 2) = TRUE, (NOT x) IS NULL, DATE '2020-01-01', 'it''s' MATCH ()";

/// Whether what is written of the query is this.
fn is_written(alloc: Global, text: &str, want: &str) -> Result<bool, Fail> {
    if text.len() > 1000 {
        return Ok(false);
    }
    let ast = parse(alloc, text.as_bytes(), 0)?;
    let written = print(alloc, &ast)?;
    Ok(written.as_slice() == want.as_bytes())
}

/// Whether the first item of the query is written so.
fn has_item(alloc: Global, text: &str, want: &str) -> Result<bool, Fail> {
    if text.len() > 1000 {
        return Ok(false);
    }
    let ast = parse(alloc, text.as_bytes(), 0)?;
    let [item, ..] = ast.items.as_slice() else {
        return Ok(false);
    };
    let written = print_expr(alloc, &item.expr)?;
    Ok(written.as_slice() == want.as_bytes())
}

#[test]
fn queries_are_written_in_one_form(rt: HostRuntime) -> Result<(), Fail> {
    for block in FORMS.split("\n\n") {
        let (text, want) = block.split_once('\n').unwrap_or((block, ""));
        assert!(rt; is_written(rt.alloc(), text, want)?, "at {text:?}");
        assert!(rt; is_written(rt.alloc(), want, want)?, "at {want:?}");
    }
    Ok(())
}

#[test]
fn expressions_are_written_alone(rt: HostRuntime) -> Result<(), Fail> {
    let text = "SELECT (a.x+1)*2 MATCH (a)";
    assert!(rt; has_item(rt.alloc(), text, "(a.x + 1) * 2")?);
    Ok(())
}
