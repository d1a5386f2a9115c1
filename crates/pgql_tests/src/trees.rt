//! Trees apart from their places, and the places of refusals.

ghost use Rattle.std.specs.Prelude.{◌<◌, ◌≤◌, ◌^◌, length};

use pgql_syntax::{SyntaxFault, parse};
use std::alloc::Global;
use std::test::Fail;

/// Two queries with one tree.
const SAME: &str = "\
SELECT a.x MATCH (a)
SELECT  (a.x) MATCH ( a )

SELECT ID(a) MATCH (a)
SELECT id(a) MATCH (a)

select 'a' MATCH (:x|y)
SELECT 'a' MATCH (:x | y)

select distinct a . name as n , ID ( b ) match ( a : x | y ) - [ ] -> ( b ) < - [ e ] - ( ) , (c)
SELECT DISTINCT a.name AS n, id(b) MATCH (a:x|y)->(b)<-[e]-(), (c)

SELECT (1 + 2) * 3 - (4 - 5) MATCH (a) WHERE NOT (a.x = 1 OR (b.y IS not null)) ORDER BY (k) ASC, -(-1) DESC LIMIT 010
SELECT (1 + 2) * 3 - (4 - 5) MATCH (a) WHERE NOT (a.x = 1 OR b.y IS NOT NULL) ORDER BY k, --1 DESC LIMIT 10

SELECT (1 = 2) = TRUE, (NOT x) IS NULL, date '2020-01-01', 'it''s' MATCH ()
SELECT (1 = 2) = TRUE, (NOT x) IS NULL, DATE '2020-01-01', 'it''s' MATCH ()";

/// Two queries with different trees.
const DIFFERENT: &str = "\
SELECT 1 + a.x MATCH (a)
SELECT a.x + 1 MATCH (a)

SELECT 1 MATCH (a)->(b)
SELECT 1 MATCH (a)<-(b)

SELECT 1 MATCH (a) ORDER BY 1
SELECT 1 MATCH (a) ORDER BY 1 DESC

SELECT 1 MATCH (a) LIMIT 1
SELECT 1 MATCH (a)

SELECT 1 AS b MATCH (a:x|y)
SELECT 1 AS b MATCH (a:y|x)";

/// Whether both have one tree.
fn are_same(alloc: Global, one: &str, other: &str) -> Result<bool, Fail> {
    if one.len() > 1000 || other.len() > 1000 {
        return Ok(false);
    }
    let first = parse(alloc, one.as_bytes(), 0)?;
    let second = parse(alloc, other.as_bytes(), 500)?;
    Ok(first.same(&second))
}

/// Why the text, which begins there in its file, is refused, if it is.
fn fault(alloc: Global, text: &str, base: u32) -> Option<SyntaxFault> {
    if text.len() > 1000 || base > 1000 {
        return None;
    }
    parse(alloc, text.as_bytes(), base).err()
}

#[test]
fn places_make_no_difference(rt: HostRuntime) -> Result<(), Fail> {
    for block in SAME.split("\n\n") {
        let (one, other) = block.split_once('\n').unwrap_or((block, ""));
        assert!(rt; are_same(rt.alloc(), one, other)?, "at {one:?}");
    }
    Ok(())
}

#[test]
fn trees_differ_by_more_than_places(rt: HostRuntime) -> Result<(), Fail> {
    for block in DIFFERENT.split("\n\n") {
        let (one, other) = block.split_once('\n').unwrap_or((block, block));
        assert!(rt; !are_same(rt.alloc(), one, other)?, "at {one:?}");
    }
    Ok(())
}

#[test]
fn places_count_from_the_base(rt: HostRuntime) {
    for (text, base, want) in [
        ("SELECT 1 MATCH a", 1000, SyntaxFault::Unexpected(1015)),
        ("", 7, SyntaxFault::Unexpected(7)),
    ] {
        assert_eq!(rt; fault(rt.alloc(), text, base), Some(want));
    }
}
