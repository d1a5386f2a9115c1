//! Whole queries.

ghost use Rattle.std.specs.Prelude.{◌≡◌, Ok};
ghost use Rattle.adfs_base.specs.declared.limits.TheConstants.{EXPRESSION_HEIGHT};
ghost use Rattle.pgql_syntax.specs.Grammar.{at_of};
ghost use Rattle.pgql_lexemes.specs.Lists.{optional, separated};
ghost use Rattle.pgql_syntax.specs.Patterns.{read_placed, read_path};
ghost use Rattle.pgql_syntax.specs.Queries as spec;
ghost use Rattle.pgql_syntax.specs.Queries.{query_with};
ghost use Rattle.pgql_lexemes.specs.Reads.{Reads};
ghost use Rattle.pgql_lexemes.specs.declared.kind.Kind.TheVariants as kind;

use crate::part::{Part, list};
use crate::pattern::name;
use adfs_base::EXPRESSION_HEIGHT;
use pgql_expr::nested;
use pgql_lexemes::{Input, Kind, Stop};
use pgql_tree::{Ast, AstExpr, Item, Key, Level, Path, Placed};
use sqlite_items::{Boxed, Items};
use std::alloc::Global;

/// What stands before the condition of a query.
#[derive(Drop)]
pub struct Head {
    pub distinct: bool,
    pub items: Items<Item>,
    pub paths: Items<Path>,
}

/// What stands after the paths of a query.
#[derive(Drop)]
pub struct Tail {
    pub condition: Option<AstExpr>,
    pub keys: Items<Key>,
    pub limit: Option<u64>,
}

/// `Expr`
#[tactic(auto, unfolding(crate::specs::Queries::read_whole_expr))]
fn expr(alloc: Global, input: &mut Input<'_>) -> Result<AstExpr, Stop>
    ensures { Reads (spec.read_whole_expr EXPRESSION_HEIGHT input.old) result input.new }
{
    let x = nested(alloc, input, EXPRESSION_HEIGHT + 1, Level::Or)?;
    Ok(x.expr)
}

/// The place of an expression: that of its first token, parentheses round it not counted.
fn at_of(x: &AstExpr) -> u32
    ensures { result ≡ at_of x.now }
{
    match x {
        AstExpr::Int { at, .. } => *at,
        AstExpr::Text { at, .. } => *at,
        AstExpr::Date { at, .. } => *at,
        AstExpr::Bool { at, .. } => *at,
        AstExpr::Name { at, .. } => *at,
        AstExpr::Property { at, .. } => *at,
        AstExpr::Id { at, .. } => *at,
        AstExpr::Label { at, .. } => *at,
        AstExpr::Not { at, .. } => *at,
        AstExpr::Neg { at, .. } => *at,
        AstExpr::IsNull { at, .. } => *at,
        AstExpr::Binary { at, .. } => *at,
    }
}

/// `[AS Name]`
#[tactic(auto, using(crate::proofs::Choices::optional_is))]
fn as_name(alloc: Global, input: &mut Input<'_>) -> Result<Option<Boxed<Placed>>, Stop>
    ensures { Reads (optional read_placed kind.As input.old) result input.new }
{
    if input.eat(Kind::As) {
        Ok(Some(name(alloc, input)?))
    } else {
        Ok(None)
    }
}

/// `Expr [AS Name]`
impl Part for Item {
    ghost reading = { spec.read_item EXPRESSION_HEIGHT };

    #[tactic(auto, unfolding(crate::specs::Queries::read_item))]
    fn read(alloc: Global, input: &mut Input<'_>) -> Result<Item, Stop> {
        let expr = expr(alloc, input)?;
        let name = as_name(alloc, input)?;
        let at = at_of(&expr);
        Ok(Item { expr, name, at })
    }
}

/// `[ASC | DESC]`, and whether it is DESC.
#[tactic(auto, using(crate::proofs::Choices::desc_read, crate::proofs::Choices::other_read, crate::proofs::Turn::after_none))]
fn direction(input: &mut Input<'_>) -> bool
    ensures { spec.read_direction input.old ≡ Ok (result, input.new) }
{
    if input.eat(Kind::Desc) {
        return true;
    }
    input.eat(Kind::Asc);
    false
}

/// `Expr [ASC | DESC]`
impl Part for Key {
    ghost reading = { spec.read_key EXPRESSION_HEIGHT };

    #[tactic(auto, unfolding(crate::specs::Queries::read_key))]
    fn read(alloc: Global, input: &mut Input<'_>) -> Result<Key, Stop> {
        let expr = expr(alloc, input)?;
        let down = direction(input);
        let at = at_of(&expr);
        Ok(Key { expr, down, at })
    }
}

/// `[ORDER BY Key {"," Key}]`
#[tactic(auto, using(crate::proofs::Choices::keys_is))]
fn keys(alloc: Global, input: &mut Input<'_>) -> Result<Items<Key>, Stop>
    ensures { Reads (spec.read_keys EXPRESSION_HEIGHT input.old) result input.new }
{
    if input.eat(Kind::Order) {
        input.expect(Kind::By)?;
        list(alloc, input, Kind::Comma)
    } else {
        Ok(Items::new(alloc))
    }
}

/// `[WHERE Expr]`
#[tactic(auto, using(crate::proofs::Choices::optional_is))]
fn condition(alloc: Global, input: &mut Input<'_>) -> Result<Option<AstExpr>, Stop>
    ensures { Reads (optional (spec.read_whole_expr EXPRESSION_HEIGHT) kind.Where input.old) result input.new }
{
    if input.eat(Kind::Where) {
        Ok(Some(expr(alloc, input)?))
    } else {
        Ok(None)
    }
}

/// `Number`
#[tactic(auto, unfolding(crate::specs::Queries::read_number))]
fn number(input: &mut Input<'_>) -> Result<u64, Stop>
    ensures { Reads (spec.read_number input.old) result input.new }
{
    let t = input.expect(Kind::Number)?;
    Ok(t.number())
}

/// `[LIMIT Number]`
#[tactic(auto, using(crate::proofs::Choices::optional_is))]
fn limit(input: &mut Input<'_>) -> Result<Option<u64>, Stop>
    ensures { Reads (optional spec.read_number kind.Limit input.old) result input.new }
{
    if input.eat(Kind::Limit) {
        Ok(Some(number(input)?))
    } else {
        Ok(None)
    }
}

/// `SELECT [DISTINCT] Item {"," Item}`
#[tactic(auto, using(crate::proofs::Choices::distinct_is), unfolding(crate::specs::Queries::read_selection))]
fn selection(alloc: Global, input: &mut Input<'_>) -> Result<(bool, Items<Item>), Stop>
    ensures { Reads (spec.read_selection EXPRESSION_HEIGHT input.old) result input.new }
{
    input.expect(Kind::Select)?;
    let only = input.eat(Kind::Distinct);
    let items = list(alloc, input, Kind::Comma)?;
    Ok((only, items))
}

/// `MATCH Path {"," Path}`
#[tactic(auto, using(crate::proofs::Paths::path_shrinks), unfolding(crate::specs::Queries::read_pattern))]
fn pattern(alloc: Global, input: &mut Input<'_>) -> Result<Items<Path>, Stop>
    ensures { Reads (spec.read_pattern input.old) result input.new }
{
    input.expect(Kind::Match)?;
    list(alloc, input, Kind::Comma)
}

/// `[ORDER BY Key {"," Key}] [LIMIT Number]`
#[tactic(auto, unfolding(crate::specs::Queries::read_order))]
fn order(alloc: Global, input: &mut Input<'_>) -> Result<(Items<Key>, Option<u64>), Stop>
    ensures { Reads (spec.read_order EXPRESSION_HEIGHT input.old) result input.new }
{
    let keys = keys(alloc, input)?;
    let limit = limit(input)?;
    Ok((keys, limit))
}

/// `[WHERE Expr] [ORDER BY Key {"," Key}] [LIMIT Number]`
#[tactic(auto, using(crate::proofs::Choices::tail_is))]
fn clauses(alloc: Global, input: &mut Input<'_>) -> Result<Tail, Stop>
    ensures { Reads (spec.read_tail EXPRESSION_HEIGHT input.old) result input.new }
{
    let condition = condition(alloc, input)?;
    let (keys, limit) = order(alloc, input)?;
    Ok(Tail {
        condition,
        keys,
        limit,
    })
}

/// `SELECT [DISTINCT] Item {"," Item} MATCH Path {"," Path}`
#[tactic(auto, unfolding(crate::specs::Queries::read_head))]
fn front(alloc: Global, input: &mut Input<'_>) -> Result<Head, Stop>
    ensures { Reads (spec.read_head EXPRESSION_HEIGHT input.old) result input.new }
{
    let (distinct, items) = selection(alloc, input)?;
    let paths = pattern(alloc, input)?;
    Ok(Head {
        distinct,
        items,
        paths,
    })
}

/// The query of the two.
fn query_with(head: Head, tail: Tail) -> Ast
    ensures { result ≡ query_with head tail }
{
    Ast {
        distinct: head.distinct,
        items: head.items,
        paths: head.paths,
        condition: tail.condition,
        keys: tail.keys,
        limit: tail.limit,
    }
}

/// A query.
#[tactic(auto, using(crate::proofs::Choices::query_is))]
fn query(alloc: Global, input: &mut Input<'_>) -> Result<Ast, Stop>
    ensures { Reads (spec.read_query EXPRESSION_HEIGHT input.old) result input.new }
{
    let head = front(alloc, input)?;
    let tail = clauses(alloc, input)?;
    Ok(query_with(head, tail))
}

/// The end.
fn finished(input: &Input<'_>) -> Result<(), Stop>
    ensures { Reads (spec.finished input.now) result input.now }
{
    match input.first() {
        None => Ok(()),
        Some(_) => Err(Stop::Unexpected),
    }
}

/// A query, and nothing after it.
#[tactic(auto, unfolding(crate::specs::Queries::read_whole))]
pub fn whole(alloc: Global, input: &mut Input<'_>) -> Result<Ast, Stop>
    ensures { Reads (spec.read_whole EXPRESSION_HEIGHT input.old) result input.new }
{
    let query = query(alloc, input)?;
    finished(input)?;
    Ok(query)
}
