//! Patterns: vertices, edges and paths.

ghost use Rattle.std.specs.Prelude.{◌≡◌};
ghost use Rattle.pgql_syntax.specs.Grammar as grammar;
ghost use Rattle.pgql_lexemes.specs.Lists.{perhaps, separated, many, begins_with};
ghost use Rattle.pgql_syntax.specs.Patterns as spec;
ghost use Rattle.pgql_lexemes.specs.Reads.{Reads};
ghost use Rattle.pgql_lexemes.specs.Told.{ReadsToken};
ghost use Rattle.pgql_lexemes.specs.declared.kind.Kind.TheVariants as kind;

use crate::part::{Part, list};
use adfs_base::Name;
use pgql_lexemes::{Input, Kind, Lexeme, Stop};
use pgql_tree::{EdgePat, Labels, Path, Placed, VertexPat};
use sqlite_items::{Boxed, Items};
use std::alloc::Global;

/// What stands inside a vertex or edge pattern.
#[derive(Drop)]
pub struct Spec {
    pub name: Option<Boxed<Placed>>,
    pub labels: Labels,
}

/// `Name`
#[tactic(auto, unfolding(crate::specs::Patterns::read_placed))]
pub fn name(alloc: Global, input: &mut Input<'_>) -> Result<Boxed<Placed>, Stop>
    ensures { Reads (spec.read_placed input.old) result input.new }
{
    let t = input.expect(Kind::Name)?;
    Ok(t.placed(alloc)?)
}

/// A word, as a label.
impl Part for Name {
    ghost reading = { spec.read_label };

    #[tactic(auto, unfolding(crate::specs::Patterns::read_label))]
    fn read(alloc: Global, input: &mut Input<'_>) -> Result<Name, Stop> {
        let t = input.expect_word()?;
        Ok(t.name(alloc)?)
    }
}

/// `Name {"|" Name}`
#[tactic(auto, using(crate::proofs::Paths::label_shrinks))]
fn label_list(alloc: Global, input: &mut Input<'_>) -> Result<Labels, Stop>
    ensures { Reads (separated spec.read_label kind.Bar input.old) result input.new }
{
    let labels = list(alloc, input, Kind::Bar)?;
    Ok(Labels::new(alloc, labels)?)
}

/// `[":" Name {"|" Name}]`
#[tactic(auto, using(crate::proofs::Choices::labels_is))]
fn labels(alloc: Global, input: &mut Input<'_>) -> Result<Labels, Stop>
    ensures { Reads (spec.read_labels input.old) result input.new }
{
    if input.eat(Kind::Colon) {
        label_list(alloc, input)
    } else {
        Ok(Labels::none())
    }
}

/// `[Name]`
fn name_or_none(alloc: Global, input: &mut Input<'_>) -> Result<Option<Boxed<Placed>>, Stop>
    ensures { Reads (perhaps spec.read_placed kind.Name input.old) result input.new }
{
    if input.sees(Kind::Name) {
        Ok(Some(name(alloc, input)?))
    } else {
        Ok(None)
    }
}

/// `[Name] [":" Name {"|" Name}]`
#[tactic(auto, unfolding(crate::specs::Patterns::read_spec))]
fn inside(alloc: Global, input: &mut Input<'_>) -> Result<Spec, Stop>
    ensures { Reads (spec.read_spec input.old) result input.new }
{
    let name = name_or_none(alloc, input)?;
    let labels = labels(alloc, input)?;
    Ok(Spec { name, labels })
}

/// `Spec` between two such tokens, with the place of the first.
#[tactic(auto, unfolding(crate::specs::Patterns::read_enclosed))]
fn enclosed(
    alloc: Global,
    input: &mut Input<'_>,
    opens: Kind,
    closes: Kind,
) -> Result<(Spec, u32), Stop>
    ensures { Reads (spec.read_enclosed opens closes input.old) result input.new }
{
    let first = input.expect(opens)?;
    let inside = inside(alloc, input)?;
    input.expect(closes)?;
    Ok((inside, first.at))
}

/// `"(" Spec ")"`
#[tactic(auto, unfolding(crate::specs::Patterns::read_vertex))]
fn vertex(alloc: Global, input: &mut Input<'_>) -> Result<VertexPat, Stop>
    ensures { Reads (spec.read_vertex input.old) result input.new }
{
    let (inside, at) = enclosed(alloc, input, Kind::Open, Kind::Close)?;
    Ok(VertexPat {
        name: inside.name,
        labels: inside.labels,
        at,
    })
}

fn edge_of(out: bool, inside: Spec, at: u32) -> EdgePat
    ensures { result ≡ grammar.edge_of out inside at }
{
    EdgePat {
        name: inside.name,
        labels: inside.labels,
        out,
        at,
    }
}

/// An edge without name and labels.
fn arrow(out: bool, at: u32) -> EdgePat
    ensures { result ≡ grammar.arrow out at }
{
    EdgePat {
        name: None,
        labels: Labels::none(),
        out,
        at,
    }
}

/// `"-" ">"`
fn arrow_end<'a>(input: &mut Input<'a>) -> Result<Lexeme<'a>, Stop>
    ensures { ReadsToken (spec.read_arrow_end input.old) result input.new }
{
    input.expect(Kind::Minus)?;
    input.expect(Kind::Greater)
}

/// `"[" Spec "]" "-" ">"`
#[tactic(auto, using(crate::proofs::Choices::out_is))]
fn edge_out(alloc: Global, input: &mut Input<'_>, at: u32) -> Result<EdgePat, Stop>
    ensures { Reads (spec.read_out at input.old) result input.new }
{
    let (inside, _) = enclosed(alloc, input, Kind::OpenBracket, Kind::CloseBracket)?;
    arrow_end(input)?;
    Ok(edge_of(true, inside, at))
}

/// What stands after the minus of an edge that leads out.
fn after_minus(alloc: Global, input: &mut Input<'_>, at: u32) -> Result<EdgePat, Stop>
    ensures { Reads (spec.after_minus at input.old) result input.new }
{
    let Some(t) = input.first() else {
        return Err(Stop::Unexpected);
    };
    match t.kind {
        Kind::Greater => {
            input.take()?;
            Ok(arrow(true, at))
        }
        Kind::OpenBracket => edge_out(alloc, input, at),
        _ => Err(Stop::Unexpected),
    }
}

/// `"[" Spec "]" "-"`
#[tactic(auto, unfolding(crate::specs::Patterns::read_in))]
fn edge_in(alloc: Global, input: &mut Input<'_>, at: u32) -> Result<EdgePat, Stop>
    ensures { Reads (spec.read_in at input.old) result input.new }
{
    let (inside, _) = enclosed(alloc, input, Kind::OpenBracket, Kind::CloseBracket)?;
    input.expect(Kind::Minus)?;
    Ok(edge_of(false, inside, at))
}

/// What stands after the `<-` of an edge that leads in.
fn after_less(alloc: Global, input: &mut Input<'_>, at: u32) -> Result<EdgePat, Stop>
    ensures { Reads (spec.after_less at input.old) result input.new }
{
    let Some(t) = input.first() else {
        return Ok(arrow(false, at));
    };
    match t.kind {
        Kind::OpenBracket => edge_in(alloc, input, at),
        _ => Ok(arrow(false, at)),
    }
}

/// `"-" ">" | "<" "-" | "-" "[" Spec "]" "-" ">" | "<" "-" "[" Spec "]" "-"`
#[tactic(auto, unfolding(crate::specs::Patterns::read_edge))]
fn edge(alloc: Global, input: &mut Input<'_>) -> Result<EdgePat, Stop>
    ensures { Reads (spec.read_edge input.old) result input.new }
{
    let Some(t) = input.first() else {
        return Err(Stop::Unexpected);
    };
    match t.kind {
        Kind::Minus => {
            input.take()?;
            after_minus(alloc, input, t.at)
        }
        Kind::Less => {
            input.take()?;
            input.expect(Kind::Minus)?;
            after_less(alloc, input, t.at)
        }
        _ => Err(Stop::Unexpected),
    }
}

/// `Edge Vertex`
#[tactic(auto, unfolding(crate::specs::Patterns::read_step))]
fn step(alloc: Global, input: &mut Input<'_>) -> Result<(EdgePat, VertexPat), Stop>
    ensures { Reads (spec.read_step input.old) result input.new }
{
    let edge = edge(alloc, input)?;
    let vertex = vertex(alloc, input)?;
    Ok((edge, vertex))
}

/// Whether an edge pattern begins with the next token.
fn sees_edge(input: &Input<'_>) -> bool
    ensures { result ≡ begins_with spec.begins_edge input.now }
{
    match input.first() {
        None => false,
        Some(t) => match t.kind {
            Kind::Minus | Kind::Less => true,
            _ => false,
        },
    }
}

/// `{Edge Vertex}`
fn steps(alloc: Global, input: &mut Input<'_>) -> Result<Items<(EdgePat, VertexPat)>, Stop>
    ensures { Reads (many spec.read_step spec.begins_edge input.old) result input.new }
{
    let mut found = Items::new(alloc);
    'steps: while sees_edge(input) {
        let x = step(alloc, input)?;
        found.push(x)?;
    }
    Ok(found)
}

/// `Vertex {Edge Vertex}`
impl Part for Path {
    ghost reading = { spec.read_path };

    #[tactic(auto, unfolding(crate::specs::Patterns::read_path))]
    fn read(alloc: Global, input: &mut Input<'_>) -> Result<Path, Stop> {
        let first = vertex(alloc, input)?;
        let steps = steps(alloc, input)?;
        Ok(Path { first, steps })
    }
}
