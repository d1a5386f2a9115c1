//! From text to tree.

ghost use Rattle.std.specs.Prelude.{◌≡◌, ◌≢◌, ◌<◌, ◌≤◌, ◌+◌, ◌^◌, length, IfOk, IfErr, IsOk, MatchResult};
ghost use Rattle.std.specs.List.{AllByRecursion};
ghost use Rattle.adfs_base.specs.declared.limits.TheConstants.{EXPRESSION_HEIGHT};
ghost use Rattle.pgql_lexer.specs.Tokens.{tokens};
ghost use Rattle.pgql_tree.specs.declared.ast.Ast.{Ast};
ghost use Rattle.pgql_syntax.specs.declared.tree.SyntaxFault.{SyntaxFault};
ghost use Rattle.pgql_tree.specs.AllPlaces.{query_places, IsWithin};
ghost use Rattle.pgql_syntax.specs.Answers.{answer, answer_of, Gives};
ghost use Rattle.pgql_tree.specs.Literals.{query_literals};
ghost use Rattle.pgql_syntax.specs.Places.{IsTree, IsFault, place_or};
ghost use Rattle.pgql_syntax.specs.Queries.{read_whole};
ghost use Rattle.pgql_lexemes.specs.Seen.{lexemes};

use crate::query::whole;
use pgql_lexemes::{Input, Stop};
use pgql_lexer::{LexFault, check};
use pgql_tree::Ast;
use std::alloc::Global;

/// Why a text has no tree, with a place in the file of queries.
#[derive(Clone, Copy, Debug, PartialEq, Eq)]
pub enum SyntaxFault {
    /// The text has no tokens.
    Lex(LexFault),
    /// No query goes on with the token at this place, or none ends there.
    Unexpected(u32),
    /// As Unexpected, but a query with an expression higher than `EXPRESSION_HEIGHT` goes on so.
    Deep(u32),
    /// Memory ran out.
    NoMemory,
}

/// The place of the next token, or of the end.
fn place_or(input: &Input<'_>, end: u32) -> u32
    ensures { result ≡ place_or end input.now }
{
    match input.first() {
        None => end,
        Some(t) => t.at,
    }
}

/// The tree of a text that has tokens.
fn tree_of(alloc: Global, text: &[u8], base: u32) -> Result<Ast, SyntaxFault>
    requires short { base + length text.now < 2 ^ 32 }
    requires lexed { IsOk (tokens base text.now) }
    ensures { Gives result (answer_of (base + length text.now) (read_whole EXPRESSION_HEIGHT (lexemes base text.now))) }
{
    let end = base + text.len() as u32;
    let mut input = Input::new(text, base);
    match whole(alloc, &mut input) {
        Ok(query) => Ok(query),
        Err(Stop::Unexpected) => Err(SyntaxFault::Unexpected(place_or(&input, end))),
        Err(Stop::Deep) => Err(SyntaxFault::Deep(place_or(&input, end))),
        Err(Stop::NoMemory) => Err(SyntaxFault::NoMemory),
    }
}

/// The answer to a text.
fn answer_to(alloc: Global, text: &[u8], base: u32) -> Result<Ast, SyntaxFault>
    requires { base + length text.now < 2 ^ 32 }
    ensures { Gives result (answer EXPRESSION_HEIGHT base text.now) }
{
    match check(text, base) {
        Ok(()) => tree_of(alloc, text, base),
        Err(e) => Err(SyntaxFault::Lex(e)),
    }
}

/// The tree of a query, whose first byte stands at `base` in its file.
///
/// The text has no `;`. A tree is within bounds where none of its expressions is higher than `EXPRESSION_HEIGHT` (64): a literal,
/// a name, a property and a call have the height 0, and each operator, sign, NOT, IS test and pair of
/// parentheses is one higher than the highest expression inside.
///
/// # Errors
///
/// Lex where the text has no tokens. Else the first token is told with which no query within bounds goes
/// on, where the end counts as a token: Deep where a query of any height goes on with it, Unexpected where
/// none does.
pub fn parse(alloc: Global, text: &[u8], base: u32) -> Result<Ast, SyntaxFault>
    requires { base + length text.now < 2 ^ 32 }
    // What is given is the tree of the text.
    ensures found { IfOk result (λ q. IsTree EXPRESSION_HEIGHT base text.now q) }
    // The tree of the text is given, unless memory runs out.
    ensures only { (q : Ast) → IsTree EXPRESSION_HEIGHT base text.now q → MatchResult result (λ found. found ≡ q) (λ e. e ≡ SyntaxFault.NoMemory) }
    // A tree has no more text literals than its text has bytes.
    ensures literals { IfOk result (λ q. length (query_literals q) ≤ length text.now) }
    // Each place in a tree lies in the text, or at its end.
    ensures places { IfOk result (λ q. AllByRecursion (IsWithin base (base + length text.now)) (query_places q)) }
    // What is refused is refused for its cause.
    ensures fault { IfErr result (λ e. e ≢ SyntaxFault.NoMemory → IsFault EXPRESSION_HEIGHT base text.now e) }
    // The cause of a refusal is told, unless memory runs out.
    ensures only_fault { (e : SyntaxFault) → IsFault EXPRESSION_HEIGHT base text.now e → MatchResult result (λ q. ⊥) (λ told. told ≢ SyntaxFault.NoMemory → told ≡ e) }
{
    answer_to(alloc, text, base)
}
