//! Expressions, a function for each level.

ghost use Rattle.std.specs.Prelude.{◌≡◌, ◌≤◌, ◌<◌, ◌+◌, ◌^◌, max, IfOk, OnOk};
ghost use Rattle.pgql_expr.specs.Reading as spec;
ghost use Rattle.pgql_lexemes.specs.Reads.{Reads, Makes};
ghost use Rattle.pgql_expr.specs.Nests.{Nests};

use crate::found::Found;
use crate::leaf::leaf;
use pgql_lexemes::{Input, Kind, Stop, comparison, deeper, operator};
use pgql_tree::{AstExpr, Level, Op};
use sqlite_items::Boxed;
use std::alloc::Global;

/// The operator that comes next, if it is one of a chain of this level.
fn next_operator(level: Level, input: &Input<'_>) -> Option<Op>
    ensures { result ≡ spec.next_operator level (spec.first input.now) }
{
    match input.first() {
        None => None,
        Some(t) => operator(level, t.kind),
    }
}

/// A sign minus before it.
fn with_minus(alloc: Global, x: Found, at: u32) -> Result<Found, Stop>
    requires { x.height + 1 < 2 ^ 32 }
    ensures made { Makes (spec.found (AstExpr.Neg x.expr at) (x.height + 1)) result }
    ensures low { IfOk result (λ y. y.height ≡ x.height + 1) }
{
    Ok(Found {
        expr: AstExpr::Neg {
            inside: Boxed::new(alloc, x.expr)?,
            at,
        },
        height: x.height + 1,
    })
}

/// NOT before it.
fn with_not(alloc: Global, x: Found, at: u32) -> Result<Found, Stop>
    requires { x.height + 1 < 2 ^ 32 }
    ensures made { Makes (spec.found (AstExpr.Not x.expr at) (x.height + 1)) result }
    ensures low { IfOk result (λ y. y.height ≡ x.height + 1) }
{
    Ok(Found {
        expr: AstExpr::Not {
            inside: Boxed::new(alloc, x.expr)?,
            at,
        },
        height: x.height + 1,
    })
}

/// IS NULL or IS NOT NULL after it.
fn null_test(alloc: Global, x: Found, negated: bool, at: u32) -> Result<Found, Stop>
    requires { x.height + 1 < 2 ^ 32 }
    ensures made { Makes (spec.found (AstExpr.IsNull x.expr negated at) (x.height + 1)) result }
    ensures low { IfOk result (λ y. y.height ≡ x.height + 1) }
{
    Ok(Found {
        expr: AstExpr::IsNull {
            inside: Boxed::new(alloc, x.expr)?,
            negated,
            at,
        },
        height: x.height + 1,
    })
}

/// An operator between the two sides, of this height.
fn binary(
    alloc: Global,
    op: Op,
    at: u32,
    left: Boxed<AstExpr>,
    right: AstExpr,
    height: u32,
) -> Result<Found, Stop>
    ensures made { Makes (spec.found (AstExpr.Binary op at left right) height) result }
    ensures high { IfOk result (λ x. x.height ≡ height) }
{
    Ok(Found {
        expr: AstExpr::Binary {
            op,
            left,
            right: Boxed::new(alloc, right)?,
            at,
        },
        height,
    })
}

/// An operator between the two.
fn joined(alloc: Global, op: Op, at: u32, left: Found, right: Found) -> Result<Found, Stop>
    requires left_low { left.height + 1 < 2 ^ 32 }
    requires right_low { right.height + 1 < 2 ^ 32 }
    ensures made { Makes (spec.found (AstExpr.Binary op at left.expr right.expr) (max left.height right.height + 1)) result }
    ensures high { IfOk result (λ x. x.height ≡ max left.height right.height + 1) }
{
    let height = left.height.max(right.height) + 1;
    let left = Boxed::new(alloc, left.expr)?;
    binary(alloc, op, at, left, right.expr, height)
}

/// The same in parentheses.
fn raised(x: Found) -> Found
    requires { x.height + 1 < 2 ^ 32 }
    ensures { result ≡ spec.found x.expr (x.height + 1) }
{
    Found {
        expr: x.expr,
        height: x.height + 1,
    }
}

/// `[NOT] NULL`, and whether NOT stands there.
fn null_words(input: &mut Input<'_>) -> Result<bool, Stop>
    ensures { Reads (spec.null_words input.old) result input.new }
{
    let Some(t) = input.first() else {
        return Err(Stop::Unexpected);
    };
    match t.kind {
        Kind::Not => {
            input.take()?;
            input.expect(Kind::Null)?;
            Ok(true)
        }
        _ => {
            input.expect(Kind::Null)?;
            Ok(false)
        }
    }
}

/// `IS [NOT] NULL` after what is this high, and whether NOT stands there.
fn is_words(most: u32, height: u32, input: &mut Input<'_>) -> Result<bool, Stop>
    ensures reads { Reads (spec.is_words most height input.old) result input.new }
    ensures room { OnOk result (height < most) }
{
    deeper(most, height, input)?;
    input.take()?;
    null_words(input)
}

/// Reads expressions up to a height.
///
/// `nested` reads those that are less high: it is the function of that name below, which makes a `Grammar` of
/// the next lower height and calls that. It is handed in as a value since these functions would else all call
/// each other in one cycle, which is proved in one piece. So each is proved from what it needs of `nested`
/// (`Nests`, specs/Nests.antt): that it may be called at that height, and reads what is nested there. That the
/// recursion ends is shown where the circle closes, by the height.
#[derive(Clone, Copy)]
struct Grammar<F> {
    alloc: Global,
    /// The greatest height.
    most: u32,
    nested: F,
}

impl<F: Fn(Global, &mut Input<'_>, u32, Level) -> Result<Found, Stop>> Grammar<F> {
    /// An expression that is less high than the greatest height.
    fn nested(&self, input: &mut Input<'_>, level: Level) -> Result<Found, Stop>
        requires { Nests self.now.most (F.pre self.now.nested) (F.post self.now.nested) }
        ensures reads { Reads (spec.nested self.now.most level input.old) result input.new }
        ensures low { IfOk result (λ x. x.height < self.now.most) }
    {
        (self.nested)(self.alloc, input, self.most, level)
    }

    /// A token and an expression of that level, one level above what is this high.
    fn operand(&self, input: &mut Input<'_>, height: u32, level: Level) -> Result<Found, Stop>
        requires { Nests self.now.most (F.pre self.now.nested) (F.post self.now.nested) }
        ensures reads { Reads (spec.operand self.now.most (spec.nested self.now.most) height level input.old) result input.new }
        ensures low { IfOk result (λ x. x.height < self.now.most) }
        ensures room { OnOk result (height < self.now.most) }
        ensures fits { OnOk result (self.now.most < 2 ^ 32) }
    {
        deeper(self.most, height, input)?;
        input.take()?;
        self.nested(input, level)
    }

    /// `( Expr )`
    #[tactic(auto, using(crate::proofs::Operands::inside_is))]
    fn inside(&self, input: &mut Input<'_>) -> Result<Found, Stop>
        requires { Nests self.now.most (F.pre self.now.nested) (F.post self.now.nested) }
        ensures reads { Reads (spec.inside self.now.most (spec.nested self.now.most) input.old) result input.new }
        ensures low { IfOk result (λ x. x.height ≤ self.now.most) }
    {
        let x = self.operand(input, 0, Level::Or)?;
        input.expect(Kind::Close)?;
        Ok(raised(x))
    }

    #[tactic(auto, unfolding(crate::specs::Reading::read_primary, crate::specs::Reading::read_level))]
    fn primary(&self, input: &mut Input<'_>) -> Result<Found, Stop>
        requires { Nests self.now.most (F.pre self.now.nested) (F.post self.now.nested) }
        ensures reads { Reads (spec.read_level self.now.most (spec.nested self.now.most) Level.Primary input.old) result input.new }
        ensures low { IfOk result (λ x. x.height ≤ self.now.most) }
    {
        let Some(t) = input.first() else {
            return Err(Stop::Unexpected);
        };
        match t.kind {
            Kind::Open => self.inside(input),
            _ => leaf(self.alloc, input, t),
        }
    }

    /// `- Sign`
    #[tactic(auto, using(crate::proofs::Operands::marked_is))]
    fn minus(&self, input: &mut Input<'_>, at: u32) -> Result<Found, Stop>
        requires { Nests self.now.most (F.pre self.now.nested) (F.post self.now.nested) }
        ensures reads { Reads (spec.marked self.now.most (spec.nested self.now.most) Level.Sign (λ x. AstExpr.Neg x at) input.old) result input.new }
        ensures low { IfOk result (λ x. x.height ≤ self.now.most) }
    {
        let x = self.operand(input, 0, Level::Sign)?;
        with_minus(self.alloc, x, at)
    }

    /// `- Sign | Primary`
    #[tactic(auto, unfolding(crate::specs::Reading::read_sign, crate::specs::Reading::read_level))]
    fn sign(&self, input: &mut Input<'_>) -> Result<Found, Stop>
        requires { Nests self.now.most (F.pre self.now.nested) (F.post self.now.nested) }
        ensures reads { Reads (spec.read_level self.now.most (spec.nested self.now.most) Level.Sign input.old) result input.new }
        ensures low { IfOk result (λ x. x.height ≤ self.now.most) }
    {
        let Some(t) = input.first() else {
            return Err(Stop::Unexpected);
        };
        match t.kind {
            Kind::Minus => self.minus(input, t.at),
            _ => self.primary(input),
        }
    }

    /// The chain so far, with its next operator and operand.
    #[tactic(auto, using(crate::proofs::Operands::longer_is))]
    fn longer(
        &self,
        input: &mut Input<'_>,
        level: Level,
        at: u32,
        left: Found,
        op: Op,
    ) -> Result<Found, Stop>
        requires nests { Nests self.now.most (F.pre self.now.nested) (F.post self.now.nested) }
        requires left_low { left.height ≤ self.now.most }
        ensures reads { Reads (spec.longer self.now.most (spec.nested self.now.most) level at left op input.old) result input.new }
        ensures low { IfOk result (λ x. (left.height < x.height) × (x.height ≤ self.now.most)) }
    {
        let right = self.operand(input, left.height, level.tighter())?;
        joined(self.alloc, op, at, left, right)
    }

    /// What a chain goes on with.
    fn more(
        &self,
        input: &mut Input<'_>,
        level: Level,
        at: u32,
        mut left: Found,
    ) -> Result<Found, Stop>
        requires nests { Nests self.now.most (F.pre self.now.nested) (F.post self.now.nested) }
        requires left_low { left.height ≤ self.now.most }
        ensures reads { Reads (spec.more self.now.most (spec.nested self.now.most) level at self.now.most left input.old) result input.new }
        ensures low { IfOk result (λ x. x.height ≤ self.now.most) }
    {
        while let Some(op) = next_operator(level, input) {
            left = self.longer(input, level, at, left, op)?;
        }
        Ok(left)
    }

    /// `Sign {("*" | "/" | "%") Sign}`
    #[tactic(auto, unfolding(crate::specs::Reading::chained, crate::specs::Reading::read_level))]
    fn product(&self, input: &mut Input<'_>) -> Result<Found, Stop>
        requires { Nests self.now.most (F.pre self.now.nested) (F.post self.now.nested) }
        ensures reads { Reads (spec.read_level self.now.most (spec.nested self.now.most) Level.Product input.old) result input.new }
        ensures low { IfOk result (λ x. x.height ≤ self.now.most) }
    {
        let at = input.place();
        let left = self.sign(input)?;
        self.more(input, Level::Product, at, left)
    }

    /// `Product {("+" | "-") Product}`
    #[tactic(auto, unfolding(crate::specs::Reading::chained, crate::specs::Reading::read_level))]
    fn sum(&self, input: &mut Input<'_>) -> Result<Found, Stop>
        requires { Nests self.now.most (F.pre self.now.nested) (F.post self.now.nested) }
        ensures reads { Reads (spec.read_level self.now.most (spec.nested self.now.most) Level.Sum input.old) result input.new }
        ensures low { IfOk result (λ x. x.height ≤ self.now.most) }
    {
        let at = input.place();
        let left = self.product(input)?;
        self.more(input, Level::Sum, at, left)
    }

    /// A comparison's operator and right side.
    #[tactic(auto, using(crate::proofs::Operands::compared_is))]
    fn compared(&self, input: &mut Input<'_>, at: u32, left: Found, op: Op) -> Result<Found, Stop>
        requires nests { Nests self.now.most (F.pre self.now.nested) (F.post self.now.nested) }
        requires left_low { left.height ≤ self.now.most }
        ensures reads { Reads (spec.compared self.now.most (spec.nested self.now.most) at left op input.old) result input.new }
        ensures low { IfOk result (λ x. x.height ≤ self.now.most) }
    {
        let right = self.operand(input, left.height, Level::Sum)?;
        joined(self.alloc, op, at, left, right)
    }

    /// `IS [NOT] NULL`
    #[tactic(auto, using(crate::proofs::Operands::read_null_is))]
    fn is_null(&self, input: &mut Input<'_>, at: u32, left: Found) -> Result<Found, Stop>
        requires left_low { left.height ≤ self.now.most }
        ensures reads { Reads (spec.read_null self.now.most (spec.nested self.now.most) at left input.old) result input.new }
        ensures low { IfOk result (λ x. x.height ≤ self.now.most) }
    {
        let negated = is_words(self.most, left.height, input)?;
        null_test(self.alloc, left, negated, at)
    }

    /// What a test goes on with where a token of this kind comes next.
    fn tested_by(
        &self,
        input: &mut Input<'_>,
        kind: Kind,
        at: u32,
        left: Found,
    ) -> Result<Found, Stop>
        requires nests { Nests self.now.most (F.pre self.now.nested) (F.post self.now.nested) }
        requires left_low { left.height ≤ self.now.most }
        ensures reads { Reads (spec.test_by self.now.most (spec.nested self.now.most) kind at left input.old) result input.new }
        ensures low { IfOk result (λ x. x.height ≤ self.now.most) }
    {
        match kind {
            Kind::Is => self.is_null(input, at, left),
            _ => match comparison(kind) {
                None => Ok(left),
                Some(op) => self.compared(input, at, left, op),
            },
        }
    }

    /// What a test goes on with, if it is one.
    fn tested(&self, input: &mut Input<'_>, at: u32, left: Found) -> Result<Found, Stop>
        requires nests { Nests self.now.most (F.pre self.now.nested) (F.post self.now.nested) }
        requires left_low { left.height ≤ self.now.most }
        ensures reads { Reads (spec.tested self.now.most (spec.nested self.now.most) at left input.old) result input.new }
        ensures low { IfOk result (λ x. x.height ≤ self.now.most) }
    {
        match input.first() {
            None => Ok(left),
            Some(t) => self.tested_by(input, t.kind, at, left),
        }
    }

    /// `Sum [Cmp Sum | IS [NOT] NULL]`
    #[tactic(auto, unfolding(crate::specs::Reading::read_test, crate::specs::Reading::read_level))]
    fn test(&self, input: &mut Input<'_>) -> Result<Found, Stop>
        requires { Nests self.now.most (F.pre self.now.nested) (F.post self.now.nested) }
        ensures reads { Reads (spec.read_level self.now.most (spec.nested self.now.most) Level.Test input.old) result input.new }
        ensures low { IfOk result (λ x. x.height ≤ self.now.most) }
    {
        let at = input.place();
        let left = self.sum(input)?;
        self.tested(input, at, left)
    }

    /// `NOT Not`
    #[tactic(auto, using(crate::proofs::Operands::marked_is))]
    fn denied(&self, input: &mut Input<'_>, at: u32) -> Result<Found, Stop>
        requires { Nests self.now.most (F.pre self.now.nested) (F.post self.now.nested) }
        ensures reads { Reads (spec.marked self.now.most (spec.nested self.now.most) Level.Not (λ x. AstExpr.Not x at) input.old) result input.new }
        ensures low { IfOk result (λ x. x.height ≤ self.now.most) }
    {
        let x = self.operand(input, 0, Level::Not)?;
        with_not(self.alloc, x, at)
    }

    /// `NOT Not | Test`
    #[tactic(auto, unfolding(crate::specs::Reading::read_not, crate::specs::Reading::read_level))]
    fn not(&self, input: &mut Input<'_>) -> Result<Found, Stop>
        requires { Nests self.now.most (F.pre self.now.nested) (F.post self.now.nested) }
        ensures reads { Reads (spec.read_level self.now.most (spec.nested self.now.most) Level.Not input.old) result input.new }
        ensures low { IfOk result (λ x. x.height ≤ self.now.most) }
    {
        let Some(t) = input.first() else {
            return Err(Stop::Unexpected);
        };
        match t.kind {
            Kind::Not => self.denied(input, t.at),
            _ => self.test(input),
        }
    }

    /// `Not {AND Not}`
    #[tactic(auto, unfolding(crate::specs::Reading::chained, crate::specs::Reading::read_level))]
    fn and(&self, input: &mut Input<'_>) -> Result<Found, Stop>
        requires { Nests self.now.most (F.pre self.now.nested) (F.post self.now.nested) }
        ensures reads { Reads (spec.read_level self.now.most (spec.nested self.now.most) Level.And input.old) result input.new }
        ensures low { IfOk result (λ x. x.height ≤ self.now.most) }
    {
        let at = input.place();
        let left = self.not(input)?;
        self.more(input, Level::And, at, left)
    }

    /// `And {OR And}`
    #[tactic(auto, unfolding(crate::specs::Reading::chained, crate::specs::Reading::read_level))]
    fn or(&self, input: &mut Input<'_>) -> Result<Found, Stop>
        requires { Nests self.now.most (F.pre self.now.nested) (F.post self.now.nested) }
        ensures reads { Reads (spec.read_level self.now.most (spec.nested self.now.most) Level.Or input.old) result input.new }
        ensures low { IfOk result (λ x. x.height ≤ self.now.most) }
    {
        let at = input.place();
        let left = self.and(input)?;
        self.more(input, Level::Or, at, left)
    }

    /// An expression of the level.
    fn level(&self, input: &mut Input<'_>, level: Level) -> Result<Found, Stop>
        requires { Nests self.now.most (F.pre self.now.nested) (F.post self.now.nested) }
        ensures reads { Reads (spec.read_level self.now.most (spec.nested self.now.most) level input.old) result input.new }
        ensures low { IfOk result (λ x. x.height ≤ self.now.most) }
    {
        match level {
            Level::Or => self.or(input),
            Level::And => self.and(input),
            Level::Not => self.not(input),
            Level::Test => self.test(input),
            Level::Sum => self.sum(input),
            Level::Product => self.product(input),
            Level::Sign => self.sign(input),
            Level::Primary => self.primary(input),
        }
    }
}

/// An expression of this level that is less high than `below`.
pub fn nested(alloc: Global, input: &mut Input<'_>, below: u32, level: Level) -> Result<Found, Stop>
    ensures reads { Reads (spec.nested below level input.old) result input.new }
    ensures low { IfOk result (λ x. x.height < below) }
{
    if below == 0 {
        return Err(Stop::Deep);
    }
    Grammar {
        alloc,
        most: below - 1,
        nested,
    }
    .level(input, level)
}
