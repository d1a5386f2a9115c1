//! Trees apart from their places.

ghost use Rattle.std.specs.Prelude.{◌≡◌, ◌↔◌, IsTrue, map};
ghost use Rattle.std.specs.Option.{option_map};
ghost use Rattle.pgql_tree.specs.Same as spec;
ghost use Rattle.pgql_tree.specs.declared.ast.AstExpr.TheVariants as e;

use crate::ast::{Ast, AstExpr, EdgePat, Item, Key, Op, Path, Placed, VertexPat};
use adfs_base::Name;
use sqlite_items::Boxed;

fn same_op(a: Op, b: Op) -> bool
    ensures { IsTrue result ↔ (a ≡ b) }
{
    a == b
}

fn same_bytes(a: &[u8], b: &[u8]) -> bool
    ensures { IsTrue result ↔ (a.now ≡ b.now) }
{
    a == b
}

fn same_name(a: &Name, b: &Name) -> bool
    ensures { IsTrue result ↔ (a.now ≡ b.now) }
{
    same_bytes(a.text().as_bytes(), b.text().as_bytes())
}

fn same_number(a: &i64, b: &i64) -> bool
    ensures { IsTrue result ↔ (a.now ≡ b.now) }
{
    *a == *b
}

fn same_truth(a: bool, b: bool) -> bool
    ensures { IsTrue result ↔ (a ≡ b) }
{
    a == b
}

/// Whether the expression is this number.
fn is_int(x: &AstExpr, number: &i64) -> bool
    ensures { IsTrue result ↔ (spec.bare x.now ≡ spec.bare (e.Int number.now 0)) }
{
    match x {
        AstExpr::Int { number: other, .. } => same_number(other, number),
        _ => false,
    }
}

/// Whether the expression is a text literal with this content.
fn is_text(x: &AstExpr, content: &[u8]) -> bool
    ensures { IsTrue result ↔ (spec.bare x.now ≡ spec.bare (e.Text content.now 0)) }
{
    match x {
        AstExpr::Text { content: other, .. } => same_bytes(other.as_slice(), content),
        _ => false,
    }
}

/// Whether the expression is a date with this content.
fn is_date(x: &AstExpr, content: &[u8]) -> bool
    ensures { IsTrue result ↔ (spec.bare x.now ≡ spec.bare (e.Date content.now 0)) }
{
    match x {
        AstExpr::Date { content: other, .. } => same_bytes(other.as_slice(), content),
        _ => false,
    }
}

/// Whether the expression is this truth value.
fn is_bool(x: &AstExpr, truth: bool) -> bool
    ensures { IsTrue result ↔ (spec.bare x.now ≡ spec.bare (e.Bool truth 0)) }
{
    match x {
        AstExpr::Bool { truth: other, .. } => same_truth(*other, truth),
        _ => false,
    }
}

/// Whether the expression is this name.
fn is_name(x: &AstExpr, name: &Name) -> bool
    ensures { IsTrue result ↔ (spec.bare x.now ≡ spec.bare (e.Name 0 name.now)) }
{
    match x {
        AstExpr::Name { name: other, .. } => same_name(other, name),
        _ => false,
    }
}

fn same_boxed(a: &Boxed<Name>, b: &Boxed<Name>) -> bool
    ensures { IsTrue result ↔ (a.now ≡ b.now) }
{
    same_name(a.get(), b.get())
}

/// Whether the expression is this property of this variable.
fn is_property(x: &AstExpr, variable: &Boxed<Name>, property: &Boxed<Name>) -> bool
    ensures { IsTrue result ↔ (spec.bare x.now ≡ spec.bare (e.Property 0 variable.now property.now)) }
{
    match x {
        AstExpr::Property {
            variable: other_variable,
            property: other_property,
            ..
        } => {
            if !same_boxed(other_variable, variable) {
                return false;
            }
            same_boxed(other_property, property)
        }
        _ => false,
    }
}

fn same_placed(a: &Boxed<Placed>, b: &Boxed<Placed>) -> bool
    ensures { IsTrue result ↔ (a.now.name ≡ b.now.name) }
{
    same_name(&a.get().name, &b.get().name)
}

/// Whether the expression is the id of this variable.
fn is_id(x: &AstExpr, variable: &Boxed<Placed>) -> bool
    ensures { IsTrue result ↔ (spec.bare x.now ≡ spec.bare (e.Id variable.now 0)) }
{
    match x {
        AstExpr::Id {
            variable: other,
            ..
        } => same_placed(other, variable),
        _ => false,
    }
}

/// Whether the expression is the label of this variable.
fn is_label(x: &AstExpr, variable: &Boxed<Placed>) -> bool
    ensures { IsTrue result ↔ (spec.bare x.now ≡ spec.bare (e.Label variable.now 0)) }
{
    match x {
        AstExpr::Label {
            variable: other,
            ..
        } => same_placed(other, variable),
        _ => false,
    }
}

/// Whether the expression is NOT before this one.
#[cycle(same_expr)]
fn is_not(x: &AstExpr, inside: &AstExpr) -> bool
    ensures { IsTrue result ↔ (spec.bare x.now ≡ spec.bare (e.Not inside.now 0)) }
{
    match x {
        AstExpr::Not { inside: other, .. } => same_expr(other.get(), inside),
        _ => false,
    }
}

/// Whether the expression is a sign minus before this one.
#[cycle(same_expr)]
fn is_minus(x: &AstExpr, inside: &AstExpr) -> bool
    ensures { IsTrue result ↔ (spec.bare x.now ≡ spec.bare (e.Neg inside.now 0)) }
{
    match x {
        AstExpr::Neg { inside: other, .. } => same_expr(other.get(), inside),
        _ => false,
    }
}

/// Whether the expression is this test of this one for null.
#[cycle(same_expr)]
fn is_null_test(x: &AstExpr, inside: &AstExpr, negated: bool) -> bool
    ensures { IsTrue result ↔ (spec.bare x.now ≡ spec.bare (e.IsNull inside.now negated 0)) }
{
    match x {
        AstExpr::IsNull {
            inside: other,
            negated: other_negated,
            ..
        } => {
            if !same_truth(*other_negated, negated) {
                return false;
            }
            same_expr(other.get(), inside)
        }
        _ => false,
    }
}

/// Whether the expression is this operator between these two.
#[cycle(same_expr)]
fn is_binary(x: &AstExpr, op: Op, left: &AstExpr, right: &AstExpr) -> bool
    ensures { IsTrue result ↔ (spec.bare x.now ≡ spec.bare (e.Binary op 0 left.now right.now)) }
{
    match x {
        AstExpr::Binary {
            op: other_op,
            left: other_left,
            right: other_right,
            ..
        } => {
            if !same_op(*other_op, op) {
                return false;
            }
            if !same_expr(other_left.get(), left) {
                return false;
            }
            same_expr(other_right.get(), right)
        }
        _ => false,
    }
}

/// Whether the two are equal apart from places.
#[cycle(same_expr)]
pub fn same_expr(a: &AstExpr, b: &AstExpr) -> bool
    ensures { IsTrue result ↔ (spec.bare a.now ≡ spec.bare b.now) }
{
    match b {
        AstExpr::Int { number, .. } => is_int(a, number),
        AstExpr::Text { content, .. } => is_text(a, content.as_slice()),
        AstExpr::Date { content, .. } => is_date(a, content.as_slice()),
        AstExpr::Bool { truth, .. } => is_bool(a, *truth),
        AstExpr::Name { name, .. } => is_name(a, name),
        AstExpr::Property {
            variable,
            property,
            ..
        } => is_property(a, variable, property),
        AstExpr::Id { variable, .. } => is_id(a, variable),
        AstExpr::Label { variable, .. } => is_label(a, variable),
        AstExpr::Not { inside, .. } => is_not(a, inside.get()),
        AstExpr::Neg { inside, .. } => is_minus(a, inside.get()),
        AstExpr::IsNull {
            inside,
            negated,
            ..
        } => is_null_test(a, inside.get(), *negated),
        AstExpr::Binary {
            op,
            left,
            right,
            ..
        } => is_binary(a, *op, left.get(), right.get()),
    }
}

/// What may be equal apart from the places in it.
trait Same {
    /// It with each place 0.
    ghost bare: { Self → Self };

    /// Whether the two are equal apart from places.
    fn same(&self, other: &Self) -> bool
        ensures { IsTrue result ↔ (bare self.now ≡ bare other.now) };
}

/// Whether the two lists are equal apart from places.
fn same_all<T: Same>(a: &[T], b: &[T]) -> bool
    ensures { IsTrue result ↔ (map T.bare a.now ≡ map T.bare b.now) }
{
    let mut rest = a;
    let mut others = b;
    'items: loop {
        let [x, more @ ..] = rest else {
            return others.is_empty();
        };
        let [y, others_more @ ..] = others else {
            return false;
        };
        if !x.same(y) {
            return false;
        }
        rest = more;
        others = others_more;
    }
}

impl Same for Name {
    ghost bare = { λ name. name };

    fn same(&self, other: &Name) -> bool {
        same_name(self, other)
    }
}

fn same_labels(a: &[Name], b: &[Name]) -> bool
    ensures { IsTrue result ↔ (a.now ≡ b.now) }
{
    same_all(a, b)
}

impl Same for Boxed<Placed> {
    ghost bare = { spec.bare_name };

    fn same(&self, other: &Boxed<Placed>) -> bool {
        same_placed(self, other)
    }
}

impl Same for AstExpr {
    ghost bare = { spec.bare };

    fn same(&self, other: &AstExpr) -> bool {
        same_expr(self, other)
    }
}

/// Whether both are none, or equal apart from places.
fn same_option<T: Same>(a: &Option<T>, b: &Option<T>) -> bool
    ensures { IsTrue result ↔ (option_map T.bare a.now ≡ option_map T.bare b.now) }
{
    match (a, b) {
        (None, None) => true,
        (Some(a), Some(b)) => a.same(b),
        _ => false,
    }
}

fn same_vertex(a: &VertexPat, b: &VertexPat) -> bool
    ensures { IsTrue result ↔ (spec.bare_vertex a.now ≡ spec.bare_vertex b.now) }
{
    if !same_option(&a.name, &b.name) {
        return false;
    }
    same_labels(a.labels.as_slice(), b.labels.as_slice())
}

fn same_edge(a: &EdgePat, b: &EdgePat) -> bool
    ensures { IsTrue result ↔ (spec.bare_edge a.now ≡ spec.bare_edge b.now) }
{
    if !same_truth(a.out, b.out) {
        return false;
    }
    if !same_option(&a.name, &b.name) {
        return false;
    }
    same_labels(a.labels.as_slice(), b.labels.as_slice())
}

impl Same for (EdgePat, VertexPat) {
    ghost bare = { spec.bare_pair };

    fn same(&self, other: &(EdgePat, VertexPat)) -> bool {
        if !same_edge(&self.0, &other.0) {
            return false;
        }
        same_vertex(&self.1, &other.1)
    }
}

impl Same for Path {
    ghost bare = { spec.bare_path };

    fn same(&self, other: &Path) -> bool {
        if !same_vertex(&self.first, &other.first) {
            return false;
        }
        same_all(self.steps.as_slice(), other.steps.as_slice())
    }
}

impl Same for Item {
    ghost bare = { spec.bare_item };

    fn same(&self, other: &Item) -> bool {
        if !same_expr(&self.expr, &other.expr) {
            return false;
        }
        same_option(&self.name, &other.name)
    }
}

impl Same for Key {
    ghost bare = { spec.bare_key };

    fn same(&self, other: &Key) -> bool {
        if !same_truth(self.down, other.down) {
            return false;
        }
        same_expr(&self.expr, &other.expr)
    }
}

fn same_limit(a: &Option<u64>, b: &Option<u64>) -> bool
    ensures { IsTrue result ↔ (a.now ≡ b.now) }
{
    match (a, b) {
        (None, None) => true,
        (Some(a), Some(b)) => *a == *b,
        _ => false,
    }
}

/// What stands after the paths.
fn same_tail(a: &Ast, b: &Ast) -> bool
    ensures { IsTrue result ↔ spec.HaveSameTail a.now b.now }
{
    if !same_option(&a.condition, &b.condition) {
        return false;
    }
    if !same_all(a.keys.as_slice(), b.keys.as_slice()) {
        return false;
    }
    same_limit(&a.limit, &b.limit)
}

/// What stands before the condition.
fn same_head(a: &Ast, b: &Ast) -> bool
    ensures { IsTrue result ↔ spec.HaveSameHead a.now b.now }
{
    if !same_truth(a.distinct, b.distinct) {
        return false;
    }
    if !same_all(a.items.as_slice(), b.items.as_slice()) {
        return false;
    }
    same_all(a.paths.as_slice(), b.paths.as_slice())
}

impl Ast {
    /// Whether the two are equal apart from the places in them.
    pub fn same(&self, other: &Ast) -> bool
        ensures { IsTrue result ↔ spec.AreSame self.now other.now }
    {
        if !same_head(self, other) {
            return false;
        }
        same_tail(self, other)
    }
}
