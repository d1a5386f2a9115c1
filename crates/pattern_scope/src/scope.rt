//! What the patterns of MATCH declare.
ghost use Rattle.std.specs.Prelude.{◌≡◌, ◌++◌, ◌∷◌, [], IfOk, OnOk, Option, Some, None, fold, length};
ghost use Rattle.std.specs.Option.{option_copied};
ghost use Rattle.pattern_scope.specs.Scope as spec;
ghost use Rattle.pattern_scope.specs.Scope.{Gives};

use crate::declarations::Declarations;
use crate::fault::TypeFault;
use adfs_base::{EDGE_VARIABLES, Name, NoMemory, VERTEX_VARIABLES};
use pgql_tree::{EdgePat, Labels, Path, Placed, VertexPat};
use sqlite_items::{Boxed, Items};
use std::alloc::Global;
use typed_query::EdgeJoin;

/// What the patterns that were read declare.
#[derive(Drop)]
pub struct Scope {
    /// In order of first appearance.
    pub variables: Declarations,
    /// Label lists, each with the number of its variable.
    pub labels: Items<(usize, Items<Name>)>,
    /// The numbers of the vertex variables, each with the place of its first pattern.
    pub vertices: Items<(u32, u32)>,
    /// The joins of the edge variables.
    pub edges: Items<EdgeJoin>,
    /// The vertices that an edge pattern joins.
    pub links: Items<(u32, u32)>,
    pub faults: Items<TypeFault>,
}

/// A variable.
#[derive(Drop)]
pub struct Declared {
    pub name: Option<Boxed<Name>>,
    pub edge: bool,
}

/// A name of its own with the same text.
pub fn copied(alloc: Global, name: &Name) -> Result<Name, NoMemory>
    ensures { IfOk result (λ copy. copy ≡ name.now) }
{
    Name::new(alloc, name.text())
}

/// The same, in memory of its own.
pub fn boxed(alloc: Global, name: &Name) -> Result<Boxed<Name>, NoMemory>
    ensures { IfOk result (λ copy. copy ≡ name.now) }
{
    let copy = copied(alloc, name)?;
    Ok(Boxed::new(alloc, copy)?)
}

fn name_of(alloc: Global, name: Option<&Name>) -> Result<Option<Boxed<Name>>, NoMemory>
    ensures { IfOk result (λ copy. copy ≡ option_copied name.entry) }
{
    match name {
        Some(name) => Ok(Some(boxed(alloc, name)?)),
        None => Ok(None),
    }
}

fn add_copy(alloc: Global, name: &Name, copies: &mut Items<Name>) -> Result<(), NoMemory>
    ensures { OnOk result (copies.new ≡ copies.old ++ name.now ∷ []) }
{
    let copy = copied(alloc, name)?;
    copies.push(copy)?;
    Ok(())
}

fn add_copies(alloc: Global, names: &[Name], copies: &mut Items<Name>) -> Result<(), NoMemory>
    ensures { OnOk result (copies.new ≡ copies.old ++ names.now) }
{
    for name in names {
        add_copy(alloc, name, copies)?;
    }
    Ok(())
}

/// Names of their own with the same texts.
pub fn copies(alloc: Global, names: &[Name]) -> Result<Items<Name>, NoMemory>
    ensures { IfOk result (λ copies. copies ≡ names.now) }
{
    let mut copies = Items::new(alloc);
    add_copies(alloc, names, &mut copies)?;
    Ok(copies)
}

/// A number of a variable as a query has it.
pub fn short(number: usize) -> Result<u32, NoMemory>
    ensures { IfOk result (λ short. short ≡ number) }
{
    u32::try_from(number).map_err(|_| NoMemory)
}

impl Scope {
    pub fn new(alloc: Global) -> Scope
        ensures { result ≡ spec.nothing_declared }
    {
        Scope {
            variables: Declarations::new(alloc),
            labels: Items::new(alloc),
            vertices: Items::new(alloc),
            edges: Items::new(alloc),
            links: Items::new(alloc),
            faults: Items::new(alloc),
        }
    }

    // Adds a label list of a variable, if it isn't empty.
    fn add_labels(&mut self, alloc: Global, number: usize, labels: &Labels) -> Result<(), NoMemory>
        ensures { OnOk result (self.new ≡ spec.with_labels self.old number labels.now) }
    {
        let labels = labels.as_slice();
        if labels.is_empty() {
            return Ok(());
        }
        let copies = copies(alloc, labels)?;
        self.labels.push((number, copies))?;
        Ok(())
    }

    fn add_fault(&mut self, fault: TypeFault) -> Result<(), NoMemory>
        ensures { OnOk result (self.new ≡ spec.with_fault self.old fault) }
    {
        self.faults.push(fault)?;
        Ok(())
    }

    fn declare(&mut self, alloc: Global, name: Option<&Name>, edge: bool) -> Result<(), NoMemory>
        ensures { OnOk result (self.new ≡ record self.old { variables = self.old.variables ++ record { name = option_copied name.entry; edge = edge } ∷ [] }) }
    {
        let name = name_of(alloc, name)?;
        self.variables.push(Declared { name, edge })
    }

    // A vertex pattern brings a variable.
    fn add_vertex(
        &mut self,
        alloc: Global,
        name: Option<&Name>,
        pattern: &VertexPat,
    ) -> Result<Option<usize>, NoMemory>
        ensures { IfOk result (Gives (spec.with_vertex self.old (option_copied name.entry) pattern.now, Some (length self.old.variables)) self.new) }
    {
        let number = self.variables.len();
        if VERTEX_VARIABLES as usize <= self.vertices.len() {
            self.add_fault(TypeFault::TooManyVariables(pattern.at))?;
        }
        self.add_labels(alloc, number, &pattern.labels)?;
        self.declare(alloc, name, false)?;
        self.vertices.push((short(number)?, pattern.at))?;
        Ok(Some(number))
    }

    // An edge pattern brings a variable.
    fn add_edge(
        &mut self,
        alloc: Global,
        name: Option<&Name>,
        pattern: &EdgePat,
    ) -> Result<Option<usize>, NoMemory>
        ensures { IfOk result (Gives (spec.with_edge self.old (option_copied name.entry) pattern.now, Some (length self.old.variables)) self.new) }
    {
        let number = self.variables.len();
        if EDGE_VARIABLES as usize <= number.saturating_sub(self.vertices.len()) {
            self.add_fault(TypeFault::TooManyVariables(pattern.at))?;
        }
        self.add_labels(alloc, number, &pattern.labels)?;
        self.declare(alloc, name, true)?;
        Ok(Some(number))
    }

    fn named_vertex(
        &mut self,
        alloc: Global,
        placed: &Placed,
        pattern: &VertexPat,
    ) -> Result<Option<usize>, NoMemory>
        ensures { IfOk result (Gives (spec.vertex_by self.old pattern.now (Some placed.now)) self.new) }
    {
        match self.variables.variable_of(&placed.name) {
            None => self.add_vertex(alloc, Some(&placed.name), pattern),
            Some((number, false)) => {
                self.add_labels(alloc, number, &pattern.labels)?;
                Ok(Some(number))
            }
            Some((_, true)) => {
                self.add_fault(TypeFault::VariableKind(placed.at))?;
                Ok(None)
            }
        }
    }

    fn named_edge(
        &mut self,
        alloc: Global,
        placed: &Placed,
        pattern: &EdgePat,
    ) -> Result<Option<usize>, NoMemory>
        ensures { IfOk result (Gives (spec.edge_by self.old pattern.now (Some placed.now)) self.new) }
    {
        match self.variables.variable_of(&placed.name) {
            None => self.add_edge(alloc, Some(&placed.name), pattern),
            Some((_, false)) => {
                self.add_fault(TypeFault::VariableKind(placed.at))?;
                Ok(None)
            }
            Some((_, true)) => {
                self.add_fault(TypeFault::DoubleName(placed.at))?;
                Ok(None)
            }
        }
    }

    fn vertex(&mut self, alloc: Global, pattern: &VertexPat) -> Result<Option<usize>, NoMemory>
        ensures { IfOk result (Gives (spec.after_vertex self.old pattern.now) self.new) }
    {
        match &pattern.name {
            Some(placed) => self.named_vertex(alloc, placed.get(), pattern),
            None => self.add_vertex(alloc, None, pattern),
        }
    }

    fn edge(&mut self, alloc: Global, pattern: &EdgePat) -> Result<Option<usize>, NoMemory>
        ensures { IfOk result (Gives (spec.after_edge self.old pattern.now) self.new) }
    {
        match &pattern.name {
            Some(placed) => self.named_edge(alloc, placed.get(), pattern),
            None => self.add_edge(alloc, None, pattern),
        }
    }

    // An edge pattern joins two vertices.
    fn link(
        &mut self,
        edge: Option<usize>,
        out: bool,
        left: usize,
        right: usize,
    ) -> Result<(), NoMemory>
        ensures { OnOk result (self.new ≡ spec.linked self.old edge out (Some left) (Some right)) }
    {
        if let Some(edge) = edge {
            let (source, target) = if out { (left, right) } else { (right, left) };
            self.edges.push(EdgeJoin {
                edge: short(edge)?,
                source: short(source)?,
                target: short(target)?,
            })?;
        }
        self.links.push((short(left)?, short(right)?))?;
        Ok(())
    }

    // An edge pattern after the vertex `left`, and the vertex pattern after it.
    fn step(
        &mut self,
        alloc: Global,
        left: Option<usize>,
        step: &(EdgePat, VertexPat),
    ) -> Result<Option<usize>, NoMemory>
        ensures { IfOk result (Gives (spec.after_step (self.old, left) step.now) self.new) }
    {
        let edge = self.edge(alloc, &step.0)?;
        let vertex = self.vertex(alloc, &step.1)?;
        if let (Some(left), Some(right)) = (left, vertex) {
            self.link(edge, step.0.out, left, right)?;
        }
        Ok(vertex)
    }

    fn path(&mut self, alloc: Global, path: &Path) -> Result<(), NoMemory>
        ensures { OnOk result (self.new ≡ spec.after_path self.old path.now) }
    {
        let mut vertex = self.vertex(alloc, &path.first)?;
        for step in path.steps.as_slice() {
            vertex = self.step(alloc, vertex, step)?;
        }
        Ok(())
    }
}

fn add_paths(alloc: Global, paths: &[Path], scope: &mut Scope) -> Result<(), NoMemory>
    ensures { OnOk result (scope.new ≡ fold spec.after_path scope.old paths.now) }
{
    for path in paths {
        scope.path(alloc, path)?;
    }
    Ok(())
}

/// What all the patterns declare.
pub fn scope_of(alloc: Global, paths: &[Path]) -> Result<Scope, NoMemory>
    ensures { IfOk result (λ scope. scope ≡ spec.scope_of paths.now) }
{
    let mut scope = Scope::new(alloc);
    add_paths(alloc, paths, &mut scope)?;
    Ok(scope)
}
