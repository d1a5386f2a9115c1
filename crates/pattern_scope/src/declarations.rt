//! What names stand for.
ghost use Rattle.std.specs.Prelude.{◌≡◌, ◌∷◌, ◌++◌, [], List, OnOk, length};
ghost use Rattle.pattern_scope.specs.Names as spec;
ghost use Rattle.pattern_scope.specs.declared.scope.Declared.{Declared};

use crate::scope::Declared;
use adfs_base::{Name, NoMemory};
use sqlite_items::{Boxed, Items};
use std::alloc::Global;
use std::marker::Model;
use value_text::Texts;

/// Variables in order. What a name stands for is looked up at once, however many there are.
///
/// A contract sees the list of them.
#[derive(Drop)]
pub struct Declarations {
    alloc: Global,
    list: Items<Declared>,
    // The distinct names, and for each the number of the first variable with it, and whether it is an edge.
    names: Texts,
    first: Items<(usize, bool)>,
}

impl Model for Declarations {
    ghost use Rattle.std.specs.Prelude.{List};
    ghost use Rattle.pattern_scope.specs.declared.scope.Declared.{Declared};
    ghost use Rattle.pattern_scope.specs.Names.{IsIndexed};

    ghost Value = { List Declared };

    ghost view = { λ d. d.list };

    ghost invariant = { λ d. IsIndexed d.list d.names d.first };
}

// Notes a further variable, if it has a name that none has yet.
fn note(
    name: &Option<Boxed<Name>>,
    number: usize,
    edge: bool,
    names: &mut Texts,
    first: &mut Items<(usize, bool)>,
) -> Result<(), NoMemory>
    ensures { (variables : List Declared) → length variables ≡ number → spec.IsIndexed variables names.old first.old
        → OnOk result (spec.IsIndexed (variables ++ record { name = name.now; edge = edge } ∷ []) names.new first.new) }
{
    let Some(name) = name else {
        return Ok(());
    };
    let text = name.get().text().as_bytes();
    if names.find(text).is_some() {
        return Ok(());
    }
    if names.len() == u32::MAX {
        return Err(NoMemory);
    }
    first.push((number, edge))?;
    names.add(text)?;
    Ok(())
}

impl Declarations {
    pub fn new(alloc: Global) -> Declarations
        ensures { result ≡ [] }
    {
        Declarations {
            alloc,
            list: Items::new(alloc),
            names: Texts::new(alloc),
            first: Items::new(alloc),
        }
    }

    pub fn as_slice(&self) -> &[Declared]
        ensures { result.now ≡ self.now }
    {
        self.list.as_slice()
    }

    pub fn len(&self) -> usize
        ensures { result ≡ length self.now }
    {
        self.list.len()
    }

    /// The number of the variable with this name, and whether it is an edge.
    pub fn variable_of(&self, name: &Name) -> Option<(usize, bool)>
        ensures { result ≡ spec.variable_of self.now name.now }
    {
        match self.names.find(name.text().as_bytes()) {
            Some(place) => self.first.get(place as usize).copied(),
            None => None,
        }
    }

    /// Adds a variable. After `NoMemory` there is none.
    pub fn push(&mut self, variable: Declared) -> Result<(), NoMemory>
        ensures { OnOk result (self.new ≡ self.old ++ variable ∷ []) }
    {
        let number = self.list.len();
        let edge = variable.edge;
        let noted = note(
            &variable.name,
            number,
            edge,
            &mut self.names,
            &mut self.first,
        );
        if noted.is_ok() && self.list.push(variable).is_ok() {
            return Ok(());
        }
        *self = Declarations::new(self.alloc);
        Err(NoMemory)
    }
}
