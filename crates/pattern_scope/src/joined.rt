//! Which vertices edge patterns join.
ghost use Rattle.std.specs.Prelude.{◌≡◌, ◌≢◌, ◌<◌, ◌≤◌, ◌++◌, ◌∷◌, ◌||◌, [], All, Bool, List, IfOk, OnOk, length, slice_index, slice_set, sum, ℕ};
ghost use Rattle.std.specs.Bool.{OnFalse, OnTrue};
ghost use Rattle.std.specs.List.{range_with_len};
ghost use Rattle.pattern_scope.specs.Joined as spec;

use crate::fault::TypeFault;
use crate::scope::Scope;
use adfs_base::NoMemory;
use sqlite_items::Items;
use std::alloc::Global;

// Lets what stands for that which stands for a variable stand for it, and returns it.
fn halve(parents: &mut [usize], at: usize) -> usize
    requires forest { spec.IsForest parents.old }
    requires inside { at < length parents.old }
    ensures nearer { spec.IsNearer parents.old parents.new }
    ensures changed { parents.new ≡ slice_set parents.old at result }
    ensures next { result ≡ slice_index parents.old (slice_index parents.old at) }
    ensures falls { result ≤ slice_index parents.old at }
{
    let above = parents[parents[at]];
    parents[at] = above;
    above
}

// The variable that stands for all which are known to be joined with this one.
fn root_of(parents: &mut [usize], number: usize) -> usize
    requires forest { spec.IsForest parents.old }
    requires inside { number < length parents.old }
    ensures nearer { spec.IsNearer parents.old parents.new }
    ensures root { slice_index parents.new result ≡ result }
    ensures within { result < length parents.new }
    ensures respected { (set : ℕ → Bool) → spec.Respects set parents.old → set result ≡ set number }
    ensures flat { spec.IsFlat parents.old → (parents.new ≡ parents.old) × (result ≡ slice_index parents.old number) }
{
    let mut at = number;
    while parents[at] != at {
        at = halve(parents, at);
    }
    at
}

// Lets an earlier variable stand for one that has stood for itself.
fn hang(parents: &mut [usize], child: usize, parent: usize)
    requires forest { spec.IsForest parents.old }
    requires inside { child < length parents.old }
    requires root { slice_index parents.old child ≡ child }
    requires earlier { parent < child }
    ensures as_many { length parents.new ≡ length parents.old }
    ensures forest { spec.IsForest parents.new }
    ensures respected { (set : ℕ → Bool) → spec.Respects set parents.old → set parent ≡ set child → spec.Respects set parents.new }
    ensures fewer { sum parents.new < sum parents.old }
{
    parents[child] = parent;
}

// Lets the earlier of two variables that have stood for themselves stand for the other.
fn tie(parents: &mut [usize], a: usize, b: usize)
    requires forest { spec.IsForest parents.old }
    requires inside { spec.IsWithin (length parents.old) (a, b) }
    requires roots { (slice_index parents.old a ≡ a) × (slice_index parents.old b ≡ b) }
    requires apart { a ≢ b }
    ensures as_many { length parents.new ≡ length parents.old }
    ensures forest { spec.IsForest parents.new }
    ensures respected { (set : ℕ → Bool) → spec.Respects set parents.old → set a ≡ set b → spec.Respects set parents.new }
    ensures fewer { sum parents.new < sum parents.old }
{
    if a < b {
        hang(parents, b, a);
    } else {
        hang(parents, a, b);
    }
}

// Joins two variables, and returns whether they were not known to be joined.
fn unite(parents: &mut [usize], left: usize, right: usize) -> bool
    requires forest { spec.IsForest parents.old }
    requires inside { spec.IsWithin (length parents.old) (left, right) }
    ensures as_many { length parents.new ≡ length parents.old }
    ensures forest { spec.IsForest parents.new }
    ensures respected { (set : ℕ → Bool) → spec.Respects set parents.old → set left ≡ set right → spec.Respects set parents.new }
    ensures no_more { sum parents.new ≤ sum parents.old }
    ensures fewer { OnTrue result (sum parents.new < sum parents.old) }
    ensures known { OnFalse result (spec.IsFlat parents.old → (parents.new ≡ parents.old) × spec.Agree parents.old (left, right)) }
{
    let a = root_of(parents, left);
    let b = root_of(parents, right);
    if a == b {
        return false;
    }
    tie(parents, a, b);
    true
}

fn either(a: bool, b: bool) -> bool
    ensures { result ≡ (a || b) }
{
    a || b
}

// The same for all links.
fn unite_all(parents: &mut [usize], links: &[(u32, u32)]) -> bool
    requires forest { spec.IsForest parents.old }
    requires inside { All (spec.IsWithin (length parents.old)) links.now }
    ensures as_many { length parents.new ≡ length parents.old }
    ensures forest { spec.IsForest parents.new }
    ensures respected { (set : ℕ → Bool) → spec.Respects set parents.old → spec.HasBothOrNeither set links.now → spec.Respects set parents.new }
    ensures fewer { OnTrue result (sum parents.new < sum parents.old) }
    ensures known { OnFalse result (spec.IsFlat parents.old → (parents.new ≡ parents.old) × All (spec.Agree parents.old) links.now) }
{
    let mut united = false;
    for (left, right) in links {
        let further = unite(parents, *left as usize, *right as usize);
        united = either(united, further);
    }
    united
}

// Brings what stands for variables as near as it can be.
fn flatten(parents: &mut [usize])
    requires { spec.IsForest parents.old }
    ensures nearer { spec.IsNearer parents.old parents.new }
    ensures flat { spec.IsFlat parents.new }
{
    for at in 0..parents.len() {
        halve(parents, at);
    }
}

// So many variables, of which each stands for itself.
fn alone(alloc: Global, count: usize) -> Result<Vec<usize>, NoMemory>
    ensures { IfOk result (λ parents. parents.items ≡ range_with_len 0 count) }
{
    let mut parents = Vec::new(alloc);
    for number in 0..count {
        parents.push(number)?;
    }
    Ok(parents)
}

// Joins all that links join, however far apart.
fn join(parents: &mut [usize], links: &[(u32, u32)])
    requires alone { spec.AreJoinedSoFar (length parents.old) links.now parents.old }
    requires inside { All (spec.IsWithin (length parents.old)) links.now }
    ensures { spec.AreGroups (length parents.old) links.now parents.new }
{
    'rounds: while unite_all(parents, links) {
        flatten(parents);
    }
}

// Variables that stand for all which links join.
fn groups_of(alloc: Global, count: usize, links: &[(u32, u32)]) -> Result<Vec<usize>, NoMemory>
    requires { All (spec.IsWithin count) links.now }
    ensures { IfOk result (λ groups. spec.AreGroups count links.now groups.items) }
{
    let mut parents = alone(alloc, count)?;
    join(parents.as_mut_slice(), links);
    Ok(parents)
}

// The greater of two numbers.
fn greater(a: usize, b: usize) -> usize
    ensures first { a ≤ result }
    ensures second { b ≤ result }
{
    if a < b { b } else { a }
}

// The greatest number of a variable in links and vertices.
fn most_linked(links: &[(u32, u32)]) -> usize
    ensures { All (λ link. (link.0 ≤ result) × (link.1 ≤ result)) links.now }
{
    let mut most = 0;
    for (left, right) in links {
        most = greater(most, greater(*left as usize, *right as usize));
    }
    most
}

fn most_of(vertices: &[(u32, u32)]) -> usize
    ensures { All (λ vertex. vertex.0 ≤ result) vertices.now }
{
    let mut most = 0;
    for (number, _) in vertices {
        most = greater(most, *number as usize);
    }
    most
}

// Adds the fault of a vertex that doesn't stand in the group of the first variable.
fn add_if_apart(
    groups: &[usize],
    number: usize,
    at: u32,
    faults: &mut Items<TypeFault>,
) -> Result<(), NoMemory>
    requires { number < length groups.now }
    ensures { (links : List (ℕ × ℕ)) → spec.AreGroups (length groups.now) links groups.now → OnOk result (faults.new ≡ faults.old ++ spec.disconnected links ((number, at) ∷ [])) }
{
    if groups[number] != groups[0] {
        faults.push(TypeFault::Disconnected(at))?;
    }
    Ok(())
}

// The same of all.
fn add_apart(
    groups: &[usize],
    vertices: &[(u32, u32)],
    faults: &mut Items<TypeFault>,
) -> Result<(), NoMemory>
    requires { All (λ vertex. vertex.0 < length groups.now) vertices.now }
    ensures { (links : List (ℕ × ℕ)) → spec.AreGroups (length groups.now) links groups.now → OnOk result (faults.new ≡ faults.old ++ spec.disconnected links vertices.now) }
{
    for (number, at) in vertices {
        add_if_apart(groups, *number as usize, *at, faults)?;
    }
    Ok(())
}

/// Adds the faults of vertices that aren't joined with the first variable.
pub fn add_disconnected(
    alloc: Global,
    scope: &Scope,
    faults: &mut Items<TypeFault>,
) -> Result<(), NoMemory>
    ensures { OnOk result (faults.new ≡ faults.old ++ spec.disconnected scope.now.links scope.now.vertices) }
{
    let links = scope.links.as_slice();
    let vertices = scope.vertices.as_slice();
    let most = greater(most_linked(links), most_of(vertices));
    if most == usize::MAX {
        return Err(NoMemory);
    }
    let groups = groups_of(alloc, most + 1, links)?;
    add_apart(groups.as_slice(), vertices, faults)
}
