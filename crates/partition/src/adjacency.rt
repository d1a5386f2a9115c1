//! The links of each vertex of a part, in one flat array.
ghost use Rattle.std.specs.Prelude.{◌≡◌, ◌<◌, ◌^◌, ◌++◌, ◌∷◌, [], OnOk, length};
ghost use Rattle.std.specs.List.{AllByRecursion};
ghost use Rattle.partition.specs.Kept.{IsSpan, link_lists, link_order, links_in_order};

use crate::link::Link;
use adfs_base::NoMemory;
use sorted_lists::sort_by;
use std::alloc::Global;
use std::cmp::Ordering;

/// Where the links of a vertex stand.
#[derive(Clone, Copy)]
pub(crate) struct Span {
    pub(crate) start: usize,
    pub(crate) degree: u32,
}

/// The links of all vertices, those of a vertex side by side, and a span for each vertex.
#[derive(Drop)]
pub(crate) struct Lists {
    pub(crate) spans: Vec<Span>,
    pub(crate) links: Vec<Link>,
}

fn compare_links(a: &Link, b: &Link) -> Ordering
    ensures { result ≡ link_order a.now b.now }
{
    a.other.cmp(&b.other).then(a.edge.cmp(&b.edge))
}

fn sort_links(links: &mut Vec<Link>) -> Result<(), NoMemory>
    ensures { OnOk result (links.new.items ≡ links_in_order links.old.items) }
{
    sort_by(links, |a: &Link, b: &Link| compare_links(a, b))?;
    Ok(())
}

/// Adds the list of the next vertex, in order.
pub(crate) fn add_list(list: &mut Vec<Link>, lists: &mut Lists) -> Result<(), NoMemory>
    requires few { length list.old.items < 2 ^ 32 }
    requires spans { AllByRecursion (IsSpan (length lists.old.links.items)) lists.old.spans.items }
    ensures added { OnOk result (link_lists lists.new ≡ link_lists lists.old ++ links_in_order list.old.items ∷ []) }
    ensures spans { OnOk result (AllByRecursion (IsSpan (length lists.new.links.items)) lists.new.spans.items) }
    ensures links { OnOk result (lists.new.links.items ≡ lists.old.links.items ++ links_in_order list.old.items) }
{
    sort_links(list)?;
    let start = lists.links.len();
    let degree = list.len() as u32;
    lists.links.extend_from_slice(list)?;
    lists.spans.push(Span { start, degree })?;
    Ok(())
}
