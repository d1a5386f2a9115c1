//! What all parts hold together.
use crate::dealing::Dealing;
use element_store::ElementList;

/// What the parts of all machines share: who has which vertex, and keys, labels and values by the numbers of elements.
#[derive(Drop)]
pub(crate) struct Shared {
    pub(crate) dealing: Dealing,
    pub(crate) vertices: ElementList,
    pub(crate) edges: ElementList,
}
