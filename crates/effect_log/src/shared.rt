use estelle_model::{Interaction, Part};
use link_ops::Links;
use module_tree::Tree;
use queue_store::Queues;

/// What the instances of a situation share (ISO/IEC 9074: global instantaneous description): the instances themselves,
/// the interactions that wait, the links, and how many outputs there have been.
pub struct Shared {
    pub tree: Tree<Part>,
    pub queues: Queues<Interaction>,
    pub links: Links,
    pub outputs: u64,
}

impl Drop for Shared {
    fn drop(self) {
        let Shared {
            tree: _,
            queues: _,
            links: _,
            outputs: _,
        } = self;
    }
}
