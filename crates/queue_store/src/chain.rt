//! Chains in one slab: the two steps that change links.

ghost use Rattle.std.specs.Prelude.{◌≡◌, ◌≢◌, ℕ, ◌+◌, ◌-◌, ◌<◌, ◌≤◌, ◌==◌, if◌then◌else◌, Some, None};
ghost use Rattle.slab.specs.Slab.{get, slab_len, HasRoomFor, ContainsKey};
ghost use Rattle.queue_store.specs.Chains.{next_in, load_in};

use slab::Slab;

/// An item in a slot, and the slot after it in its queue.
#[derive(Drop)]
pub(crate) struct Node<T> {
    pub(crate) item: T,
    pub(crate) ip: u32,
    pub(crate) next: usize,
}

/// A queue: its first and last slot, where it is not empty.
#[derive(Clone, Copy)]
pub(crate) struct Chain {
    pub(crate) first: usize,
    pub(crate) last: usize,
    pub(crate) len: usize,
}

fn set_next<T>(nodes: &mut Slab<Node<T>>, slot: usize, next: usize)
    requires { ContainsKey nodes.old slot }
    ensures loads { (k : ℕ) → load_in nodes.new k ≡ load_in nodes.old k }
    ensures here { next_in nodes.new slot ≡ next }
    ensures others { (k : ℕ) → k ≢ slot → next_in nodes.new k ≡ next_in nodes.old k }
    ensures len { slab_len nodes.new ≡ slab_len nodes.old }
    ensures capacity { nodes.new.capacity ≡ nodes.old.capacity }
{
    if let Some(node) = nodes.get_mut(slot) {
        node.next = next;
    }
}

/// Puts an item into a slot at the end of a chain.
pub(crate) fn link_last<T>(nodes: &mut Slab<Node<T>>, chain: Chain, ip: u32, item: T) -> Chain
    requires room { HasRoomFor nodes.old 1 }
    requires filled { 0 < chain.len → ContainsKey nodes.old chain.last }
    requires len { chain.len ≤ slab_len nodes.old }
    ensures vacant { load_in nodes.old result.last ≡ None }
    ensures load { load_in nodes.new result.last ≡ Some (ip, item) }
    ensures loads { (k : ℕ) → k ≢ result.last → load_in nodes.new k ≡ load_in nodes.old k }
    ensures link { 0 < chain.len → next_in nodes.new chain.last ≡ result.last }
    ensures links { (k : ℕ) → (0 < chain.len → k ≢ chain.last) → next_in nodes.new k ≡ next_in nodes.old k }
    ensures one_more { result.len ≡ chain.len + 1 }
    ensures first { result.first ≡ (if chain.len == 0 then result.last else chain.first) }
    ensures len { slab_len nodes.new ≡ slab_len nodes.old + 1 }
    ensures capacity { nodes.new.capacity ≡ nodes.old.capacity }
{
    let slot = nodes.insert_reserved(Node { item, ip, next: 0 });
    let _filled = nodes.len();
    if chain.len == 0 {
        return Chain {
            first: slot,
            last: slot,
            len: 1,
        };
    }
    set_next(nodes, chain.last, slot);
    Chain {
        first: chain.first,
        last: slot,
        len: chain.len + 1,
    }
}

/// Takes the item out of the first slot of a chain.
pub(crate) fn unlink_first<T>(nodes: &mut Slab<Node<T>>, chain: Chain) -> (Chain, u32, T)
    requires some { 0 < chain.len }
    requires filled { ContainsKey nodes.old chain.first }
    ensures load { load_in nodes.old chain.first ≡ Some (result.1, result.2) }
    ensures vacant { load_in nodes.new chain.first ≡ None }
    ensures loads { (k : ℕ) → k ≢ chain.first → load_in nodes.new k ≡ load_in nodes.old k }
    ensures links { (k : ℕ) → k ≢ chain.first → next_in nodes.new k ≡ next_in nodes.old k }
    ensures first { result.0.first ≡ next_in nodes.old chain.first }
    ensures last { result.0.last ≡ chain.last }
    ensures one_less { result.0.len + 1 ≡ chain.len }
    ensures len { slab_len nodes.new + 1 ≡ slab_len nodes.old }
    ensures capacity { nodes.new.capacity ≡ nodes.old.capacity }
    ensures room { HasRoomFor nodes.new 1 }
{
    let Node { item, ip, next } = nodes.remove(chain.first);
    (
        Chain {
            first: next,
            last: chain.last,
            len: chain.len - 1,
        },
        ip,
        item,
    )
}
