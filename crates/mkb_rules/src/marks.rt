// Which nodes are marked as in use.
ghost use Rattle.std.specs.Prelude.{◌≡◌, ◌≢◌, ◌<◌, ℕ, List, Bool, [], length, set, get_or, true, IfSome};
ghost use Rattle.mkb_rules.specs.Sizes.{AreListed};

use kb_node::NodeId;
use std::alloc::Global;
use std::marker::Model;
use std::mem::replace;

/// For each of the first nodes whether it may be in use, and a list of those that may, where that is kept. Contracts see the marks.
#[derive(Drop)]
pub(crate) struct Marks {
    used: Vec<bool>,
    list: Option<Vec<NodeId>>,
}

impl Model for Marks {
    ghost use Rattle.std.specs.Prelude.{List, Bool, IfSome, length};
    ghost use Rattle.mkb_rules.specs.Sizes.{AreListed};

    ghost Value = { List Bool };

    ghost view = { λ m. m.used.items };

    ghost invariant = { λ m. IfSome m.list (λ l. AreListed m.used.items (length m.used.items) l.items) };
}

impl Marks {
    /// No mark. It takes no memory.
    pub(crate) fn new(alloc: Global) -> Marks
        ensures { result ≡ [] }
    {
        Marks {
            used: Vec::new(alloc),
            list: Some(Vec::new(alloc)),
        }
    }

    /// How many nodes have a mark.
    pub(crate) fn len(&self) -> usize
        ensures { result ≡ length self.now }
    {
        self.used.len()
    }

    /// Whether the node may be in use: it is, unless it is marked otherwise.
    pub(crate) fn is_used(&self, n: NodeId) -> bool
        ensures { result ≡ get_or self.now n.0 true }
    {
        match self.used.get(n.0 as usize) {
            Some(is_used) => *is_used,
            None => true,
        }
    }

    /// Marks whether the node may be in use, where it has a mark.
    pub(crate) fn set(&mut self, n: NodeId, is_used: bool)
        ensures { self.new ≡ set self.old n.0 is_used }
    {
        let at = n.0 as usize;
        if at >= self.used.len() {
            return;
        }
        let was_used = replace(&mut self.used[at], is_used);
        if is_used != was_used {
            self.list = match self.list.take() {
                Some(list) => updated(list, n, is_used),
                None => None,
            };
        }
    }

    /// Marks a new node, the last one, as out of use, where memory allows.
    pub(crate) fn push(&mut self, n: NodeId)
        ensures { (m : ℕ) → m ≢ n.0 → get_or self.new m true ≡ get_or self.old m true }
    {
        if self.used.len() == n.0 as usize {
            self.used.push(false).ok();
        }
    }

    /// Those of the nodes with a mark that may be in use, in their order, and perhaps some that are marked otherwise; none where
    /// that isn't kept. It takes constant time.
    pub(crate) fn list(&self) -> Option<&[NodeId]>
        ensures { IfSome result (λ l. AreListed self.now (length self.now) l.now) }
    {
        match &self.list {
            Some(list) => Some(list.as_slice()),
            None => None,
        }
    }
}

// The list with the node at its place in the order, or without it, as it is used or not; none where there is no memory for it.
fn updated(mut list: Vec<NodeId>, n: NodeId, is_used: bool) -> Option<Vec<NodeId>>
    ensures { IfSome result (λ l. (used : List Bool) → n.0 < length used → AreListed used (length used) list.items → AreListed (set used n.0 is_used) (length used) l.items) }
{
    match list.binary_search_by_key(&n.0, |m| m.0) {
        Ok(place) if !is_used => {
            list.remove(place);
            Some(list)
        }
        Err(place) if is_used => {
            list.insert(place, n).ok()?;
            Some(list)
        }
        _ => Some(list),
    }
}
