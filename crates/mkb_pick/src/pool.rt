// Nodes that are set aside.
ghost use Rattle.std.specs.Prelude.{◌≡◌, ◌+◌, ◌<◌, ◌≤◌, OnOk, IsOk, vec_len, []};

use crate::run::Run;
use crate::tree::{Node, Tree};
use kb_term::Memory;
use std::alloc::Global;

// How many nodes that came back are kept at most.
const MOST_KEPT: usize = 1_024;

/// Nodes that are set aside, so that what needs one needs no memory.
#[derive(Drop)]
pub(crate) struct Pool {
    pub(crate) boxes: Vec<Box<Node>>,
    state: u64,
}

impl Pool {
    /// No node.
    pub(crate) fn new(alloc: Global) -> Self
        ensures { vec_len result.boxes ≡ 0 }
    {
        Pool {
            boxes: Vec::new(alloc),
            state: 0x9e37_79b9_7f4a_7c15,
        }
    }

    /// Sets nodes aside until there are so many.
    pub(crate) fn fill(&mut self, alloc: Global, count: usize) -> Result<(), Memory>
        ensures ok { OnOk result (count ≤ vec_len self.new.boxes) }
        ensures kept { vec_len self.old.boxes ≤ vec_len self.new.boxes }
        ensures room { count ≤ vec_len self.old.boxes → IsOk result }
    {
        if self.boxes.len() < count {
            self.widen();
        }
        while self.boxes.len() < count {
            let node = Box::new(
                alloc,
                Node {
                    left: Tree::Leaf,
                    run: Run::new(),
                    priority: self.draw(),
                    right: Tree::Leaf,
                },
            )?;
            self.boxes.push(node)?;
        }
        Ok(())
    }

    /// A node out of the pool.
    pub(crate) fn take(&mut self) -> Box<Node>
        requires { 0 < vec_len self.old.boxes }
        ensures { vec_len self.new.boxes + 1 ≡ vec_len self.old.boxes }
    {
        match self.boxes.pop() {
            Some(node) => node,
            None => unreachable!(),
        }
    }

    /// Keeps a node that came back where there is room for it, else lets it go. It takes no memory.
    pub(crate) fn give(&mut self, node: Box<Node>)
        ensures { vec_len self.old.boxes ≤ vec_len self.new.boxes }
    {
        let len = self.boxes.len();
        if len < MOST_KEPT && len < self.boxes.capacity() {
            let _ = self.boxes.push(node);
        }
    }

    // Makes room for the nodes that are kept, where there is none yet. Where memory is wanting for it, fewer are kept.
    fn widen(&mut self)
        ensures { vec_len self.new.boxes ≡ vec_len self.old.boxes }
    {
        if self.boxes.capacity() == 0 {
            let _ = self.boxes.reserve(MOST_KEPT);
        }
    }

    // The next number of a generator of G. Marsaglia's, 'Xorshift RNGs' (2003).
    fn draw(&mut self) -> u64
        ensures { self.new.boxes ≡ self.old.boxes }
    {
        let mut x = self.state;
        x ^= x << 13;
        x ^= x >> 7;
        x ^= x << 17;
        self.state = x;
        x
    }
}
