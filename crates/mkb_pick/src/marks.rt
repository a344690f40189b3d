// What is known of the reducings of a process, node by node.
ghost use Rattle.std.specs.Prelude.{ℕ, ◌≡◌, ◌⊎◌, ◌↔◌, ◌<◌, IsTrue, length};
ghost use Rattle.mkb_pick.specs.declared.marks.Mark.{Mark};
ghost use Rattle.mkb_pick.specs.declared.marks.Mark.TheVariants.{Absent, Unknown};
ghost use Rattle.mkb_pick.specs.Marks.{IsSet, mark_at, more, fewer};

use kb_node::NodeId;
use std::alloc::Global;

/// How many reducings of a node there are.
#[derive(Clone, Copy)]
pub(crate) enum Mark {
    Absent,
    Single,
    Unknown,
}

impl Mark {
    /// Where there is one more.
    fn more(self) -> Mark
        ensures { result ≡ more self }
    {
        match self {
            Mark::Absent => Mark::Single,
            Mark::Single | Mark::Unknown => Mark::Unknown,
        }
    }

    /// Where there is one fewer.
    fn fewer(self) -> Mark
        ensures { result ≡ fewer self }
    {
        match self {
            Mark::Single => Mark::Absent,
            Mark::Absent | Mark::Unknown => Mark::Unknown,
        }
    }
}

/// The marks of the first nodes, and the one of all nodes behind them.
#[derive(Drop)]
pub(crate) struct Marks {
    first: Vec<Mark>,
    beyond: Mark,
}

impl Marks {
    /// No reducing. It takes no memory.
    pub(crate) fn new(alloc: Global) -> Marks
        ensures { (k : ℕ) → mark_at result k ≡ Absent }
    {
        Marks {
            first: Vec::new(alloc),
            beyond: Mark::Absent,
        }
    }

    /// The mark of a node.
    pub(crate) fn at(&self, n: NodeId) -> Mark
        ensures { result ≡ mark_at self.now n.0 }
    {
        let place = usize::from(n.0);
        if place < self.first.len() {
            self.first[place]
        } else {
            self.beyond
        }
    }

    /// There is one more reducing of the node.
    pub(crate) fn add(&mut self, n: NodeId)
        ensures { IsSet self.old self.new n.0 (more (mark_at self.old n.0)) }
    {
        let mark = self.at(n).more();
        self.set(n, mark);
    }

    /// There is one reducing of the node fewer.
    pub(crate) fn remove(&mut self, n: NodeId)
        ensures { IsSet self.old self.new n.0 (fewer (mark_at self.old n.0)) }
    {
        let mark = self.at(n).fewer();
        self.set(n, mark);
    }

    /// The same marks, or none that says anything where there is no memory for them.
    pub(crate) fn copy(&self) -> Marks
        ensures { (k : ℕ) → (mark_at result k ≡ Unknown) ⊎ (mark_at result k ≡ mark_at self.now k) }
    {
        let alloc = *self.first.allocator();
        match self.first.as_slice().to_vec(alloc) {
            Ok(first) => Marks {
                first,
                beyond: self.beyond,
            },
            Err(_) => Marks {
                first: Vec::new(alloc),
                beyond: Mark::Unknown,
            },
        }
    }

    // Gives a node its mark, for which no memory is taken where it is unknown. Where there is none, the nodes behind the
    // first ones are unknown from then on.
    fn set(&mut self, n: NodeId, mark: Mark)
        ensures { IsSet self.old self.new n.0 mark }
    {
        let place = usize::from(n.0);
        if self.first.len() <= place {
            if let Mark::Unknown = mark {
                self.beyond = Mark::Unknown;
                return;
            }
        }
        if self.reaches(place) {
            self.first[place] = mark;
        } else {
            self.beyond = Mark::Unknown;
        }
    }

    // Makes the first marks reach the place: whether they do.
    fn reaches(&mut self, place: usize) -> bool
        requires { place < 65536 }
        ensures reach { IsTrue result ↔ (place < length self.new.first.items) }
        ensures marks { (k : ℕ) → mark_at self.new k ≡ mark_at self.old k }
    {
        place < self.first.len() || self.first.resize(place + 1, self.beyond).is_ok()
    }
}
