// What jobs propose.
ghost use Rattle.std.specs.Prelude.{◌≡◌};

use kb_cert::Certificate;
use kb_label::Process;
use kb_node::{Deduced, Fact, Job, LimitCause, NodeId};
use kb_term::{Found, Position, RuleRef, Term};
use std::marker::Model;

/// A list of facts.
#[derive(Drop)]
pub struct FactList {
    items: Vec<Fact>,
}

impl Model for FactList {
    ghost use Rattle.std.specs.Prelude.{List};
    ghost use Rattle.kb_node.specs.declared.job.Fact.{Fact};

    ghost Value = { List Fact };

    ghost view = { λ l. l.items.items };
}

impl FactList {
    /// The list of these facts. It takes no memory.
    pub fn new(items: Vec<Fact>) -> FactList
        ensures { result ≡ items.items }
    {
        FactList { items }
    }

    /// The facts.
    pub fn items(&self) -> &[Fact]
        ensures { result.now ≡ self.now }
    {
        &self.items
    }

    /// What the list is made of. It takes no memory.
    pub fn into_items(self) -> Vec<Fact>
        ensures { result.items ≡ self }
    {
        let FactList { items } = self;
        items
    }
}

/// A list of overlaps with their pairs.
#[derive(Drop)]
pub struct DeducedList {
    items: Vec<Deduced>,
}

impl Model for DeducedList {
    ghost use Rattle.std.specs.Prelude.{List};
    ghost use Rattle.kb_node.specs.declared.job.Deduced.{Deduced};
    ghost use Rattle.std.specs.Coded.{codes};
    ghost use Rattle.kb_term.specs.Coding.{coded_pair};

    ghost Value = { List Deduced };

    ghost coded = { Prim.hlevel (codes, coded_pair) };

    ghost view = { λ l. l.items.items };
}

impl DeducedList {
    /// The list of these overlaps. It takes no memory.
    pub fn new(items: Vec<Deduced>) -> DeducedList
        ensures { result ≡ items.items }
    {
        DeducedList { items }
    }

    /// The overlaps.
    pub fn items(&self) -> &[Deduced]
        ensures { result.now ≡ self.now }
    {
        &self.items
    }

    /// What the list is made of. It takes no memory.
    pub fn into_items(self) -> Vec<Deduced>
        ensures { result.items ≡ self }
    {
        let DeducedList { items } = self;
        items
    }
}

/// What a job proposes.
#[derive(Drop)]
pub enum Proposed {
    /// No redex of the node can be used; these facts were not known.
    Facts(FactList),
    /// The first redex of a node that can be used, and its result.
    Rewrite {
        node: NodeId,
        side: u8,
        position: Position,
        rule: RuleRef,
        kind: Found,
        result: Term,
    },
    /// The equation becomes a rule in one direction.
    One {
        process: Process,
        node: NodeId,
        dir: u8,
        cert: Certificate,
    },
    /// The process forks: one child has the rule in direction 0, the other the rule in direction 1.
    Both {
        process: Process,
        node: NodeId,
        cert0: Certificate,
        cert1: Certificate,
    },
    /// The equation can't become a rule.
    Refuse {
        process: Process,
        node: NodeId,
    },
    /// The pairs of the overlaps of two rules.
    Deduce {
        a: RuleRef,
        b: RuleRef,
        pairs: DeducedList,
    },
    /// The pairs of overlaps that don't join.
    Unjoined {
        process: Process,
        pairs: DeducedList,
    },
    /// All overlaps of the process join.
    Closed {
        process: Process,
    },
    /// A limit.
    Limit {
        job: Job,
        cause: LimitCause,
    },
}
