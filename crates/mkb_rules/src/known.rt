// What is known of a node.
ghost use Rattle.std.specs.Prelude.{◌≡◌, ◌≤◌};
ghost use Rattle.mkb_model.specs.Plain.{known};

use crate::facts::Rows;
use crate::state::State;
use kb_node::NodeId;
use kb_term::{Found, RuleRef};
use std::marker::Model;

/// A node of a state, and what is known of its two sides. Contracts see it as the node on the board.
#[derive(Drop)]
pub struct KnownOn<'a> {
    state: &'a State,
    node: NodeId,
    rows: Rows<'a>,
}

impl<'a> Model for KnownOn<'a> {
    ghost use Rattle.std.specs.Coded.{codes};
    ghost use Rattle.kb_term.specs.Coding.{coded_pair, coded_problem, coded_tree};
    ghost use Rattle.mkb_rules.specs.Known.{NodeOn};
    ghost use Rattle.mkb_rules.specs.Tabled.{AreRowsOf};

    ghost Value = { NodeOn };

    ghost coded = { Prim.hlevel (codes, coded_pair, coded_problem, coded_tree) };

    ghost view = { λ k. record { board = k.state.now; node = k.node } };

    ghost invariant = { λ k. AreRowsOf k.state.now.facts k.node.0 k.rows.ranks.now k.rows.first.now k.rows.second.now };
}

impl<'a> KnownOn<'a> {
    /// What is known of the node. It takes constant time.
    pub(crate) fn new(state: &'a State, node: NodeId) -> KnownOn<'a>
        ensures { result ≡ record { board = state.now; node = node } }
    {
        KnownOn {
            state,
            node,
            rows: state.facts.rows_of(node),
        }
    }

    /// The state.
    pub fn state(&self) -> &'a State
        ensures { result.now ≡ self.now.board }
    {
        self.state
    }

    /// The node.
    pub fn node(&self) -> NodeId
        ensures { result ≡ self.now.node }
    {
        self.node
    }

    /// What is known of each side and the rule; none where no fact is known. It takes constant time, but for a rule of a direction
    /// above 1.
    #[inline]
    pub fn sides(&self, rule: RuleRef) -> (Option<Found>, Option<Found>)
        ensures first { result.0 ≡ known self.now.board self.now.node.0 0 rule }
        ensures second { result.1 ≡ known self.now.board self.now.node.0 1 rule }
    {
        if rule.dir > 1 {
            (self.first_of(0, rule), self.first_of(1, rule))
        } else {
            self.rows.of_rule(rule)
        }
    }

    /// What is known of one side and the rule; none where no fact is known. It takes constant time, but for a side or a direction
    /// above 1.
    pub fn side(&self, side: u8, rule: RuleRef) -> Option<Found>
        ensures { result ≡ known self.now.board self.now.node.0 side rule }
    {
        match side {
            0 => self.sides(rule).0,
            1 => self.sides(rule).1,
            _ => self.first_of(side, rule),
        }
    }

    // What the first fact of the side and the rule says. It goes over the facts.
    #[cold]
    #[inline(never)]
    fn first_of(&self, side: u8, rule: RuleRef) -> Option<Found>
        ensures { result ≡ known self.now.board self.now.node.0 side rule }
    {
        let state = self.state;
        state.facts.first_of(self.node, side, rule)
    }
}
