// Facts that are found by what they are about.
ghost use Rattle.std.specs.Prelude.{◌≡◌, ◌+◌, ◌*◌, ◌<◌, ◌≤◌, ◌∷◌, ◌++◌, [], List, All, length, get_or, None, OnErr, OnOk, ◌&&◌, ◌==◌};
ghost use Rattle.kb_node.specs.declared.job.Fact.{Fact as Told};
ghost use Rattle.mkb_rules.specs.Tabled.{place, HasRoom, IsTabled, IsWider, is_plain, known_by, AreRowsOf};
ghost use Rattle.mkb_rules.specs.Parts.{known_in};
ghost use Rattle.mkb_model.specs.Jobs.{ref_eq};

use crate::ranks::{Ranks, rank_in};
use crate::row::{Row, cell};
use kb_node::{Fact, NodeId};
use kb_term::{Found, RuleRef};
use std::alloc::{AllocError, Global};
use std::marker::Model;

/// Facts in the order in which they became known. Contracts see them as their list.
///
/// The first fact about a side of a node and a rule stands in the row of the side, at the rank of the rule.
#[derive(Drop)]
pub(crate) struct Facts {
    list: Vec<Fact>,
    ranks: Ranks,
    rows: Vec<Row>,
}

/// The ranks of the rules, and the rows of the two sides of a node.
#[derive(Clone, Copy)]
pub(crate) struct Rows<'a> {
    pub(crate) ranks: &'a [Option<u16>],
    pub(crate) first: &'a [Option<Found>],
    pub(crate) second: &'a [Option<Found>],
}

impl<'a> Rows<'a> {
    /// What the row of each side has of the rule.
    pub(crate) fn of_rule(&self, rule: RuleRef) -> (Option<Found>, Option<Found>)
        requires { rule.dir ≤ 1 }
        ensures first { result.0 ≡ known_by self.now.ranks.now self.now.first.now rule }
        ensures second { result.1 ≡ known_by self.now.ranks.now self.now.second.now rule }
    {
        match rank_in(self.ranks, place(rule.node, rule.dir)) {
            Some(rank) => (
                cell(self.first, rank as usize),
                cell(self.second, rank as usize),
            ),
            None => (None, None),
        }
    }
}

impl Model for Facts {
    ghost use Rattle.std.specs.Prelude.{List};
    ghost use Rattle.std.specs.Coded.{codes};
    ghost use Rattle.kb_node.specs.declared.job.Fact.{Fact};
    ghost use Rattle.mkb_rules.specs.Tabled.{IsTabled};

    ghost Value = { List Fact };

    ghost view = { λ f. f.list.items };

    ghost invariant = { λ f. IsTabled f.ranks f.rows.items f.list.items };
}

impl Facts {
    /// No fact. It takes no memory.
    pub(crate) fn new(alloc: Global) -> Facts
        ensures { result ≡ [] }
    {
        Facts {
            list: Vec::new(alloc),
            ranks: Ranks::new(alloc),
            rows: Vec::new(alloc),
        }
    }

    /// The rows of the two sides of a node. It takes constant time.
    pub(crate) fn rows_of(&self, n: NodeId) -> Rows<'_>
        ensures { AreRowsOf self.now n.0 result.ranks.now result.first.now result.second.now }
    {
        let rows = self.rows.as_slice();
        Rows {
            ranks: self.ranks.as_slice(),
            first: cells_of(rows, place(n.0, 0)),
            second: cells_of(rows, place(n.0, 1)),
        }
    }

    /// What the first fact of the side and the rule says; none where no fact is known. It goes over the facts.
    pub(crate) fn first_of(&self, n: NodeId, side: u8, rule: RuleRef) -> Option<Found>
        ensures { result ≡ known_in self.now n.0 side rule }
    {
        first_of(self.list.as_slice(), n, side, rule)
    }

    /// Adds the facts at the end.
    ///
    /// # Errors
    ///
    /// Want of memory; the facts are then as before.
    pub(crate) fn extend(&mut self, facts: &[Fact]) -> Result<(), AllocError>
        ensures ok { OnOk result (self.new ≡ self.old ++ facts.now) }
        ensures err { OnErr result (self.new ≡ self.old) }
    {
        let alloc = *self.list.allocator();
        for i in 0..facts.len() {
            make_room(alloc, &mut self.ranks, &mut self.rows, &facts[i])?;
        }
        self.list.extend_from_slice(facts)?;
        for i in 0..facts.len() {
            note(&self.ranks, &mut self.rows, &facts[i]);
        }
        Ok(())
    }
}

// The cells of the row with this number; none where there is no such row.
fn cells_of(rows: &[Row], i: usize) -> &[Option<Found>]
    ensures { result.now ≡ get_or rows.now i [] }
{
    match rows.get(i) {
        Some(row) => row.as_slice(),
        None => &[],
    }
}

// The number of a side of a node, or of a rule in a direction of it.
fn place(node: u16, side: u8) -> usize
    requires { side ≤ 1 }
    ensures value { result ≡ place node side }
    ensures most { result < 131072 }
{
    2 * node as usize + side as usize
}

// Whether the fact is about one of two sides, and a rule of one of two directions.
fn is_plain(fact: &Fact) -> bool
    ensures { result ≡ is_plain fact.now }
{
    fact.side <= 1 && fact.rule.dir <= 1
}

// Whether the fact is about the side and the rule.
fn is_about(fact: &Fact, n: NodeId, side: u8, rule: RuleRef) -> bool
    ensures { result ≡ ((fact.now.node.0 == n.0) && ((fact.now.side == side) && ref_eq fact.now.rule rule)) }
{
    fact.node.0 == n.0 && (fact.side == side && fact.rule == rule)
}

// What the first of the facts of the side and the rule says.
fn first_of(facts: &[Fact], n: NodeId, side: u8, rule: RuleRef) -> Option<Found>
    ensures { result ≡ known_in facts.now n.0 side rule }
{
    match facts.iter().find(|fact| is_about(fact, n, side, rule)) {
        Some(fact) => Some(fact.found),
        None => None,
    }
}

// Makes room for what the fact is about. What is known stays, after want of memory too.
fn make_room(
    alloc: Global,
    ranks: &mut Ranks,
    rows: &mut Vec<Row>,
    fact: &Fact,
) -> Result<(), AllocError>
    ensures room { OnOk result (HasRoom ranks.new rows.new.items fact.now) }
    ensures rooms { (f : Told) → HasRoom ranks.old rows.old.items f → HasRoom ranks.new rows.new.items f }
    ensures kept { (fs : List Told) → IsTabled ranks.old rows.old.items fs → IsTabled ranks.new rows.new.items fs }
{
    if !is_plain(fact) {
        return Ok(());
    }
    let row = place(fact.node.0, fact.side);
    add_rows(alloc, rows, row + 1)?;
    let rank = ranks.give(place(fact.rule.node, fact.rule.dir))?;
    rows[row].make_room(rank as usize + 1)
}

// Adds rows without room behind the others until there are so many. What is known stays, after want of memory too.
fn add_rows(alloc: Global, rows: &mut Vec<Row>, count: usize) -> Result<(), AllocError>
    ensures count { OnOk result (count ≤ length rows.new.items) }
    ensures wider { IsWider rows.old.items rows.new.items }
{
    for _ in rows.len()..count {
        rows.push(Row::new(alloc))?;
    }
    Ok(())
}

// The fact is found by what it is about, unless an earlier one is about the same.
fn note(ranks: &Ranks, rows: &mut Vec<Row>, fact: &Fact)
    requires room { HasRoom ranks.now rows.old.items fact.now }
    ensures tabled { (fs : List Told) → IsTabled ranks.now rows.old.items fs → IsTabled ranks.now rows.new.items (fs ++ fact.now ∷ []) }
    ensures rooms { (f : Told) → HasRoom ranks.now rows.old.items f → HasRoom ranks.now rows.new.items f }
{
    if !is_plain(fact) {
        return;
    }
    let row = place(fact.node.0, fact.side);
    if let Some(rank) = ranks.rank_of(place(fact.rule.node, fact.rule.dir)) {
        rows[row].note(rank as usize, fact.found);
    }
}
