// Rows of what is known on one side of a node, by ranks of rules.
ghost use Rattle.std.specs.Prelude.{◌≡◌, ◌<◌, ◌≤◌, ℕ, [], length, get_or, None, Some, OnOk, set};
ghost use Rattle.mkb_rules.specs.Tabled.{or_else};

use kb_term::Found;
use std::alloc::{AllocError, Global};
use std::marker::Model;

/// What is known of each rule on one side of a node, by the ranks of the rules; none where nothing is known.
#[derive(Drop)]
pub(crate) struct Row {
    cells: Vec<Option<Found>>,
}

impl Model for Row {
    ghost use Rattle.std.specs.Prelude.{List, Option};
    ghost use Rattle.kb_term.specs.declared.origin.Found.{Found};

    ghost Value = { List (Option Found) };

    ghost view = { λ r. r.cells.items };
}

impl Row {
    /// Nothing is known, and there is no room. It takes no memory.
    pub(crate) fn new(alloc: Global) -> Row
        ensures { result ≡ [] }
    {
        Row {
            cells: Vec::new(alloc),
        }
    }

    /// What is known of each rule, by the ranks of the rules.
    pub(crate) fn as_slice(&self) -> &[Option<Found>]
        ensures { result.now ≡ self.now }
    {
        self.cells.as_slice()
    }

    /// Makes room for so many rules. What is known stays, after want of memory too.
    pub(crate) fn make_room(&mut self, len: usize) -> Result<(), AllocError>
        ensures room { OnOk result (len ≤ length self.new) }
        ensures longer { length self.old ≤ length self.new }
        ensures kept { (i : ℕ) → get_or self.new i None ≡ get_or self.old i None }
    {
        if self.cells.len() < len {
            self.cells.resize(len, None)?;
        }
        Ok(())
    }

    /// Notes what is found of the rule with this rank, unless something is known of it.
    pub(crate) fn note(&mut self, i: usize, found: Found)
        requires { i < length self.old }
        ensures { self.new ≡ set self.old i (or_else (get_or self.old i None) (Some found)) }
    {
        if self.cells[i].is_none() {
            self.cells[i] = Some(found);
        }
    }
}

/// What the cells have at this place; none behind them.
pub(crate) fn cell(cells: &[Option<Found>], i: usize) -> Option<Found>
    ensures { result ≡ get_or cells.now i None }
{
    if i < cells.len() { cells[i] } else { None }
}
