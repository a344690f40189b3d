// Banks of terms.
ghost use Rattle.std.specs.Prelude.{◌≡◌, ◌+◌, ◌<◌, ◌≤◌, ◌^◌, ◌↔◌, [], ◌∷◌, ◌++◌, length, take, drop, IsTrue, IfOk, OnOk, OnErr};
ghost use Rattle.kb_term.specs.Tree.{tree_size, tree_depth};
ghost use Rattle.term_bank.specs.Hashing.{tree_hash};
ghost use Rattle.term_bank.specs.Terms.{term_at, terms_at, shown, shown_arguments, AreBelow, AreDistinct, HaveSubterms, LacksTerm};
ghost use Rattle.term_bank.specs.Cells.{term_with};

use crate::cell::{Cell, Entry, Head, TermId};
use crate::chains::Chains;
use crate::hashing::{hash_of_symbol, hash_of_variable, mixed};
use kb_term::Memory;
use std::alloc::Global;
use std::marker::Model;

/// The most cells that a bank may have.
pub const MAX_CELLS: usize = 4_194_304;

/// Terms by number: each term that came in has a cell, and so has each of its subterms, and equal terms have one cell.
///
/// This is hash-consing, as A. P. Ershov describes it in 'On programming of arithmetic operations' (1958). Contracts see a
/// bank as the list of its cells' terms.
#[derive(Drop)]
pub struct Bank {
    pub(crate) alloc: Global,
    pub(crate) chains: Chains,
    pub(crate) cells: Vec<Entry>,
    pub(crate) arguments: Vec<TermId>,
}

impl Model for Bank {
    ghost use Rattle.std.specs.Prelude.{List};
    ghost use Rattle.std.specs.Coded.{coded_list};
    ghost use Rattle.kb_term.specs.Tree.{Tree};
    ghost use Rattle.kb_term.specs.Coding.{coded_tree};

    ghost Value = { List Tree };

    ghost coded = { coded_list coded_tree };

    ghost use Rattle.term_bank.specs.Cells.{terms_in, IsBank};

    ghost view = { λ b. terms_in b.cells.items b.arguments.items };

    ghost invariant = { λ b. IsBank b.chains b.cells.items b.arguments.items };
}

impl Bank {
    /// The bank without a cell. It takes no memory.
    pub fn new(alloc: Global) -> Bank
        ensures { result ≡ [] }
    {
        Bank {
            alloc,
            chains: Chains::new(alloc),
            cells: Vec::new(alloc),
            arguments: Vec::new(alloc),
        }
    }

    /// How many cells there are, at most 4,194,304. It takes no memory.
    pub fn used(&self) -> u32
        ensures count { result ≡ length self.now }
        ensures most { result ≤ MAX_CELLS }
        ensures distinct { AreDistinct self.now }
        ensures subterms { HaveSubterms self.now }
    {
        self.cells.len() as u32
    }

    /// What a cell shows of its term. It takes no memory.
    pub fn cell(&self, id: TermId) -> Cell<'_>
        requires { id.0 < length self.now }
        ensures term { shown self.now result ≡ term_at self.now id.0 }
        ensures below { AreBelow id.0 (shown_arguments result) }
    {
        let entry = self.cells[id.0 as usize];
        match entry.head {
            Head::Var(n) => Cell::Var(n),
            Head::App(f) => Cell::App(f, row(self.arguments.as_slice(), entry.start, entry.count)),
        }
    }

    /// The size of a cell's term: how many symbols and variables occur in it. It takes no memory, and one look.
    pub fn size(&self, id: TermId) -> u32
        requires { id.0 < length self.now }
        ensures { result ≡ tree_size (term_at self.now id.0) }
    {
        self.cells[id.0 as usize].size
    }

    /// The depth of a cell's term: 1 for a variable or a constant. It takes no memory, and one look.
    pub fn depth(&self, id: TermId) -> u32
        requires { id.0 < length self.now }
        ensures { result ≡ tree_depth (term_at self.now id.0) }
    {
        self.cells[id.0 as usize].depth
    }

    /// Whether two cells have one term. It takes no memory, and one look.
    pub fn same(&self, a: TermId, b: TermId) -> bool
        requires first { a.0 < length self.now }
        requires second { b.0 < length self.now }
        ensures { IsTrue result ↔ (term_at self.now a.0 ≡ term_at self.now b.0) }
    {
        let _ = &self.cells;
        a == b
    }

    /// Keeps the first cells alone, and their numbers. It takes no memory, and time for the cells that go.
    pub fn cut(&mut self, used: u32)
        requires { used ≤ length self.old }
        ensures { self.new ≡ take used self.old }
    {
        if used as usize >= self.cells.len() {
            return;
        }
        let start = self.cells[used as usize].start;
        self.chains.truncate(used);
        self.cells.truncate(used as usize);
        self.arguments.truncate(start);
    }

    // The hash of a term, of which the arguments have cells.
    pub(crate) fn hash_with(&self, head: Head, ids: &[TermId]) -> u32
        requires { AreBelow (length self.now) ids.now }
        ensures { result ≡ tree_hash (term_with head (terms_at self.now ids.now)) }
    {
        match head {
            Head::Var(n) => hash_of_variable(n),
            Head::App(f) => {
                let mut hash = hash_of_symbol(f);
                for id in ids {
                    hash = mixed(hash, self.chains.hash(id.0));
                }
                hash
            }
        }
    }

    // The size and the depth of a term, of which the arguments have cells.
    fn measured(&self, head: Head, ids: &[TermId]) -> (u32, u32)
        requires below { AreBelow (length self.now) ids.now }
        requires fits { tree_size (term_with head (terms_at self.now ids.now)) < 2 ^ 32 }
        ensures size { result.0 ≡ tree_size (term_with head (terms_at self.now ids.now)) }
        ensures depth { result.1 ≡ tree_depth (term_with head (terms_at self.now ids.now)) }
    {
        match head {
            Head::Var(_) => (1, 1),
            Head::App(_) => {
                let mut size = 1;
                let mut deepest = 0;
                for id in ids {
                    let entry = self.cells[id.0 as usize];
                    size += entry.size;
                    deepest = entry.depth.max(deepest);
                }
                (size, deepest + 1)
            }
        }
    }

    // One cell more, for a term that none has and of which the arguments have cells.
    pub(crate) fn push(&mut self, hash: u32, head: Head, ids: &[TermId]) -> Result<TermId, Memory>
        requires below { AreBelow (length self.old) ids.now }
        requires room { length self.old < MAX_CELLS }
        requires fits { tree_size (term_with head (terms_at self.old ids.now)) < 2 ^ 32 }
        requires few { length ids.now < 2 ^ 32 }
        requires hash { hash ≡ tree_hash (term_with head (terms_at self.old ids.now)) }
        requires lacks { LacksTerm self.old (term_with head (terms_at self.old ids.now)) }
        ensures ok { OnOk result (self.new ≡ self.old ++ term_with head (terms_at self.old ids.now) ∷ []) }
        ensures id { IfOk result (λ id. id.0 ≡ length self.old) }
        ensures err { OnErr result (self.new ≡ self.old) }
    {
        let (size, depth) = self.measured(head, ids);
        let entry = Entry {
            head,
            start: self.arguments.len(),
            count: ids.len() as u32,
            size,
            depth,
        };
        let id = TermId(self.cells.len() as u32);
        self.cells.reserve(1)?;
        self.arguments.reserve(ids.len())?;
        self.chains.push(hash)?;
        self.arguments.extend_from_slice(ids).unwrap();
        self.cells.push(entry).unwrap();
        Ok(id)
    }
}

// The arguments of a cell.
fn row(arguments: &[TermId], start: usize, count: u32) -> &[TermId]
    requires { start + count ≤ length arguments.now }
    ensures { result.now ≡ take count (drop start arguments.now) }
{
    &arguments[start..start + count as usize]
}
