// Terms looked up.
ghost use Rattle.std.specs.Prelude.{◌≡◌, ◌<◌, ◌↔◌, length, IsTrue, MatchOption, IfSome, IfOk};
ghost use Rattle.kb_term.specs.View.{tree_of};
ghost use Rattle.term_bank.specs.Hashing.{tree_hash};
ghost use Rattle.term_bank.specs.Terms.{term_at, terms_at, AreBelow, HasTerm, LacksTerm};
ghost use Rattle.term_bank.specs.Cells.{term_with};

use crate::bank::Bank;
use crate::cell::{Cell, Head, TermId};
use crate::hashing::term_hash;
use kb_term::{Memory, Term, Terms};

impl Bank {
    /// The cell that has the term; none where no cell has it. It takes no memory.
    pub fn lookup(&self, t: &Term) -> Option<TermId>
        ensures cell { MatchOption result (LacksTerm self.now (tree_of t.now)) (λ id. HasTerm self.now id.0 (tree_of t.now)) }
        ensures there { IfSome result (λ id. id.0 < length self.now) }
    {
        let hash = term_hash(t);
        let mut at = self.chains.last(hash, None);
        while let Some(place) = at {
            let id = TermId(place);
            if self.has(id, t) {
                return Some(id);
            }
            at = self.chains.last(hash, Some(place));
        }
        None
    }

    /// The term of a cell.
    ///
    /// # Errors
    ///
    /// Want of memory for the term.
    pub fn view(&self, id: TermId) -> Result<Term, Memory>
        requires { id.0 < length self.now }
        ensures { IfOk result (λ t. tree_of t ≡ term_at self.now id.0) }
    {
        match self.cell(id) {
            Cell::Var(n) => Ok(Term::Var(n)),
            Cell::App(f, ids) => {
                let mut items = Vec::with_capacity(self.alloc, ids.len())?;
                for argument in ids {
                    items.push(self.view(*argument)?)?;
                }
                Ok(Term::App(f, Terms::new(items)))
            }
        }
    }

    // Whether a cell has the term.
    fn has(&self, id: TermId, t: &Term) -> bool
        requires { id.0 < length self.now }
        ensures { IsTrue result ↔ (term_at self.now id.0 ≡ tree_of t.now) }
    {
        match (self.cell(id), t) {
            (Cell::Var(m), Term::Var(n)) => m == *n,
            (Cell::App(f, ids), Term::App(g, arguments)) => {
                let items = arguments.items();
                if f != *g || ids.len() != items.len() {
                    return false;
                }
                for i in 0..ids.len() {
                    if !self.has(ids[i], &items[i]) {
                        return false;
                    }
                }
                true
            }
            _ => false,
        }
    }

    // The cell of a term, of which the arguments have cells.
    pub(crate) fn find(&self, hash: u32, head: Head, ids: &[TermId]) -> Option<TermId>
        requires below { AreBelow (length self.now) ids.now }
        requires hash { hash ≡ tree_hash (term_with head (terms_at self.now ids.now)) }
        ensures { MatchOption result (LacksTerm self.now (term_with head (terms_at self.now ids.now))) (λ id. HasTerm self.now id.0 (term_with head (terms_at self.now ids.now))) }
    {
        let mut at = self.chains.last(hash, None);
        while let Some(place) = at {
            if self.is_made(TermId(place), head, ids) {
                return Some(TermId(place));
            }
            at = self.chains.last(hash, Some(place));
        }
        None
    }

    // Whether a cell has the term, of which the arguments have cells.
    fn is_made(&self, id: TermId, head: Head, ids: &[TermId]) -> bool
        requires there { id.0 < length self.now }
        requires below { AreBelow (length self.now) ids.now }
        ensures { IsTrue result ↔ (term_at self.now id.0 ≡ term_with head (terms_at self.now ids.now)) }
    {
        let _ = &self.cells;
        match (self.cell(id), head) {
            (Cell::Var(m), Head::Var(n)) => m == n,
            (Cell::App(f, arguments), Head::App(g)) => f == g && *arguments == *ids,
            _ => false,
        }
    }
}
