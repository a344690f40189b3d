// Terms brought in.
ghost use Rattle.std.specs.Prelude.{ℕ, ◌≡◌, ◌+◌, ◌<◌, ◌≤◌, ◌^◌, length, take, IfOk, OnOk, OnErr};
ghost use Rattle.kb_term.specs.Tree.{Tree, tree_size};
ghost use Rattle.kb_term.specs.View.{tree_of};
ghost use Rattle.term_bank.specs.Terms.{terms_at, subterms, with_term, with_missing, AreBelow, HasTerm};
ghost use Rattle.term_bank.specs.Cells.{term_with};
ghost use Rattle.term_bank.specs.declared.bank.TheConstants.{MAX_CELLS};

use crate::bank::Bank;
use crate::cell::{Head, TermId};
use kb_term::{Memory, Term};
use smallvec::SmallVec;

// So many arguments are held without taking memory for them.
const INLINE_ARGUMENTS: usize = 8;

impl Bank {
    /// The cell of the term, which comes in with its subterms where they have no cells: arguments before the term, from
    /// left to right.
    ///
    /// It goes as deep as the term.
    ///
    /// # Errors
    ///
    /// Want of memory; the bank is then as before.
    pub fn intern(&mut self, t: &Term) -> Result<TermId, Memory>
        requires { length self.old + tree_size (tree_of t.now) ≤ MAX_CELLS }
        ensures ok { OnOk result (self.new ≡ with_missing self.old (subterms (tree_of t.now))) }
        ensures id { IfOk result (λ id. HasTerm self.new id.0 (tree_of t.now)) }
        ensures there { IfOk result (λ id. id.0 < length self.new) }
        ensures err { OnErr result (self.new ≡ self.old) }
        ensures kept { (i : ℕ) (u : Tree) → HasTerm self.old i u → HasTerm self.new i u }
        ensures most { length self.new ≤ length self.old + tree_size (tree_of t.now) }
    {
        let used = self.used();
        let added = self.add(t);
        if added.is_err() {
            self.cut(used);
        }
        added
    }

    // The same, but that cells that came in stay after an error.
    fn add(&mut self, t: &Term) -> Result<TermId, Memory>
        requires { length self.old + tree_size (tree_of t.now) ≤ MAX_CELLS }
        ensures ok { OnOk result (self.new ≡ with_missing self.old (subterms (tree_of t.now))) }
        ensures id { IfOk result (λ id. HasTerm self.new id.0 (tree_of t.now)) }
        ensures front { take (length self.old) self.new ≡ self.old }
        ensures more { length self.old ≤ length self.new }
    {
        match t {
            Term::Var(n) => self.place(Head::Var(*n), &[]),
            Term::App(f, arguments) => {
                let mut ids: SmallVec<TermId, INLINE_ARGUMENTS> = SmallVec::new(self.alloc);
                for argument in arguments.items() {
                    ids.push(self.add(argument)?)?;
                }
                self.place(Head::App(*f), ids.as_slice())
            }
        }
    }

    // The cell of a term, of which the arguments have cells; a new one where it has none.
    fn place(&mut self, head: Head, ids: &[TermId]) -> Result<TermId, Memory>
        requires below { AreBelow (length self.old) ids.now }
        requires room { length self.old < MAX_CELLS }
        requires fits { tree_size (term_with head (terms_at self.old ids.now)) < 2 ^ 32 }
        requires few { length ids.now < 2 ^ 32 }
        ensures ok { OnOk result (self.new ≡ with_term self.old (term_with head (terms_at self.old ids.now))) }
        ensures id { IfOk result (λ id. HasTerm self.new id.0 (term_with head (terms_at self.old ids.now))) }
        ensures err { OnErr result (self.new ≡ self.old) }
    {
        let hash = self.hash_with(head, ids);
        if let Some(id) = self.find(hash, head, ids) {
            return Ok(id);
        }
        self.push(hash, head, ids)
    }
}
