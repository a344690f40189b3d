// The index.
ghost use Rattle.std.specs.Prelude.{ℕ, ◌≡◌, ◌∷◌, [], ◌++◌, ◌↔◌, IsTrue, IfOk, OnOk, OnErr, Contains};
ghost use Rattle.std.specs.List.Sorted.{IsStrictlyIncreasing};
ghost use Rattle.kb_term.specs.Tree.{Tree};
ghost use Rattle.kb_term.specs.View.{tree_of};
ghost use Rattle.kb_term.specs.Substitution.{Matches};
ghost use Rattle.rule_index.specs.Agreeing.{HaveCommonInstance};
ghost use Rattle.rule_index.specs.Marks.{marks_of};
ghost use Rattle.rule_index.specs.Pending.{pending};
ghost use Rattle.rule_index.specs.Walk.{hits};

use crate::branch::{Branch, insert, remove_key};
use crate::mark::{Mark, push_marks};
use crate::pending::{Pending, next};
use kb_term::{Memory, Rule, Term};
use std::alloc::Global;

/// Rules by keys, found by the terms that their left sides fit.
///
/// A discrimination tree, as W. McCune describes it in 'Experiments with discrimination-tree indexing and path indexing for
/// term retrieval' (1992): the marks of left sides with a common front share it, and a key stands where its marks end. Any
/// key of 32 bits will do, and a key may stand for several rules. Calls go as deep as the longest left side has marks, and
/// beside that one deeper for each other thing at one place.
#[derive(Drop)]
pub struct RuleIndex {
    alloc: Global,
    root: Branch,
}

impl RuleIndex {
    ghost use Rattle.rule_index.specs.Index.{Holds, IsThere, IsWith, IsWithout, IsCandidate, MayOverlap};

    /// The index without a rule. It takes no memory.
    pub fn new(alloc: Global) -> Self
        ensures { (key : ℕ) → ¬ IsThere result key }
    {
        RuleIndex {
            alloc,
            root: Branch::End,
        }
    }

    /// Adds a rule under a key; a rule that is there under it stays.
    ///
    /// # Errors
    ///
    /// Want of memory; the index is then as it was.
    pub fn add(&mut self, key: u32, rule: &Rule) -> Result<(), Memory>
        ensures ok { OnOk result (IsWith key rule.now.left self.old self.new) }
        ensures err { OnErr result (self.new ≡ self.old) }
    {
        let mut marks = Vec::new(self.alloc);
        push_marks(rule.left(), &mut marks)?;
        insert(self.alloc, &mut self.root, marks.as_slice(), key)
    }

    /// Takes out what is there under the key: whether there was anything. It takes no memory, and goes over the whole index.
    pub fn remove(&mut self, key: u32) -> bool
        ensures found { IsTrue result ↔ IsThere self.old key }
        ensures removed { IsWithout key self.old self.new }
    {
        remove_key(&mut self.root, key)
    }

    /// The keys whose rules' left sides fit the term, each once, in rising order.
    ///
    /// A candidate need not match, but each rule whose left side matches the term is among them. It follows the term through
    /// the tree, so it does not go over the rules.
    ///
    /// # Errors
    ///
    /// Want of memory for the list.
    pub fn candidates(&self, t: &Term) -> Result<Vec<u32>, Memory>
        ensures keys { IfOk result (λ keys. (key : ℕ) → Contains keys.items key ↔ IsCandidate self.now (tree_of t.now) key) }
        ensures matches { IfOk result (λ keys. (key : ℕ) (left : Tree) → Holds self.now key (marks_of left) → Matches left (tree_of t.now) → Contains keys.items key) }
        ensures rising { IfOk result (λ keys. IsStrictlyIncreasing keys.items) }
    {
        self.found(t, false)
    }

    /// The keys whose rules' left sides agree with the term where both have symbols, each once, in rising order: a variable of
    /// either stands for any term.
    ///
    /// Such a left side need not unify with the term, but each that does when it is renamed apart is among them. Like
    /// [`candidates`](RuleIndex::candidates) it follows the term through the tree, and at a variable it goes over all that is
    /// stored there.
    ///
    /// # Errors
    ///
    /// Want of memory for the list.
    pub fn overlapping(&self, t: &Term) -> Result<Vec<u32>, Memory>
        ensures keys { IfOk result (λ keys. (key : ℕ) → Contains keys.items key ↔ MayOverlap self.now (tree_of t.now) key) }
        ensures unifies { IfOk result (λ keys. (key : ℕ) (left : Tree) → Holds self.now key (marks_of left) → HaveCommonInstance left (tree_of t.now) → Contains keys.items key) }
        ensures rising { IfOk result (λ keys. IsStrictlyIncreasing keys.items) }
    {
        self.found(t, true)
    }

    /// The keys whose marks lead through the term, each once, in rising order.
    fn found(&self, t: &Term, loose: bool) -> Result<Vec<u32>, Memory>
        ensures keys { IfOk result (λ keys. (key : ℕ) → Contains keys.items key ↔ Contains (hits loose self.now.root (tree_of t.now ∷ [])) key) }
        ensures rising { IfOk result (λ keys. IsStrictlyIncreasing keys.items) }
    {
        let mut keys = Vec::new(self.alloc);
        gather(
            &self.root,
            &Pending::Terms(std::slice::from_ref(t), &Pending::Nothing),
            loose,
            &mut keys,
        )?;
        keys.sort_unstable();
        keys.dedup();
        Ok(keys)
    }
}

/// Adds the keys of the marks that lead through the terms; where the walk is loose, a variable of the terms stands for any term.
fn gather(branch: &Branch, stack: &Pending, loose: bool, keys: &mut Vec<u32>) -> Result<(), Memory>
    ensures { OnOk result (keys.new.items ≡ keys.old.items ++ hits loose branch.now (pending stack.now)) }
{
    match branch {
        Branch::End => Ok(()),
        Branch::Key(key, rest) => {
            if next(stack).is_none() {
                keys.push(*key)?;
            }
            gather(rest, stack, loose, keys)?;
            Ok(())
        }
        Branch::Node(mark, inner, rest) => {
            if let Some((t, below)) = next(stack) {
                match (mark, t) {
                    (Mark::Any, _) => gather(inner, &below, loose, keys)?,
                    (Mark::Apply(_, count), Term::Var(_)) => {
                        if loose {
                            gather(inner, &Pending::Repeated(t, *count, &below), loose, keys)?;
                        }
                    }
                    (Mark::Apply(f, count), Term::App(g, arguments)) => {
                        let arguments = arguments.items();
                        if *f == g.0 && *count == arguments.len() {
                            gather(inner, &Pending::Terms(arguments, &below), loose, keys)?;
                        }
                    }
                }
            }
            gather(rest, stack, loose, keys)?;
            Ok(())
        }
    }
}
