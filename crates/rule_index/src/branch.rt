// Branches of the tree.
ghost use Rattle.std.specs.Prelude.{ℕ, ◌≡◌, List, IfOk, OnOk, OnErr, IsTrue, ◌↔◌};
ghost use Rattle.rule_index.specs.Branches.{HasEntry, IsChain, IsAdded, IsRemoved, IsKeyThere, IsSame};

use crate::mark::Mark;
use kb_term::Memory;
use std::alloc::Global;
use std::mem;

/// What is stored behind a common front: each branch has one thing at its place, and the next branch has the other things
/// at the same place.
#[derive(Drop)]
pub(crate) enum Branch {
    /// Nothing.
    End,
    /// A left side ends here: its key, and the next branch.
    Key(u32, Box<Branch>),
    /// The left sides that go on with the mark, and the next branch.
    Node(Mark, Box<Branch>, Box<Branch>),
}

/// The branch that has the marks with the key alone.
fn chain(alloc: Global, marks: &[Mark], key: u32) -> Result<Branch, Memory>
    ensures { IfOk result (IsChain marks.now key) }
{
    let rest = Box::new(alloc, Branch::End)?;
    match marks.split_first() {
        None => Ok(Branch::Key(key, rest)),
        Some((mark, others)) => {
            let inner = Box::new(alloc, chain(alloc, others, key)?)?;
            Ok(Branch::Node(*mark, inner, rest))
        }
    }
}

/// Adds the marks with the key.
pub(crate) fn insert(
    alloc: Global,
    branch: &mut Branch,
    marks: &[Mark],
    key: u32,
) -> Result<(), Memory>
    ensures ok { OnOk result (IsAdded marks.now key branch.old branch.new) }
    ensures err { OnErr result (branch.new ≡ branch.old) }
{
    match branch {
        Branch::End => {
            *branch = chain(alloc, marks, key)?;
            Ok(())
        }
        Branch::Key(_, rest) => insert(alloc, rest, marks, key),
        Branch::Node(mark, inner, rest) => {
            if let Some((first, others)) = marks.split_first() {
                if *first == *mark {
                    return insert(alloc, inner, others, key);
                }
            }
            insert(alloc, rest, marks, key)
        }
    }
}

/// Takes out all marks that are there with the key: whether there were any.
pub(crate) fn remove_key(branch: &mut Branch, key: u32) -> bool
    ensures found { IsTrue result ↔ IsKeyThere branch.old key }
    ensures removed { IsRemoved key branch.old branch.new }
{
    match branch {
        Branch::End => false,
        Branch::Key(stored, rest) => {
            let found = remove_key(rest, key);
            if *stored != key {
                return found;
            }
            let kept = mem::replace(&mut **rest, Branch::End);
            *branch = kept;
            true
        }
        Branch::Node(_, inner, rest) => {
            let within = remove_key(inner, key);
            let beside = remove_key(rest, key);
            prune(branch);
            within || beside
        }
    }
}

/// Takes a mark out behind which nothing is left.
fn prune(branch: &mut Branch)
    ensures { IsSame branch.old branch.new }
{
    if let Branch::Node(_, inner, rest) = branch {
        if let Branch::End = **inner {
            let kept = mem::replace(&mut **rest, Branch::End);
            *branch = kept;
        }
    }
}
