// Ordered trees of numbers that stand in runs.
ghost use Rattle.std.specs.Prelude.{ℕ, ◌≡◌, ◌⊎◌, ◌↔◌, ◌+◌, ◌^◌, ◌-◌, ◌<◌, ◌≤◌, false, length, Contains, IsTrue, vec_len, min};
ghost use Rattle.mkb_pick.specs.Runs.{Precedes, Holds, IsFilled, size};
ghost use Rattle.mkb_pick.specs.Trees.{HasKey, IsBehind, IsAhead, IsApart, IsOrdered, count, nodes, IsUnder, count_under};

use crate::pool::Pool;
use crate::run::{LONGEST, Run};
use std::mem;

/// A search tree that is a heap by the priorities: a treap, as R. Seidel and C. R. Aragon describe it in 'Randomized search
/// trees' (1996).
#[cycle(tree)]
#[derive(Drop)]
pub(crate) enum Tree {
    Leaf,
    Fork(Box<Node>),
}

/// A node: what is behind it on the left is less than its numbers, what is on the right is greater.
#[cycle(tree)]
#[derive(Drop)]
pub(crate) struct Node {
    pub(crate) left: Tree,
    pub(crate) run: Run,
    pub(crate) priority: u64,
    pub(crate) right: Tree,
}

/// Whether a number is there.
pub(crate) fn has(tree: &Tree, key: u128) -> bool
    requires { IsOrdered tree.now }
    ensures { IsTrue result ↔ HasKey tree.now key }
{
    match tree {
        Tree::Leaf => false,
        Tree::Fork(top) => {
            if is_below(top, key) {
                return has(&top.left, key);
            }
            if is_above(top, key) {
                return has(&top.right, key);
            }
            top.run.has(key)
        }
    }
}

// Whether the number is less than those of the node.
#[inline]
#[tactic(auto, unfolding(crate::specs::Runs::Precedes))]
fn is_below(node: &Node, key: u128) -> bool
    requires filled { IsFilled node.now.run }
    requires behind { IsBehind node.now.left node.now.run }
    requires ahead { IsAhead node.now.run node.now.right }
    ensures here { IsTrue result → (k : ℕ) → Holds node.now.run k → Precedes key k }
    ensures right { IsTrue result → (k : ℕ) → HasKey node.now.right k → Precedes key k }
    ensures absent_here { IsTrue result → ¬ Holds node.now.run key }
    ensures absent_right { IsTrue result → ¬ HasKey node.now.right key }
    ensures left { result ≡ false → (k : ℕ) → HasKey node.now.left k → Precedes k key }
    ensures absent_left { result ≡ false → ¬ HasKey node.now.left key }
{
    key < node.run.first()
}

// Whether the number is greater than those of the node.
#[inline]
#[tactic(auto, unfolding(crate::specs::Runs::Precedes))]
fn is_above(node: &Node, key: u128) -> bool
    requires filled { IsFilled node.now.run }
    requires behind { IsBehind node.now.left node.now.run }
    requires ahead { IsAhead node.now.run node.now.right }
    ensures here { IsTrue result → (k : ℕ) → Holds node.now.run k → Precedes k key }
    ensures left { IsTrue result → (k : ℕ) → HasKey node.now.left k → Precedes k key }
    ensures absent_here { IsTrue result → ¬ Holds node.now.run key }
    ensures absent_left { IsTrue result → ¬ HasKey node.now.left key }
    ensures right { result ≡ false → (k : ℕ) → HasKey node.now.right k → Precedes key k }
    ensures absent_right { result ≡ false → ¬ HasKey node.now.right key }
{
    node.run.last() < key
}

/// Adds a number, and takes one node out of the pool at most.
pub(crate) fn add(tree: &mut Tree, key: u128, pool: &mut Pool)
    requires ordered { IsOrdered tree.old }
    requires absent { ¬ HasKey tree.old key }
    requires spare { 0 < vec_len pool.old.boxes }
    ensures keys { (k : ℕ) → HasKey tree.new k ↔ ((k ≡ key) ⊎ HasKey tree.old k) }
    ensures ordered { IsOrdered tree.new }
    ensures many { count tree.new ≡ count tree.old + 1 }
    ensures used { vec_len pool.old.boxes ≤ vec_len pool.new.boxes + 1 }
{
    match tree {
        Tree::Leaf => *tree = alone(key, pool),
        Tree::Fork(top) => {
            if goes_left(top, key) {
                add(&mut top.left, key, pool);
                lift_left(tree);
            } else if goes_right(top, key) {
                add(&mut top.right, key, pool);
                lift_right(tree);
            } else {
                add_here(top, key, pool);
                lift_right(tree);
            }
        }
    }
}

// A tree of one number.
fn alone(key: u128, pool: &mut Pool) -> Tree
    requires spare { 0 < vec_len pool.old.boxes }
    ensures keys { (k : ℕ) → HasKey result k ↔ (k ≡ key) }
    ensures ordered { IsOrdered result }
    ensures many { count result ≡ 1 }
    ensures used { vec_len pool.old.boxes ≡ vec_len pool.new.boxes + 1 }
{
    let mut node = pool.take();
    node.left = Tree::Leaf;
    node.right = Tree::Leaf;
    node.run.hold(key);
    Tree::Fork(node)
}

// Whether a number has to be added to the left of a node.
#[inline]
fn goes_left(node: &Node, key: u128) -> bool
    requires filled { IsFilled node.now.run }
    requires behind { IsBehind node.now.left node.now.run }
    requires ahead { IsAhead node.now.run node.now.right }
    ensures here { IsTrue result → (k : ℕ) → Holds node.now.run k → Precedes key k }
    ensures right { IsTrue result → (k : ℕ) → HasKey node.now.right k → Precedes key k }
    ensures left { result ≡ false → (k : ℕ) → HasKey node.now.left k → Precedes k key }
{
    match node.left {
        Tree::Leaf => false,
        Tree::Fork(_) => is_below(node, key),
    }
}

// Whether a number has to be added to the right of a node.
#[inline]
fn goes_right(node: &Node, key: u128) -> bool
    requires filled { IsFilled node.now.run }
    requires behind { IsBehind node.now.left node.now.run }
    requires ahead { IsAhead node.now.run node.now.right }
    ensures here { IsTrue result → (k : ℕ) → Holds node.now.run k → Precedes k key }
    ensures left { IsTrue result → (k : ℕ) → HasKey node.now.left k → Precedes k key }
    ensures right { result ≡ false → (k : ℕ) → HasKey node.now.right k → Precedes key k }
{
    match node.right {
        Tree::Leaf => false,
        Tree::Fork(_) => is_above(node, key),
    }
}

// Adds a number to the run of a node. Where that is full, its upper half goes to the right.
fn add_here(node: &mut Node, key: u128, pool: &mut Pool)
    requires run { IsFilled node.old.run }
    requires absent { ¬ Holds node.old.run key }
    requires ahead { IsAhead node.old.run node.old.right }
    requires below { (k : ℕ) → HasKey node.old.right k → Precedes key k }
    requires ordered { IsOrdered node.old.right }
    requires spare { 0 < vec_len pool.old.boxes }
    ensures keys { (k : ℕ) → (Holds node.new.run k ⊎ HasKey node.new.right k) ↔ ((k ≡ key) ⊎ (Holds node.old.run k ⊎ HasKey node.old.right k)) }
    ensures run { IsFilled node.new.run }
    ensures ahead { IsAhead node.new.run node.new.right }
    ensures ordered { IsOrdered node.new.right }
    ensures left { node.new.left ≡ node.old.left }
    ensures many { count node.new.right + size node.new.run ≡ count node.old.right + size node.old.run + 1 }
    ensures used { vec_len pool.old.boxes ≤ vec_len pool.new.boxes + 1 }
{
    if node.run.len() < LONGEST {
        node.run.insert(key);
        return;
    }
    let mut next = pool.take();
    part(&mut node.run, key, &mut next.run);
    put_first(&mut node.right, next);
}

// Parts the numbers of a full run and one more: the greater ones go to another run.
fn part(run: &mut Run, key: u128, next: &mut Run)
    requires run { IsFilled run.old }
    requires full { size run.old ≡ 32 }
    requires absent { ¬ Holds run.old key }
    ensures keys { (k : ℕ) → (Holds run.new k ⊎ Holds next.new k) ↔ ((k ≡ key) ⊎ Holds run.old k) }
    ensures low { IsFilled run.new }
    ensures high { IsFilled next.new }
    ensures apart { (k m : ℕ) → Holds run.new k → Holds next.new m → Precedes k m }
    ensures many { size run.new + size next.new ≡ size run.old + 1 }
{
    run.give_half(next);
    if is_before(key, next) {
        run.insert(key);
    } else {
        next.insert(key);
    }
}

// Whether the number is less than those of a run.
#[inline]
#[tactic(auto, unfolding(crate::specs::Runs::Precedes))]
fn is_before(key: u128, run: &Run) -> bool
    requires { IsFilled run.now }
    ensures less { IsTrue result → (k : ℕ) → Holds run.now k → Precedes key k }
    ensures other { result ≡ false → (k : ℕ) → ((m : ℕ) → Holds run.now m → Precedes k m) → Precedes k key }
{
    key < run.first()
}

// Puts a node before the others.
fn put_first(tree: &mut Tree, mut node: Box<Node>)
    requires ordered { IsOrdered tree.old }
    requires run { IsFilled node.value.run }
    requires ahead { IsAhead node.value.run tree.old }
    ensures keys { (k : ℕ) → HasKey tree.new k ↔ (Holds node.value.run k ⊎ HasKey tree.old k) }
    ensures ordered { IsOrdered tree.new }
    ensures many { count tree.new ≡ count tree.old + size node.value.run }
{
    match tree {
        Tree::Fork(top) if top.priority >= node.priority => put_first(&mut top.left, node),
        _ => {
            node.left = Tree::Leaf;
            node.right = mem::replace(tree, Tree::Leaf);
            *tree = Tree::Fork(node);
        }
    }
}

// Whether the top of a tree has a higher priority.
#[inline]
fn is_higher(tree: &Tree, priority: u64) -> bool {
    match tree {
        Tree::Leaf => false,
        Tree::Fork(top) => top.priority > priority,
    }
}

// Lifts the node on the left to the top, where its priority is higher.
fn lift_left(tree: &mut Tree)
    ensures keys { (k : ℕ) → HasKey tree.new k ↔ HasKey tree.old k }
    ensures ordered { IsOrdered tree.old → IsOrdered tree.new }
    ensures many { count tree.new ≡ count tree.old }
{
    if let Tree::Fork(top) = tree {
        if is_higher(&top.left, top.priority) {
            *tree = turned_right(mem::replace(tree, Tree::Leaf));
        }
    }
}

// Lifts the node on the right to the top, where its priority is higher.
fn lift_right(tree: &mut Tree)
    ensures keys { (k : ℕ) → HasKey tree.new k ↔ HasKey tree.old k }
    ensures ordered { IsOrdered tree.old → IsOrdered tree.new }
    ensures many { count tree.new ≡ count tree.old }
{
    if let Tree::Fork(top) = tree {
        if is_higher(&top.right, top.priority) {
            *tree = turned_left(mem::replace(tree, Tree::Leaf));
        }
    }
}

// The tree with the node on the left as its top.
fn turned_right(tree: Tree) -> Tree
    ensures keys { (k : ℕ) → HasKey result k ↔ HasKey tree k }
    ensures ordered { IsOrdered tree → IsOrdered result }
    ensures many { count result ≡ count tree }
{
    match tree {
        Tree::Leaf => Tree::Leaf,
        Tree::Fork(mut top) => match mem::replace(&mut top.left, Tree::Leaf) {
            Tree::Leaf => Tree::Fork(top),
            Tree::Fork(mut low) => {
                top.left = mem::replace(&mut low.right, Tree::Leaf);
                low.right = Tree::Fork(top);
                Tree::Fork(low)
            }
        },
    }
}

// The tree with the node on the right as its top.
fn turned_left(tree: Tree) -> Tree
    ensures keys { (k : ℕ) → HasKey result k ↔ HasKey tree k }
    ensures ordered { IsOrdered tree → IsOrdered result }
    ensures many { count result ≡ count tree }
{
    match tree {
        Tree::Leaf => Tree::Leaf,
        Tree::Fork(mut top) => match mem::replace(&mut top.right, Tree::Leaf) {
            Tree::Leaf => Tree::Fork(top),
            Tree::Fork(mut high) => {
                top.right = mem::replace(&mut high.left, Tree::Leaf);
                high.left = Tree::Fork(top);
                Tree::Fork(high)
            }
        },
    }
}

// The numbers of two trees, of which the first comes before the second.
fn join(left: Tree, right: Tree) -> Tree
    requires ordered_left { IsOrdered left }
    requires ordered_right { IsOrdered right }
    requires apart { IsApart left right }
    ensures keys { (k : ℕ) → HasKey result k ↔ (HasKey left k ⊎ HasKey right k) }
    ensures ordered { IsOrdered result }
    ensures many { count result ≡ count left + count right }
{
    match left {
        Tree::Leaf => right,
        Tree::Fork(mut low) => match right {
            Tree::Leaf => Tree::Fork(low),
            Tree::Fork(mut high) => {
                if low.priority >= high.priority {
                    let inner = mem::replace(&mut low.right, Tree::Leaf);
                    low.right = join(inner, Tree::Fork(high));
                    Tree::Fork(low)
                } else {
                    let inner = mem::replace(&mut high.left, Tree::Leaf);
                    high.left = join(Tree::Fork(low), inner);
                    Tree::Fork(high)
                }
            }
        },
    }
}

/// Takes a number out: whether it was there. A node that has none then goes to the pool.
pub(crate) fn remove(tree: &mut Tree, key: u128, pool: &mut Pool) -> bool
    requires { IsOrdered tree.old }
    ensures found { IsTrue result ↔ HasKey tree.old key }
    ensures keys { (k : ℕ) → HasKey tree.new k ↔ (HasKey tree.old k × ¬ (k ≡ key)) }
    ensures ordered { IsOrdered tree.new }
    ensures many { IsTrue result → count tree.new + 1 ≡ count tree.old }
    ensures same { result ≡ false → count tree.new ≡ count tree.old }
    ensures kept { vec_len pool.old.boxes ≤ vec_len pool.new.boxes }
{
    match tree {
        Tree::Leaf => false,
        Tree::Fork(top) => {
            if is_below(top, key) {
                return remove(&mut top.left, key, pool);
            }
            if is_above(top, key) {
                return remove(&mut top.right, key, pool);
            }
            if top.run.is_alone(key) {
                unhook(tree, pool);
                return true;
            }
            top.run.remove(key)
        }
    }
}

// Takes the node at the top out, which goes to the pool.
fn unhook(tree: &mut Tree, pool: &mut Pool)
    requires { IsOrdered tree.old }
    ensures keys { (k : ℕ) → HasKey tree.new k ↔ IsUnder tree.old k }
    ensures ordered { IsOrdered tree.new }
    ensures many { count tree.new ≡ count_under tree.old }
    ensures kept { vec_len pool.old.boxes ≤ vec_len pool.new.boxes }
{
    if let Tree::Fork(top) = tree {
        let left = mem::replace(&mut top.left, Tree::Leaf);
        let right = mem::replace(&mut top.right, Tree::Leaf);
        if let Tree::Fork(node) = mem::replace(tree, join(left, right)) {
            pool.give(node);
        }
    }
}

/// How many numbers there are, or the greatest number where there are more.
pub(crate) fn count(tree: &Tree) -> usize
    ensures { result ≡ min (count tree.now) (2 ^ 64 - 1) }
{
    match tree {
        Tree::Leaf => 0,
        Tree::Fork(top) => count(&top.left)
            .saturating_add(count(&top.right))
            .saturating_add(top.run.len()),
    }
}

/// A tree of the same numbers, in nodes of the pool.
pub(crate) fn copy(tree: &Tree, pool: &mut Pool) -> Tree
    requires { nodes tree.now ≤ vec_len pool.old.boxes }
    ensures keys { (k : ℕ) → HasKey result k ↔ HasKey tree.now k }
    ensures ordered { IsOrdered tree.now → IsOrdered result }
    ensures many { count result ≡ count tree.now }
    ensures used { vec_len pool.new.boxes + nodes tree.now ≡ vec_len pool.old.boxes }
{
    match tree {
        Tree::Leaf => Tree::Leaf,
        Tree::Fork(top) => {
            let mut node = pool.take();
            node.left = copy(&top.left, pool);
            node.right = copy(&top.right, pool);
            node.run.hold_all(&top.run);
            node.priority = top.priority;
            Tree::Fork(node)
        }
    }
}
