// The different variables of two terms, in a place of its own size.
ghost use Rattle.std.specs.Prelude.{◌≡◌, ◌<◌, ◌≤◌, List, ℕ, ◌++◌, ◌∷◌, [], length, take};
ghost use Rattle.kb_term.specs.Pair.{place_in, distinct, variables_of_pair};
ghost use Rattle.kb_term.specs.Tree.{variables_of};
ghost use Rattle.kb_term.specs.View.{tree_of};

use crate::term::Term;
use std::marker::Model;

/// The first 65 different variables, in the order of their first occurrence: one more than a pair may have.
#[derive(Drop)]
pub(crate) struct Names {
    items: [u16; 65],
    count: usize,
}

impl Model for Names {
    ghost use Rattle.std.specs.Prelude.{List, ℕ, ◌≤◌, take};

    ghost Value = { List ℕ };

    ghost view = { λ a. take a.count a.items };

    ghost invariant = { λ a. a.count ≤ 65 };
}

impl Names {
    /// The names of the variables of both terms, the first term first.
    pub(crate) fn of(a: &Term, b: &Term) -> Names
        ensures { result ≡ take 65 (variables_of_pair (tree_of a.now) (tree_of b.now)) }
    {
        let mut names = Names {
            items: [0; 65],
            count: 0,
        };
        see(a, &mut names);
        see(b, &mut names);
        names
    }

    /// The names of the variables of the term.
    pub(crate) fn of_term(t: &Term) -> Names
        ensures { result ≡ take 65 (distinct (variables_of (tree_of t.now))) }
    {
        let mut names = Names {
            items: [0; 65],
            count: 0,
        };
        see(t, &mut names);
        names
    }

    /// How many names there are.
    pub(crate) fn len(&self) -> usize
        ensures count { result ≡ length self.now }
        ensures room { length self.now ≤ 65 }
    {
        self.count
    }

    /// The place of the name, from 0; their number where it isn't among them.
    pub(crate) fn place(&self, n: u16) -> usize
        ensures place { result ≡ place_in self.now n }
        ensures bound { result ≤ length self.now }
        ensures room { length self.now ≤ 65 }
    {
        place_of(&self.items[..self.count], n)
    }

    fn push(&mut self, n: u16)
        requires { length self.old < 65 }
        ensures { self.new ≡ self.old ++ n ∷ [] }
    {
        self.items[self.count] = n;
        self.count += 1;
    }

    fn see_name(&mut self, n: u16)
        ensures { (vs : List ℕ) → self.old ≡ take 65 (distinct vs) → self.new ≡ take 65 (distinct (vs ++ n ∷ [])) }
    {
        let count = self.len();
        if count < 65 && self.place(n) == count {
            self.push(n);
        }
    }
}

fn place_of(names: &[u16], n: u16) -> usize
    ensures place { result ≡ place_in names.now n }
    ensures bound { result ≤ length names.now }
{
    for i in 0..names.len() {
        if names[i] == n {
            return i;
        }
    }
    names.len()
}

/// Adds the variables of the term that aren't among those seen, as far as there is room.
fn see(t: &Term, seen: &mut Names)
    ensures { (vs : List ℕ) → seen.old ≡ take 65 (distinct vs) → seen.new ≡ take 65 (distinct (vs ++ variables_of (tree_of t.now))) }
{
    match t {
        Term::Var(n) => seen.see_name(*n),
        Term::App(_, arguments) => {
            for argument in &arguments.items {
                see(argument, seen);
            }
        }
    }
}
