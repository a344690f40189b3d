// Uses of names with a number of arguments.
ghost use Rattle.std.specs.Prelude.{◌≡◌, ◌<◌, ◌≤◌, [], ◌∷◌, ◌++◌, OnOk, OnErr, map, unwrap_or, ℕ};
ghost use Rattle.kb_text.specs.Problems.{arity_in};

use kb_term::Memory;
use std::alloc::Global;
use std::marker::Model;

/// One use of a name, with its number of arguments.
#[derive(Drop)]
pub struct Use {
    pub name: Vec<u8>,
    pub count: usize,
}

/// The uses of names, in the order in which they end.
#[derive(Drop)]
pub struct Uses {
    items: Vec<Use>,
}

impl Model for Uses {
    ghost use Rattle.std.specs.Prelude.{List, ℕ, map};

    ghost Value = { List (List ℕ × ℕ) };

    ghost use Rattle.kb_text.specs.declared.uses.Use.{Use};

    ghost view = { λ a. map (λ (u : Use). (u.name.items, u.count)) a.items.items };
}

impl Uses {
    /// No uses.
    pub fn new(alloc: Global) -> Uses
        ensures { result ≡ [] }
    {
        Uses {
            items: Vec::new(alloc),
        }
    }

    /// Adds the use at the end. After want of memory the uses are as before.
    pub fn push(&mut self, name: Vec<u8>, count: usize) -> Result<(), Memory>
        ensures ok { OnOk result (self.new ≡ self.old ++ (name.items, count) ∷ []) }
        ensures err { OnErr result (self.new ≡ self.old) }
    {
        self.items.push(Use { name, count })?;
        Ok(())
    }

    /// The number of arguments of the first use of the name.
    pub fn first(&self, name: &[u8]) -> Option<usize>
        ensures { result ≡ arity_in self.now name.now }
    {
        first_use(&self.items, name)
    }

    /// The number of arguments of the first use of the name; 0 where there is none.
    pub fn arity_of(&self, name: &[u8]) -> usize
        ensures { result ≡ unwrap_or (arity_in self.now name.now) 0 }
    {
        first_count(&self.items, name)
    }
}

fn first_use(uses: &[Use], name: &[u8]) -> Option<usize>
    ensures { result ≡ arity_in (map (λ u. (u.name.items, u.count)) uses.now) name.now }
{
    for usage in uses {
        if name == usage.name.as_slice() {
            return Some(usage.count);
        }
    }
    None
}

fn first_count(uses: &[Use], name: &[u8]) -> usize
    ensures { result ≡ unwrap_or (arity_in (map (λ u. (u.name.items, u.count)) uses.now) name.now) 0 }
{
    for usage in uses {
        if name == usage.name.as_slice() {
            return usage.count;
        }
    }
    0
}
