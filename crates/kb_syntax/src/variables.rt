// The declared variables, and those of the open equation.
ghost use Rattle.std.specs.Prelude.{◌≡◌, ◌<◌, [], OnOk, MatchOption, Some, false, length, true};
ghost use Rattle.kb_term.specs.Pair.{place_in};
ghost use Rattle.kb_text.specs.Names.{is_among, number_of as number_in, with_name};
ghost use Rattle.kb_syntax.specs.Looks.{is_one_more};
ghost use Rattle.kb_syntax.specs.Variables.{ArePlaced, IsNumber, variable_number};
ghost use Rattle.kb_text.specs.Names.{Name};

use indexmap::IndexSet;
use kb_term::Memory;
use std::alloc::Global;
use std::marker::Model;

/// The names that are declared as variables, in their order, looked up by a hash; and by their numbers the variables
/// of the open equation, by first occurrence. Each declared name has the place at which its number stands among these, if it
/// stands there, so a place is told in constant time (a sparse set, Briggs and Torczon 1993).
#[derive(Drop)]
pub struct Variables {
    names: IndexSet<Vec<u8>>,
    found: Vec<usize>,
    places: Vec<usize>,
}

impl Model for Variables {
    ghost use Rattle.std.specs.Prelude.{map};
    ghost use Rattle.kb_syntax.specs.Variables.{VariableNames, IsKept, names_at};

    ghost Value = { VariableNames };

    ghost view = { λ a. record { declared = map (λ n. n.items) a.names.keys; found = names_at (map (λ n. n.items) a.names.keys) a.found.items } };

    ghost invariant = { λ a. IsKept (map (λ n. n.items) a.names.keys) a.found.items a.places.items };
}

// Where the number stands among those that were found; how many there are where it isn't among them.
fn place_of(found: &[usize], places: &[usize], number: usize) -> usize
    requires placed { ArePlaced found.now places.now }
    requires declared { number < length places.now }
    ensures { result ≡ place_in found.now number }
{
    let at = places[number];
    if at < found.len() && found[at] == number {
        at
    } else {
        found.len()
    }
}

impl Variables {
    /// No variables.
    pub fn new(alloc: Global) -> Variables
        ensures { result ≡ record { declared = []; found = [] } }
    {
        Variables {
            names: IndexSet::new(alloc),
            found: Vec::new(alloc),
            places: Vec::new(alloc),
        }
    }

    /// The number of the name among the declared ones, where it is one of them.
    pub fn number(&self, name: &[u8]) -> Option<usize>
        ensures { result ≡ variable_number self.now.declared name.now }
    {
        self.names.get_index_of(name)
    }

    /// Whether the name is declared.
    pub fn contains(&self, name: &[u8]) -> bool
        ensures { result ≡ is_among self.now.declared name.now }
    {
        self.names.contains(name)
    }

    /// Declares a name, where it isn't yet.
    pub fn add(&mut self, name: Vec<u8>) -> Result<(), Memory>
        ensures { OnOk result (self.new ≡ record self.old { declared = with_name self.old.declared name.items }) }
    {
        self.places.push(0)?;
        self.names.insert(name)?;
        Ok(())
    }

    /// Begins an equation, which has no variables yet.
    pub fn begin(&mut self)
        ensures { self.new ≡ record self.old { found = [] } }
    {
        self.found.clear();
    }

    /// Adds the declared name with this number to those of the equation, where it isn't there yet.
    pub fn note(&mut self, number: usize) -> Result<(), Memory>
        requires { IsNumber self.old.declared number }
        ensures { OnOk result ((x : Name) → variable_number self.old.declared x ≡ Some number → self.new ≡ record self.old { found = with_name self.old.found x }) }
    {
        let count = self.found.len();
        if place_of(&self.found, &self.places, number) == count {
            self.found.push(number)?;
            self.places[number] = count;
        }
        Ok(())
    }

    /// Where the name stands among those of the equation; none where it isn't one of them.
    pub fn place(&self, name: &[u8]) -> Option<usize>
        ensures { MatchOption result (is_among self.now.found name.now ≡ false) (λ n. (is_among self.now.found name.now ≡ true) × (number_in self.now.found name.now ≡ n)) }
    {
        match self.names.get_index_of(name) {
            Some(number) => {
                let at = place_of(&self.found, &self.places, number);
                if at < self.found.len() {
                    Some(at)
                } else {
                    None
                }
            }
            None => None,
        }
    }

    /// How many variables the equation has.
    pub fn count(&self) -> usize
        ensures { result ≡ length self.now.found }
    {
        self.found.len()
    }

    /// Whether the declared name with this number isn't among those of the equation, which are so many.
    pub fn is_one_more(&self, n: usize, number: usize) -> bool
        requires { IsNumber self.now.declared number }
        ensures { (x : Name) → variable_number self.now.declared x ≡ Some number → result ≡ is_one_more self.now.found n x }
    {
        self.count() == n && place_of(&self.found, &self.places, number) == self.found.len()
    }
}
