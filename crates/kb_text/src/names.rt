// Lists of names.
ghost use Rattle.std.specs.Prelude.{◌≡◌, ◌<◌, ◌≤◌, [], ◌∷◌, ◌++◌, OnOk, OnErr, IfOk, length, List, map};
ghost use Rattle.kb_text.specs.Names.{Name, is_among, number_of as number_in, firsts, with_name};
ghost use Rattle.kb_text.specs.Problems.{variables_among, symbols_among};

use kb_term::Memory;
use std::alloc::Global;
use std::marker::Model;

fn is_one_of(names: &[Vec<u8>], name: &[u8]) -> bool
    ensures { result ≡ is_among (map (λ n. n.items) names.now) name.now }
{
    for other in names {
        if name == other.as_slice() {
            return true;
        }
    }
    false
}

fn place_of(names: &[Vec<u8>], name: &[u8]) -> usize
    ensures { result ≡ number_in (map (λ n. n.items) names.now) name.now }
{
    for i in 0..names.len() {
        if name == names[i].as_slice() {
            return i;
        }
    }
    names.len()
}

// Adds the name to the variables or to the symbols that were found.
fn sort_in(
    alloc: Global,
    name: &[u8],
    variables: &Names,
    found: &mut Names,
    symbols: &mut Names,
) -> Result<(), Memory>
    ensures found { OnOk result ((names : List Name) → found.old ≡ firsts (variables_among variables.now names) → found.new ≡ firsts (variables_among variables.now (names ++ name.now ∷ []))) }
    ensures symbols { OnOk result ((names : List Name) → symbols.old ≡ firsts (symbols_among variables.now names) → symbols.new ≡ firsts (symbols_among variables.now (names ++ name.now ∷ []))) }
    ensures err { OnErr result ((found.new ≡ found.old) × (symbols.new ≡ symbols.old)) }
{
    if variables.contains(name) {
        found.add(alloc, name)
    } else {
        symbols.add(alloc, name)
    }
}

/// A list of names.
#[derive(Drop)]
pub struct Names {
    items: Vec<Vec<u8>>,
}

impl Model for Names {
    ghost use Rattle.std.specs.Prelude.{List, ℕ, map};

    ghost Value = { List (List ℕ) };

    ghost view = { λ a. map (λ n. n.items) a.items.items };
}

impl Names {
    /// No names.
    pub fn new(alloc: Global) -> Names
        ensures { result ≡ [] }
    {
        Names {
            items: Vec::new(alloc),
        }
    }

    /// How many names there are.
    pub fn len(&self) -> usize
        ensures { result ≡ length self.now }
    {
        self.items.len()
    }

    /// The names.
    pub fn items(&self) -> &[Vec<u8>]
        ensures { map (λ n. n.items) result.now ≡ self.now }
    {
        &self.items
    }

    /// Adds the name at the end. After want of memory the names are as before.
    pub fn push(&mut self, name: Vec<u8>) -> Result<(), Memory>
        ensures ok { OnOk result (self.new ≡ self.old ++ name.items ∷ []) }
        ensures err { OnErr result (self.new ≡ self.old) }
    {
        self.items.push(name)?;
        Ok(())
    }

    /// Whether the name is one of these.
    pub fn contains(&self, name: &[u8]) -> bool
        ensures { result ≡ is_among self.now name.now }
    {
        is_one_of(&self.items, name)
    }

    /// Where the name first stands, from 0; how many names there are where it isn't among them.
    pub fn number_of(&self, name: &[u8]) -> usize
        ensures { result ≡ number_in self.now name.now }
    {
        place_of(&self.items, name)
    }

    /// Adds a copy of the name at the end, where it isn't there yet. After want of memory the names are as before.
    pub fn add(&mut self, alloc: Global, name: &[u8]) -> Result<(), Memory>
        ensures exact { OnOk result (self.new ≡ with_name self.old name.now) }
        ensures firsts { OnOk result ((names : List Name) → self.old ≡ firsts names → self.new ≡ firsts (names ++ name.now ∷ [])) }
        ensures err { OnErr result (self.new ≡ self.old) }
    {
        if !self.contains(name) {
            self.push(Vec::from_slice(alloc, name)?)?;
        }
        Ok(())
    }

    /// The variables and the symbols among these names, each once, in the order of first occurrence.
    pub fn split(&self, alloc: Global, variables: &Names) -> Result<(Names, Names), Memory>
        ensures variables { IfOk result (λ e. e.0 ≡ firsts (variables_among variables.now self.now)) }
        ensures symbols { IfOk result (λ e. e.1 ≡ firsts (symbols_among variables.now self.now)) }
    {
        let mut found = Names::new(alloc);
        let mut symbols = Names::new(alloc);
        for name in &self.items {
            sort_in(alloc, name, variables, &mut found, &mut symbols)?;
        }
        Ok((found, symbols))
    }
}
