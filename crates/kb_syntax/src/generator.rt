// The problems that are generated.
ghost use Rattle.std.specs.Prelude.{◌≡◌, ◌+◌, ◌*◌, ◌<◌, ◌≤◌, ◌++◌, ◌∷◌, [], ℕ, List, All, AllPairs, OnOk, IfOk, length, map, vec_len};
ghost use Rattle.std.specs.Prelude.{◌==◌};
ghost use Rattle.std.specs.List.{list_any};
ghost use Rattle.kb_term.specs.Pair.{distinct, place_in};
ghost use Rattle.kb_term.specs.Signature.{symbols_of_list};
ghost use Rattle.kb_term.specs.View.{tree_of};
ghost use Rattle.kb_syntax.specs.Generator.{generated, letters_of, letter_entry, AreLetters, on};

use kb_term::{Memory, Problem, Signature, Symbol, Term, Terms};
use std::alloc::Global;

fn has(letters: &[usize], letter: usize) -> bool
    ensures { result ≡ list_any (λ y. y == letter) letters.now }
{
    letters.iter().any(|other| *other == letter)
}

// Adds a letter at the end, where it isn't there yet.
fn add(letters: &mut Vec<usize>, letter: usize) -> Result<(), Memory>
    requires { letter < 8 }
    ensures first { OnOk result ((xs : List ℕ) → letters.old.items ≡ distinct xs → letters.new.items ≡ distinct (xs ++ letter ∷ [])) }
    ensures kept { OnOk result (AreLetters letters.old.items → AreLetters letters.new.items) }
    ensures few { OnOk result (vec_len letters.new ≤ vec_len letters.old + 1) }
{
    if !has(letters, letter) {
        letters.push(letter)?;
    }
    Ok(())
}

// The numbers behind the letter f that occur in the first n equations, by first occurrence.
fn letters(alloc: Global, n: usize) -> Result<Vec<usize>, Memory>
    requires { n ≤ 64 }
    ensures letters { IfOk result (λ v. v.items ≡ letters_of n) }
    ensures kept { IfOk result (λ v. AreLetters v.items) }
    ensures few { IfOk result (λ v. vec_len v ≤ 192) }
{
    let mut letters = Vec::new(alloc);
    for i in 0..n {
        let (outer, inner) = (i % 8, i / 8);
        add(&mut letters, outer)?;
        add(&mut letters, inner)?;
        add(&mut letters, (outer + 2 * inner + 1) % 8)?;
    }
    Ok(letters)
}

fn name(alloc: Global, letter: usize) -> Result<Vec<u8>, Memory>
    ensures { IfOk result (λ v. record { name = v.items; arity = 1 } ≡ letter_entry letter) }
{
    let text = format!(in alloc; "f{letter}")?;
    Ok(Vec::from_slice(alloc, text.as_bytes())?)
}

fn entries(alloc: Global, letters: &[usize]) -> Result<Vec<(Vec<u8>, u8)>, Memory>
    ensures { IfOk result (λ v. symbols_of_list v.items ≡ map letter_entry letters.now) }
{
    let mut symbols = Vec::new(alloc);
    for letter in letters {
        symbols.push((name(alloc, *letter)?, 1))?;
    }
    Ok(symbols)
}

fn place_of_letter(letters: &[usize], letter: usize) -> usize
    ensures place { result ≡ place_in letters.now letter }
    ensures within { result ≤ length letters.now }
{
    for i in 0..letters.len() {
        if letters[i] == letter {
            return i;
        }
    }
    letters.len()
}

// The symbol of the letter applied to the term.
fn applied(alloc: Global, letters: &[usize], letter: usize, t: Term) -> Result<Term, Memory>
    requires { length letters.now ≤ 192 }
    ensures { IfOk result (λ u. tree_of u ≡ on letter letters.now (tree_of t)) }
{
    let mut arguments = Vec::new(alloc);
    arguments.push(t)?;
    let symbol = Symbol(place_of_letter(letters, letter) as u8);
    Ok(Term::App(symbol, Terms::new(arguments)))
}

/// The problem of the generator with so many equations, from 1 to 64.
pub fn generate(alloc: Global, n: u32) -> Result<Problem, Memory>
    requires some { 1 ≤ n }
    requires most { n ≤ 64 }
    ensures { IfOk result (λ p. p ≡ generated n) }
{
    let count = n as usize;
    let letters = letters(alloc, count)?;
    let signature = Signature::new(entries(alloc, &letters)?);
    let mut equations = Vec::new(alloc);
    for i in 0..count {
        let (outer, inner) = (i % 8, i / 8);
        let inside = applied(alloc, &letters, inner, Term::Var(0))?;
        let left = applied(alloc, &letters, outer, inside)?;
        let right = applied(alloc, &letters, (outer + 2 * inner + 1) % 8, Term::Var(0))?;
        equations.push((left, right))?;
    }
    Ok(Problem::new(signature, equations))
}
