// The problem that the notes of a whole text stand for.
ghost use Rattle.std.specs.Prelude.{◌≡◌, ◌<◌, ◌≤◌, ◌++◌, All, IfOk, OnOk, length, map, nat_le, true, unwrap_or};
ghost use Rattle.std.specs.List.{list_all};
ghost use Rattle.kb_term.specs.Signature.{IsSignature, symbols_of_list};
ghost use Rattle.kb_term.specs.View.{equations_of_list, tree_of};
ghost use Rattle.kb_text.specs.Names.{firsts};
ghost use Rattle.kb_text.specs.Problems.{arity_in, entry_of, equation_of as problem_equation, equation_variables, term_of, variables_among};
ghost use Rattle.kb_syntax.specs.Reader.{problem_from, IsProblemNoted};
ghost use Rattle.kb_syntax.specs.Written.{equation_of};

use crate::notes::Notes;
use crate::variables::Variables;
use crate::written::WrittenEquation;
use kb_term::{Memory, Problem, Signature, Term};
use kb_text::{Names, Uses};
use std::alloc::Global;

// The symbols with the arities of their first uses.
fn entries(alloc: Global, names: &[Vec<u8>], uses: &Uses) -> Result<Vec<(Vec<u8>, u8)>, Memory>
    requires { All (λ x. unwrap_or (arity_in uses.now x) 0 ≤ 8) (map (λ n. n.items) names.now) }
    ensures { IfOk result (λ v. symbols_of_list v.items ≡ map (entry_of uses.now) (map (λ n. n.items) names.now)) }
{
    let mut symbols = Vec::new(alloc);
    for name in names {
        let arity = uses.arity_of(name) as u8;
        symbols.push((Vec::from_slice(alloc, name)?, arity))?;
    }
    Ok(symbols)
}

fn equation(
    alloc: Global,
    variables: &mut Variables,
    symbols: &Names,
    e: &WrittenEquation<'_>,
) -> Result<(Term, Term), Memory>
    requires symbols { length symbols.now ≤ 24 }
    requires variables { length (equation_variables variables.old.declared (equation_of e.now)) ≤ 64 }
    ensures equation { IfOk result (λ sides. (tree_of sides.0, tree_of sides.1) ≡ problem_equation variables.old.declared symbols.now (equation_of e.now)) }
    ensures declared { OnOk result (variables.new.declared ≡ variables.old.declared) }
{
    variables.begin();
    e.left.find_variables(variables)?;
    e.right.find_variables(variables)?;
    let left = e.left.term(alloc, variables, symbols)?;
    let right = e.right.term(alloc, variables, symbols)?;
    Ok((left, right))
}

fn equations(
    alloc: Global,
    variables: &mut Variables,
    symbols: &Names,
    written: &[WrittenEquation<'_>],
) -> Result<Vec<(Term, Term)>, Memory>
    requires symbols { length symbols.now ≤ 24 }
    requires variables { list_all (λ e. nat_le (length (equation_variables variables.old.declared e)) 64) (map equation_of written.now) ≡ true }
    ensures { IfOk result (λ v. equations_of_list v.items ≡ map (problem_equation variables.old.declared symbols.now) (map equation_of written.now)) }
{
    let mut all = Vec::new(alloc);
    for e in written {
        all.push(equation(alloc, variables, symbols, e)?)?;
    }
    Ok(all)
}

impl<'a> Notes<'a> {
    /// The problem that was noted.
    pub(crate) fn problem(&mut self, alloc: Global) -> Result<Problem, Memory>
        requires { IsProblemNoted self.old }
        ensures { IfOk result (λ p. p ≡ problem_from self.old) }
    {
        let entries = entries(alloc, self.symbols.items(), &self.arities)?;
        let signature = Signature::new(entries);
        let equations = equations(alloc, &mut self.variables, &self.symbols, &self.equations)?;
        Ok(Problem::new(signature, equations))
    }
}
