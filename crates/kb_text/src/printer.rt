// The text of a problem.
ghost use Rattle.std.specs.Prelude.{◌≡◌, ◌++◌, ◌∷◌, ◌==◌, [], ℕ, List, OnOk, IfOk, codes, flat_map, length, take};
ghost use Rattle.std.specs.List.{list_any, range_with_len};
ghost use Rattle.kb_term.specs.Pair.{distinct};
ghost use Rattle.kb_term.specs.Tree.{variables_of};
ghost use Rattle.kb_term.specs.View.{equations_of_list, tree_of};
ghost use Rattle.kb_text.specs.Terms.{problem_line, most_variables as most_in, names_of, prefix_length, problem_text as text_of, variable_count as count_in, variable_text};

use crate::text::{prefix_of, push_letters, push_term};
use kb_term::{Memory, Problem, Signature, Term, push_number};
use std::alloc::Global;

fn has(seen: &[u16], n: u16) -> bool
    ensures { result ≡ list_any (λ y. y == n) seen.now }
{
    seen.iter().any(|other| *other == n)
}

// Adds the variable at the end, where it isn't there yet.
fn see_variable(seen: &mut Vec<u16>, n: u16) -> Result<(), Memory>
    ensures { OnOk result ((vs : List ℕ) → seen.old.items ≡ distinct vs → seen.new.items ≡ distinct (vs ++ n ∷ [])) }
{
    if !has(seen, n) {
        seen.push(n)?;
    }
    Ok(())
}

// Adds the variables of the term that aren't there yet.
fn see(seen: &mut Vec<u16>, t: &Term) -> Result<(), Memory>
    ensures { OnOk result ((vs : List ℕ) → seen.old.items ≡ distinct vs → seen.new.items ≡ distinct (vs ++ variables_of (tree_of t.now))) }
{
    match t {
        Term::Var(n) => see_variable(seen, *n),
        Term::App(_, arguments) => {
            let arguments = arguments.items();
            for argument in arguments {
                see(seen, argument)?;
            }
            Ok(())
        }
    }
}

fn variable_count(alloc: Global, equation: &(Term, Term)) -> Result<usize, Memory>
    ensures { IfOk result (λ n. n ≡ count_in (tree_of equation.now.0, tree_of equation.now.1)) }
{
    let mut seen = Vec::new(alloc);
    see(&mut seen, &equation.0)?;
    see(&mut seen, &equation.1)?;
    Ok(seen.len())
}

fn most_variables(alloc: Global, equations: &[(Term, Term)]) -> Result<usize, Memory>
    ensures { IfOk result (λ n. n ≡ most_in (equations_of_list equations.now)) }
{
    let mut most = 0;
    for equation in equations {
        most = variable_count(alloc, equation)?.max(most);
    }
    Ok(most)
}

// Adds so many variables, each behind a space; a part may stay after an error.
fn push_variables(
    alloc: Global,
    out: &mut Vec<u8>,
    signature: &Signature,
    prefix: usize,
    count: usize,
) -> Result<(), Memory>
    requires { prefix ≡ prefix_length (names_of signature.now) }
    ensures ok { OnOk result (out.new.items ≡ out.old.items ++ flat_map (λ n. 32 ∷ variable_text (names_of signature.now) n) (range_with_len 0 count)) }
    ensures front { take (length out.old.items) out.new.items ≡ out.old.items }
{
    for n in 0..count {
        out.push(b' ')?;
        push_letters(out, prefix)?;
        push_number(alloc, out, n as u64 + 1)?;
    }
    Ok(())
}

// Adds the line of an equation; a part may stay after an error.
fn push_equation(
    alloc: Global,
    out: &mut Vec<u8>,
    signature: &Signature,
    prefix: usize,
    equation: &(Term, Term),
) -> Result<(), Memory>
    requires { prefix ≡ prefix_length (names_of signature.now) }
    ensures ok { OnOk result (out.new.items ≡ out.old.items ++ problem_line (names_of signature.now) (tree_of equation.now.0, tree_of equation.now.1)) }
    ensures front { take (length out.old.items) out.new.items ≡ out.old.items }
{
    push_term(alloc, out, signature, prefix, &equation.0)?;
    out.extend_from_slice(b" == ")?;
    push_term(alloc, out, signature, prefix, &equation.1)?;
    out.push(b'\n')?;
    Ok(())
}

// Adds the lines of the equations; a part may stay after an error.
fn push_equations(
    alloc: Global,
    out: &mut Vec<u8>,
    signature: &Signature,
    prefix: usize,
    equations: &[(Term, Term)],
) -> Result<(), Memory>
    requires { prefix ≡ prefix_length (names_of signature.now) }
    ensures ok { OnOk result (out.new.items ≡ out.old.items ++ flat_map (problem_line (names_of signature.now)) (equations_of_list equations.now)) }
    ensures front { take (length out.old.items) out.new.items ≡ out.old.items }
{
    for equation in equations {
        push_equation(alloc, out, signature, prefix, equation)?;
    }
    Ok(())
}

/// The text of a problem: a section of as many variables as the equation with the most has, and a section of rules with
/// a line for each equation, whose sides are joined by `==` and written as by `term_text`.
pub fn problem_text(alloc: Global, p: &Problem) -> Result<Vec<u8>, Memory>
    ensures { IfOk result (λ text. text.items ≡ text_of p.now) }
{
    let signature = p.signature();
    let prefix = prefix_of(signature);
    let mut out = Vec::new(alloc);
    out.extend_from_slice(b"(VAR")?;
    let count = most_variables(alloc, p.equations())?;
    push_variables(alloc, &mut out, signature, prefix, count)?;
    out.extend_from_slice(b")\n(RULES\n")?;
    push_equations(alloc, &mut out, signature, prefix, p.equations())?;
    out.extend_from_slice(b")\n")?;
    Ok(out)
}
