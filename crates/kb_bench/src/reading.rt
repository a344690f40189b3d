// Texts of problems, of nearly 1,048,576 bytes, to be read.
use crate::runs::with_next;
use crate::shapes::{full_tree, signature};
use kb_syntax::{SyntaxFault, parse_problem, problem_text};
use kb_term::{Memory, Problem};
use std::alloc::Global;

/// 256 equations between two trees of 511 identifiers.
fn rules_text(alloc: Global) -> Result<Vec<u8>, Memory> {
    let mut equations = Vec::new(alloc);
    for _ in 0..256 {
        let left = full_tree(alloc, 8, 0, 1, 0)?;
        let right = full_tree(alloc, 8, 0, 5, 0)?;
        equations.push((left, right))?;
    }
    let problem = Problem::new(signature(alloc, &[2])?, equations);
    problem_text(alloc, &problem)
}

// Six letters that tell the number.
fn push_name(text: &mut Vec<u8>, number: u32) -> Result<(), Memory> {
    let mut rest = number;
    for _ in 0..6 {
        text.push(b'a' + (rest % 16) as u8)?;
        rest /= 16;
    }
    Ok(())
}

/// 149,000 declared variables, and one equation.
fn variables_text(alloc: Global) -> Result<Vec<u8>, Memory> {
    let mut text = Vec::new(alloc);
    text.extend_from_slice(b"(VAR")?;
    for number in 0..149_000 {
        text.push(b' ')?;
        push_name(&mut text, number)?;
    }
    text.extend_from_slice(b")(RULES f(aaaaaa) == aaaaaa)")?;
    Ok(text)
}

// How many equations there are, or where the text is refused.
fn reading_code(alloc: Global, text: &[u8]) -> Result<u64, Memory> {
    match parse_problem(alloc, text) {
        Ok(problem) => Ok((problem.equations().len() as u64).wrapping_add(2_000_000)),
        Err(SyntaxFault::Refused(refusal)) => Ok(refusal.at),
        Err(SyntaxFault::Memory) => Err(Memory),
    }
}

fn repeat_reading(alloc: Global, text: &[u8], repetitions: u32) -> Result<u64, Memory> {
    let mut sum = text.len() as u64;
    for _ in 0..repetitions {
        sum = with_next(sum, reading_code(alloc, text)?);
    }
    Ok(sum)
}

pub(crate) fn rules_case(alloc: Global, repetitions: u32) -> Result<u64, Memory> {
    let text = rules_text(alloc)?;
    repeat_reading(alloc, &text, repetitions)
}

pub(crate) fn variables_case(alloc: Global, repetitions: u32) -> Result<u64, Memory> {
    let text = variables_text(alloc)?;
    repeat_reading(alloc, &text, repetitions)
}
