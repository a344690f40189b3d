// What an answer's system says of goals and terms.
ghost use Rattle.std.specs.Prelude.{◌≡◌, ◌≤◌, ◌⊎◌, None, All, IfOk, IfErr, map};
ghost use Rattle.kb_term.specs.Signature.{IsEquationWithinLimits};
ghost use Rattle.kb_term.specs.View.{equations_of_list, tree_of};
ghost use Rattle.kb_goals.specs.Simplifying.{IsNumberedTerm};
ghost use Rattle.kb_io.specs.Bytes.{TakesAtMost};
ghost use Rattle.mkbtt_top.specs.Deciding.{Decides, IsRejection, SaysOfGoals, SaysOfTerms, Simplifies};
ghost use Rattle.mkbtt_top.specs.Runs.{StopsBy};

use crate::answering::{goals_from, terms_from};
use crate::checking::rejection;
use crate::reply::{Reply, Stop};
use crate::task::Task;
use kb_checker::{Answer, Checked, check};
use kb_goals::{decide_goals, decide_text, simplify_terms, simplify_text};
use kb_io::Source;
use kb_term::{Memory, Term};
use std::alloc::Global;

// What the answer's system says of the goals, where the checker accepts it.
fn said_of_goals(alloc: Global, answer: &Answer, goals: &[(Term, Term)]) -> Result<Reply, Memory>
    requires { All (IsEquationWithinLimits answer.now.problem.signature) (equations_of_list goals.now) }
    ensures said { IfOk result (λ r. IsRejection answer.now r.status r.text.items ⊎ SaysOfGoals answer.now (equations_of_list goals.now) r.status r.text.items) }
    ensures board { IfOk result (λ r. r.board ≡ None) }
{
    if let Checked::Rejected(reason, n) = check(alloc, answer)? {
        return rejection(alloc, reason, n);
    }
    let decisions = decide_goals(alloc, answer, goals)?;
    let text = decide_text(alloc, answer.problem().signature(), &decisions)?;
    Ok(Reply::done(text))
}

/// Reads an answer and goals behind it from the source; the reply is what the answer's system says of each goal.
pub(crate) fn decide_source<S: Source>(alloc: Global, source: &mut S) -> Result<Reply, Stop>
    ensures reply { IfOk result (λ r. Decides r.status r.board (S.left source.old) (S.left source.new) r.text.items) }
    ensures stop { IfErr result (StopsBy Task.Decide (S.left source.old) (S.left source.new) (S.quiet source.old) (S.faults source.old) (S.faults source.new)) }
    ensures few { TakesAtMost (S.left source.old) 67108865 (S.left source.new) }
    ensures count { S.faults source.old ≤ S.faults source.new }
{
    let (answer, goals) = goals_from(alloc, source)?;
    Ok(said_of_goals(alloc, &answer, &goals)?)
}

// What the answer's system makes of the terms, where the checker accepts it.
fn said_of_terms(alloc: Global, answer: &Answer, terms: &[Term]) -> Result<Reply, Memory>
    requires { All (IsNumberedTerm answer.now.problem.signature) (map tree_of terms.now) }
    ensures said { IfOk result (λ r. IsRejection answer.now r.status r.text.items ⊎ SaysOfTerms answer.now (map tree_of terms.now) r.status r.text.items) }
    ensures board { IfOk result (λ r. r.board ≡ None) }
{
    if let Checked::Rejected(reason, n) = check(alloc, answer)? {
        return rejection(alloc, reason, n);
    }
    let forms = simplify_terms(alloc, answer, terms)?;
    let text = simplify_text(alloc, answer.problem().signature(), &forms)?;
    Ok(Reply::done(text))
}

/// Reads an answer and terms behind it from the source; the reply is what the answer's system makes of each term.
pub(crate) fn simplify_source<S: Source>(alloc: Global, source: &mut S) -> Result<Reply, Stop>
    ensures reply { IfOk result (λ r. Simplifies r.status r.board (S.left source.old) (S.left source.new) r.text.items) }
    ensures stop { IfErr result (StopsBy Task.Simplify (S.left source.old) (S.left source.new) (S.quiet source.old) (S.faults source.old) (S.faults source.new)) }
    ensures few { TakesAtMost (S.left source.old) 67108865 (S.left source.new) }
    ensures count { S.faults source.old ≤ S.faults source.new }
{
    let (answer, terms) = terms_from(alloc, source)?;
    Ok(said_of_terms(alloc, &answer, &terms)?)
}
