// The check of an answer.
ghost use Rattle.std.specs.Prelude.{◌≡◌, ◌≤◌, None, IfOk, IfErr};
ghost use Rattle.kb_io.specs.Bytes.{TakesAtMost};
ghost use Rattle.mkbtt_top.specs.Checking.{reject_word as word_of_reject, checked_text as text_of_checked, status_of as status_by, Checks};
ghost use Rattle.mkbtt_top.specs.Runs.{StopsBy};

use crate::answering::answer_from;
use crate::reply::{Reply, Stop};
use crate::status::Status;
use crate::task::Task;
use kb_checker::{Checked, Reject, check};
use kb_io::Source;
use kb_syntax::Fields;
use kb_term::Memory;
use std::alloc::Global;

fn reject_word(reason: Reject) -> &'static [u8]
    ensures { result.now ≡ word_of_reject reason }
{
    match reason {
        Reject::BadStep => b"badstep",
        Reject::Untraced => b"untraced",
        Reject::UntracedConstraint => b"untracedconstraint",
        Reject::ConstraintNotOriented => b"constraintnotoriented",
        Reject::NotOriented => b"notoriented",
        Reject::PairLarge => b"pairlarge",
        Reject::PairSteps => b"pairsteps",
        Reject::NotJoined => b"notjoined",
        Reject::EquationLarge => b"equationlarge",
        Reject::EquationSteps => b"equationsteps",
        Reject::NotProved => b"notproved",
    }
}

/// The one line that says what the checker found.
pub(crate) fn checked_text(alloc: Global, checked: Checked) -> Result<Vec<u8>, Memory>
    ensures { IfOk result (λ text. text.items ≡ text_of_checked checked) }
{
    let mut line = Fields::new(alloc);
    match checked {
        Checked::Accepted => line.word(alloc, b"ACCEPTED")?,
        Checked::Rejected(reason, n) => {
            line.word(alloc, b"REJECTED")?;
            line.word(alloc, reject_word(reason))?;
            line.number(alloc, n)?;
        }
    }
    let mut text = Vec::new(alloc);
    line.line_to(&mut text)?;
    Ok(text)
}

fn status_of(checked: Checked) -> Status
    ensures { result ≡ status_by checked }
{
    match checked {
        Checked::Accepted => Status::Done,
        Checked::Rejected(reason, n) => Status::Rejected(reason, n),
    }
}

/// The reply that the checker rejects an answer.
///
/// # Errors
///
/// Want of memory.
pub(crate) fn rejection(alloc: Global, reason: Reject, n: u64) -> Result<Reply, Memory>
    ensures status { IfOk result (λ r. r.status ≡ Status.Rejected reason n) }
    ensures text { IfOk result (λ r. r.text.items ≡ text_of_checked (Checked.Rejected reason n)) }
    ensures board { IfOk result (λ r. r.board ≡ None) }
{
    Ok(Reply {
        text: checked_text(alloc, Checked::Rejected(reason, n))?,
        status: Status::Rejected(reason, n),
        board: None,
    })
}

/// Reads an answer from the source and checks it; the reply is what the checker says.
pub(crate) fn check_source<S: Source>(alloc: Global, source: &mut S) -> Result<Reply, Stop>
    ensures reply { IfOk result (λ r. Checks r.status r.board (S.left source.old) (S.left source.new) r.text.items) }
    ensures stop { IfErr result (StopsBy Task.Check (S.left source.old) (S.left source.new) (S.quiet source.old) (S.faults source.old) (S.faults source.new)) }
    ensures few { TakesAtMost (S.left source.old) 67108865 (S.left source.new) }
    ensures count { S.faults source.old ≤ S.faults source.new }
{
    let answer = answer_from(alloc, source)?;
    let checked = check(alloc, &answer)?;
    Ok(Reply {
        text: checked_text(alloc, checked)?,
        status: status_of(checked),
        board: None,
    })
}
