// Labels made of others.
ghost use Rattle.std.specs.Prelude.{◌≡◌, ◌∷◌, [], IfOk, IsTrue};
ghost use Rattle.kb_label.specs.Names.{has, join, meet};

use kb_label::{Labels, ListLabels, NameLog, Process};
use std::alloc::{AllocError, Global};

/// The same label again.
pub(crate) fn copy_of(
    alloc: Global,
    log: &NameLog,
    label: &ListLabels,
) -> Result<ListLabels, AllocError>
    ensures { IfOk result (λ l. l ≡ label.now) }
{
    let mut copy = ListLabels::new(alloc);
    copy.join(log, label)?;
    Ok(copy)
}

/// The processes of either label.
pub(crate) fn joined(
    alloc: Global,
    log: &NameLog,
    one: &ListLabels,
    other: &ListLabels,
) -> Result<ListLabels, AllocError>
    ensures { IfOk result (λ l. l ≡ join one.now other.now) }
{
    let mut label = copy_of(alloc, log, one)?;
    label.join(log, other)?;
    Ok(label)
}

/// The processes of both labels.
pub(crate) fn met(
    alloc: Global,
    log: &NameLog,
    one: &ListLabels,
    other: &ListLabels,
) -> Result<ListLabels, AllocError>
    ensures { IfOk result (λ l. l ≡ meet one.now other.now) }
{
    let mut label = copy_of(alloc, log, one)?;
    label.meet(log, other)?;
    Ok(label)
}

/// The label of one process, which lives.
pub(crate) fn only(alloc: Global, log: &NameLog, p: &Process) -> Result<ListLabels, AllocError>
    requires { IsTrue (has log.now p.now) }
    ensures { IfOk result (λ l. l ≡ p.now ∷ []) }
{
    let mut label = ListLabels::new(alloc);
    label.add(log, p)?;
    Ok(label)
}
