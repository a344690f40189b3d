// Worked examples.
use kb_label::{Labels, ListLabels, Living, MAX_BITS, MAX_LIVING, NameLog, Process};
use std::alloc::{AllocError, Global};
use std::process::Abort;

/// A log after a fork of the first process and one of its second child, by the trait alone.
fn forked_twice<L: Living>(alloc: Global) -> Result<L, AllocError> {
    let mut log = L::start(alloc)?;
    let root = Process::root();
    if log.is_living(&root) && log.living() < MAX_LIVING {
        log.fork(&root)?;
    }
    let second = root.child(true);
    if log.is_living(&second) && log.living() < MAX_LIVING {
        log.fork(&second)?;
    }
    log.copy()
}

/// The label of two processes, as far as they live, by the trait alone.
fn label_of<L: Labels>(
    alloc: Global,
    log: &L::Log,
    first: &Process,
    second: &Process,
) -> Result<L, AllocError> {
    let mut label = L::new(alloc);
    if log.is_living(first) {
        label.add(log, first)?;
    }
    if log.is_living(second) {
        label.add(log, second)?;
    }
    Ok(label)
}

/// The names of both labels, those of the first alone, or those of both, by the trait alone.
fn worked<L: Labels>(
    alloc: Global,
    log: &L::Log,
    first: &L,
    second: &L,
    way: u8,
) -> Result<Vec<Process>, AllocError> {
    let mut label = L::new(alloc);
    label.join(log, first)?;
    match way {
        0 => label.join(log, second)?,
        1 => label.minus(log, second)?,
        _ => label.meet(log, second)?,
    }
    label.names(log)
}

fn has_bits(name: &Process, bits: &[bool]) -> bool {
    for (i, bit) in bits.iter().enumerate() {
        if i >= name.len() || name.bit(i) != *bit {
            return false;
        }
    }
    name.len() == bits.len()
}

fn is_at(names: &[Process], place: usize, bits: &[bool]) -> bool {
    match names.get(place) {
        Some(name) => has_bits(name, bits),
        None => false,
    }
}

#[test]
fn names_stand_in_their_order_after_forks(rt: HostRuntime) {
    let log: NameLog = forked_twice(rt.alloc()).expect(&rt, "memory");
    let names = log.names().expect(&rt, "memory");
    assert_eq!(rt; log.living(), 3);
    assert_eq!(rt; names.len(), 3);
    assert!(rt; is_at(&names, 0, &[false]));
    assert!(rt; is_at(&names, 1, &[true, false]));
    assert!(rt; is_at(&names, 2, &[true, true]));
}

#[test]
fn a_shorter_name_comes_first(rt: HostRuntime) {
    let one = Process::from_bits(&[true]);
    let two = Process::from_bits(&[false, true]);
    assert!(rt; one < two);
    assert!(rt; two < Process::from_bits(&[true, false]));
    assert!(rt; Process::root() < one);
}

// The children of the first process, both in the label, give way to it.
fn is_taken_back(rt: &impl Abort, log: &NameLog, label: &mut ListLabels) {
    let root = Process::root();
    label.unite(&root);
    assert!(rt; label.has(log, &root));
    assert!(rt; !label.has(log, &root.child(false)));
    assert!(rt; !label.has(log, &root.child(true)));
}

#[test]
fn a_label_is_relabelled_at_a_fork_and_back(rt: HostRuntime) {
    let alloc = rt.alloc();
    let log = NameLog::start(alloc).expect(&rt, "memory");
    let root = Process::root();
    let mut label: ListLabels = label_of(alloc, &log, &root, &root).expect(&rt, "memory");
    label.relabel(&root).expect(&rt, "memory");
    let names = label.names(&log).expect(&rt, "memory");
    assert_eq!(rt; names.len(), 2);
    assert!(rt; is_at(&names, 0, &[false]));
    assert!(rt; is_at(&names, 1, &[true]));
    assert!(rt; !label.has(&log, &root));
    assert!(rt; !label.is_empty(&log));
    is_taken_back(&rt, &log, &mut label);
}

/// What the labels of two processes each of a log with three give together.
fn worked_after_forks(alloc: Global, way: u8) -> Result<Vec<Process>, AllocError> {
    let log: NameLog = forked_twice(alloc)?;
    let zero = Process::root().child(false);
    let one = Process::root().child(true);
    let first: ListLabels = label_of(alloc, &log, &one.child(true), &zero)?;
    let second: ListLabels = label_of(alloc, &log, &one.child(false), &one.child(true))?;
    worked(alloc, &log, &first, &second, way)
}

#[test]
fn labels_are_joined(rt: HostRuntime) {
    let names = worked_after_forks(rt.alloc(), 0).expect(&rt, "memory");
    assert_eq!(rt; names.len(), 3);
    assert!(rt; is_at(&names, 0, &[false]));
    assert!(rt; is_at(&names, 1, &[true, false]));
    assert!(rt; is_at(&names, 2, &[true, true]));
}

/// For each living process in order whether the label of two of the three has it, and then for the first again.
fn told_in_order(alloc: Global) -> Result<([bool; 4], usize), AllocError> {
    let log: NameLog = forked_twice(alloc)?;
    let one = Process::root().child(true);
    let zero = Process::root().child(false);
    let label: ListLabels = label_of(alloc, &log, &one.child(true), &zero)?;
    let mut place = 0;
    let first = label.has_from(&zero, &mut place);
    let second = label.has_from(&one.child(false), &mut place);
    let third = label.has_from(&one.child(true), &mut place);
    let last = place;
    let again = label.has_from(&zero, &mut place);
    Ok(([first, second, third, again], last))
}

#[test]
fn a_label_is_asked_for_processes_in_order(rt: HostRuntime) {
    let (told, place) = told_in_order(rt.alloc()).expect(&rt, "memory");
    assert!(rt; told[0] && !told[1] && told[2] && told[3]);
    assert_eq!(rt; place, 2);
}

#[test]
fn labels_are_met_and_left(rt: HostRuntime) {
    let left = worked_after_forks(rt.alloc(), 1).expect(&rt, "memory");
    assert_eq!(rt; left.len(), 1);
    assert!(rt; is_at(&left, 0, &[false]));
    let met = worked_after_forks(rt.alloc(), 2).expect(&rt, "memory");
    assert_eq!(rt; met.len(), 1);
    assert!(rt; is_at(&met, 0, &[true, true]));
}

/// Forks the last process until as many live as may, and tells how many live and how many bits the last name has.
fn after_all_forks(alloc: Global) -> Result<(u32, usize), AllocError> {
    let mut log = NameLog::start(alloc)?;
    let mut process = Process::root();
    for _ in 0..MAX_LIVING {
        if log.is_living(&process) && log.living() < MAX_LIVING && process.len() < MAX_BITS {
            log.fork(&process)?;
            process = process.child(true);
        }
    }
    Ok((log.living(), process.len()))
}

#[test]
fn as_many_processes_live_as_may(rt: HostRuntime) {
    let (living, bits) = after_all_forks(rt.alloc()).expect(&rt, "memory");
    assert_eq!(rt; living, 1024);
    assert_eq!(rt; bits, 1023);
}
