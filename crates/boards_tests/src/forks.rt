// Worked examples.
use fork_labels::{ForkLabels, ForkLog};
use kb_label::{Labels, ListLabels, Living, MAX_LIVING, Process};
use std::alloc::{AllocError, Global};

/// Forks a process, where it lives.
fn forked<L: Living>(log: &mut L, process: &Process) -> Result<(), AllocError> {
    if log.is_living(process) && log.living() < MAX_LIVING {
        log.fork(process)?;
    }
    Ok(())
}

/// Takes a process out of a label.
fn without(
    alloc: Global,
    log: &ForkLog,
    label: &mut ForkLabels,
    process: &Process,
) -> Result<(), AllocError> {
    let mut one = ForkLabels::new(alloc);
    if log.is_living(process) {
        one.add(log, process)?;
    }
    label.minus(log, &one)
}

fn has_bits(name: &Process, bits: &[bool]) -> bool {
    for (i, bit) in bits.iter().enumerate() {
        if i >= name.len() || name.bit(i) != *bit {
            return false;
        }
    }
    name.len() == bits.len()
}

fn is_at(names: &[Process], place: usize, bits: &[bool]) -> bool {
    match names.get(place) {
        Some(name) => has_bits(name, bits),
        None => false,
    }
}

/// A label of the first process and its log, after forks of the first process and of its first child.
fn row(alloc: Global) -> Result<(ForkLog, ForkLabels), AllocError> {
    let mut log = ForkLog::start(alloc)?;
    let root = Process::root();
    let mut label = ForkLabels::new(alloc);
    if log.is_living(&root) {
        label.add(&log, &root)?;
    }
    forked(&mut log, &root)?;
    forked(&mut log, &root.child(false))?;
    Ok((log, label))
}

#[test]
fn a_label_follows_the_forks_of_its_log(rt: HostRuntime) {
    let alloc = rt.alloc();
    let (mut log, mut label) = row(alloc).expect(&rt, "memory");
    let zero = Process::root().child(false);
    let one = Process::root().child(true);
    let names = label.names(&log).expect(&rt, "memory");
    assert_eq!(rt; names.len(), 3);
    assert!(rt; is_at(&names, 0, &[true]));
    assert!(rt; is_at(&names, 1, &[false, false]));
    assert!(rt; is_at(&names, 2, &[false, true]));
    without(alloc, &log, &mut label, &zero.child(false)).expect(&rt, "memory");
    let left = label.names(&log).expect(&rt, "memory");
    assert_eq!(rt; left.len(), 2);
    assert!(rt; is_at(&left, 0, &[true]));
    assert!(rt; is_at(&left, 1, &[false, true]));
    forked(&mut log, &one).expect(&rt, "memory");
    let later = label.names(&log).expect(&rt, "memory");
    assert_eq!(rt; later.len(), 3);
    assert!(rt; is_at(&later, 0, &[false, true]));
    assert!(rt; is_at(&later, 1, &[true, false]));
    assert!(rt; is_at(&later, 2, &[true, true]));
    assert!(rt; label.has(&log, &one.child(true)));
    assert!(rt; !label.has(&log, &zero.child(false)));
    assert!(rt; !label.is_empty(&log));
}

/// The names of a log after forks of every second process, and those of a label of its first fork's second child.
fn forked_often<L: Labels>(
    alloc: Global,
    forks: u16,
) -> Result<(Vec<Process>, Vec<Process>, bool), AllocError> {
    let mut log = L::Log::start(alloc)?;
    let mut label = L::new(alloc);
    let mut process = Process::root();
    for turn in 0..forks {
        forked(&mut log, &process)?;
        let names = log.names()?;
        if let Some(next) = names.get(names.len() / 2) {
            process = *next;
        }
        if turn % 3 == 0 && log.is_living(&process) {
            label = L::new(alloc);
            label.add(&log, &process)?;
        }
    }
    let copy = log.copy()?;
    Ok((copy.names()?, label.names(&copy)?, label.is_empty(&copy)))
}

#[test]
fn names_live_as_in_the_plain_log(rt: HostRuntime) {
    let (plain, _, _) = forked_often::<ListLabels>(rt.alloc(), 200).expect(&rt, "memory");
    let (names, label, is_empty) = forked_often::<ForkLabels>(rt.alloc(), 200).expect(
        &rt, "memory",
    );
    assert_eq!(rt; names.len(), 201);
    assert!(rt; names.as_slice() == plain.as_slice());
    assert!(rt; label.len() >= 1 && !is_empty);
}
