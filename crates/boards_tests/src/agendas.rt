// Worked examples of agendas.
ghost use Rattle.std.specs.Prelude.{◌≡◌};
ghost use Rattle.mkb_model.specs.Jobs.{process_of as process_in};

use kb_label::{MAX_BITS, Process};
use kb_node::{Job, NodeId};
use kb_term::{Memory, RuleRef};
use mkb_pick::Agenda;
use std::alloc::Global;

fn process_of(job: &Job) -> Process
    ensures { result ≡ process_in job.now }
{
    match job {
        Job::Reduce(p, _) | Job::Orient(p, _) | Job::Overlap(p, _, _) | Job::Close(p) => *p,
    }
}

fn name(bit: bool) -> Process {
    Process::from_bits(&[bit])
}

fn rule(node: u16) -> RuleRef {
    RuleRef { node, dir: 0 }
}

fn list(agenda: &mut Agenda, process: Process, cost: u64) -> Result<(), Memory> {
    if !agenda.is_listed(&process) {
        agenda.list(process, cost)?;
    }
    Ok(())
}

fn add(agenda: &mut Agenda, job: &Job, weight: u32) -> Result<(), Memory> {
    let _ = agenda.remove(job, weight);
    if agenda.is_listed(&process_of(job)) {
        agenda.add(job, weight)?;
    }
    Ok(())
}

fn set_cost(agenda: &mut Agenda, process: &Process, cost: u64) {
    if agenda.is_listed(process) {
        agenda.set_cost(process, cost);
    }
}

fn rest(agenda: &mut Agenda, process: &Process) {
    if agenda.is_listed(process) {
        agenda.rest(process);
    }
}

fn wake(agenda: &mut Agenda, process: &Process) {
    if agenda.is_listed(process) {
        agenda.wake(process);
    }
}

fn unlist(agenda: &mut Agenda, process: &Process) {
    if agenda.is_listed(process) {
        agenda.unlist(process);
    }
}

/// Whether the process was split; it is not where a child is listed.
fn split(agenda: &mut Agenda, process: &Process) -> Result<bool, Memory> {
    if !agenda.is_listed(process) || process.len() >= MAX_BITS {
        return Ok(false);
    }
    if agenda.is_listed(&process.child(false)) || agenda.is_listed(&process.child(true)) {
        return Ok(false);
    }
    agenda.split(process)?;
    Ok(true)
}

/// The first process with cost 5, one equation to orient and one node to reduce.
fn two_jobs(alloc: Global) -> Result<Agenda, Memory> {
    let first = Process::root();
    let mut agenda = Agenda::new(alloc);
    list(&mut agenda, first, 5)?;
    add(&mut agenda, &Job::Orient(first, NodeId(1)), 0)?;
    add(&mut agenda, &Job::Reduce(first, NodeId(2)), 0)?;
    Ok(agenda)
}

#[test]
fn jobs_come_by_kind_and_cost(rt: HostRuntime) {
    let first = Process::root();
    let orient = Job::Orient(first, NodeId(1));
    let held = [Job::Reduce(first, NodeId(2))];
    let mut agenda = two_jobs(rt.alloc()).expect(&rt, "memory");
    assert_eq!(rt; agenda.next(&[]), Some(Job::Reduce(first, NodeId(2))));
    assert_eq!(rt; agenda.next(&held), Some(orient));
    assert!(rt; agenda.remove(&orient, 0));
    assert!(rt; !agenda.remove(&orient, 0));
    assert_eq!(rt; agenda.next(&held), None);
    assert!(rt; split(&mut agenda, &first).expect(&rt, "memory"));
    assert_eq!(rt; agenda.next(&[]), Some(Job::Reduce(name(false), NodeId(2))));
    set_cost(&mut agenda, &name(false), 6);
    assert_eq!(rt; agenda.next(&[]), Some(Job::Reduce(name(true), NodeId(2))));
    unlist(&mut agenda, &name(true));
    assert_eq!(rt; agenda.next(&[]), Some(Job::Reduce(name(false), NodeId(2))));
}

#[test]
fn within_a_kind_the_lighter_job_comes_first(rt: HostRuntime) {
    let first = Process::root();
    let mut agenda = two_jobs(rt.alloc()).expect(&rt, "memory");
    let lighter = Job::Overlap(first, rule(7), rule(9));
    let heavier = Job::Overlap(first, rule(3), rule(4));
    add(&mut agenda, &heavier, 20).expect(&rt, "memory");
    add(&mut agenda, &lighter, 10).expect(&rt, "memory");
    add(&mut agenda, &Job::Close(first), 0).expect(&rt, "memory");
    let held = [
        Job::Reduce(name(true), NodeId(2)),
        Job::Orient(first, NodeId(8)),
        Job::Overlap(name(true), rule(7), rule(9)),
        Job::Overlap(name(true), rule(3), rule(4)),
    ];
    assert_eq!(rt; agenda.next(&held[..2]), Some(lighter));
    assert_eq!(rt; agenda.next(&held[..3]), Some(heavier));
    assert_eq!(rt; agenda.next(&held), None);
}

#[test]
fn a_process_that_rests_is_passed_over(rt: HostRuntime) {
    let mut agenda = two_jobs(rt.alloc()).expect(&rt, "memory");
    assert!(rt; split(&mut agenda, &Process::root()).expect(&rt, "memory"));
    rest(&mut agenda, &name(false));
    assert_eq!(rt; agenda.next(&[]), Some(Job::Reduce(name(true), NodeId(2))));
    rest(&mut agenda, &name(true));
    assert_eq!(rt; agenda.next(&[]), None);
    wake(&mut agenda, &name(false));
    assert_eq!(rt; agenda.next(&[]), Some(Job::Reduce(name(false), NodeId(2))));
}

#[test]
fn what_has_room_is_added(rt: HostRuntime) {
    let first = Process::root();
    let mut agenda = Agenda::new(rt.alloc());
    assert!(rt; agenda.reserve(2, 2).is_ok());
    assert!(rt; list(&mut agenda, first, 5).is_ok());
    assert!(rt; add(&mut agenda, &Job::Close(first), 0).is_ok());
    assert!(rt; split(&mut agenda, &first).is_ok());
    assert_eq!(rt; agenda.next(&[]), Some(Job::Close(name(false))));
}
