// Tickets that end out of order, and each call once. What is large is dropped by a call: to let it go at the end of a function makes
// its proof slow.
ghost use Rattle.std.specs.Prelude.{◌≡◌, ◌≢◌, ◌≤◌, ◌+◌, [], ◌∷◌, length};
ghost use Rattle.kb_term.specs.Tree.{apply, no_trees, more_trees};
ghost use Rattle.kb_term.specs.View.{tree_of};
ghost use Rattle.kb_term.specs.Signature.{IsWithinLimits};
ghost use Rattle.kb_jobs.specs.declared.working.Snapshot.{Snapshot as Read};
ghost use Rattle.mkb_model.specs.declared.entry.Ticket.{Ticket as Held};
ghost use Rattle.mkb_board.specs.Held.{IsHeld};

use kb_cert::Certificate;
use kb_jobs::{Snapshot, work};
use kb_label::{Living, Process};
use kb_node::{Job, LabelKind, NodeId};
use kb_term::{Problem, RuleRef, Signature, Symbol, Term, Terms};
use mkb_board::{Board, Finished, Taken, held_tickets_stay};
use mkb_model::{Entry, Settings, Ticket};
use mkb_rules::Applied;
use std::alloc::Global;
use std::mem::drop;
use std::process::Abort;

fn letter(rt: &impl Abort, alloc: Global, b: u8) -> Vec<u8>
    ensures { result.items ≡ b ∷ [] }
{
    let mut name = Vec::new(alloc);
    name.push(b).expect(rt, "memory");
    name
}

// The symbols f of one argument, a, b and c.
fn signature(rt: &impl Abort, alloc: Global) -> Signature
    ensures { result ≡ record { name = 102 ∷ []; arity = 1 } ∷ record { name = 97 ∷ []; arity = 0 } ∷ record { name = 98 ∷ []; arity = 0 } ∷ record { name = 99 ∷ []; arity = 0 } ∷ [] }
{
    let mut symbols = Vec::new(alloc);
    symbols
        .push((letter(rt, alloc, b'f'), 1))
        .expect(rt, "memory");
    symbols
        .push((letter(rt, alloc, b'a'), 0))
        .expect(rt, "memory");
    symbols
        .push((letter(rt, alloc, b'b'), 0))
        .expect(rt, "memory");
    symbols
        .push((letter(rt, alloc, b'c'), 0))
        .expect(rt, "memory");
    Signature::new(symbols)
}

fn constant(alloc: Global, f: u8) -> Term
    ensures { tree_of result ≡ apply f no_trees }
{
    Term::App(Symbol(f), Terms::new(Vec::new(alloc)))
}

fn unary(rt: &impl Abort, alloc: Global, t: Term) -> Term
    ensures { tree_of result ≡ apply 0 (more_trees (tree_of t) no_trees) }
{
    let mut items = Vec::new(alloc);
    items.push(t).expect(rt, "memory");
    Term::App(Symbol(0), Terms::new(items))
}

// The equations f(a) = b and f(a) = c.
fn two_values(rt: &impl Abort, alloc: Global) -> Problem
    ensures { IsWithinLimits result }
{
    let mut equations = Vec::new(alloc);
    let first = (unary(rt, alloc, constant(alloc, 1)), constant(alloc, 2));
    equations.push(first).expect(rt, "memory");
    let second = (unary(rt, alloc, constant(alloc, 1)), constant(alloc, 3));
    equations.push(second).expect(rt, "memory");
    Problem::new(signature(rt, alloc), equations)
}

// The equations f(f(x1)) = a and b = c.
fn two_parts(rt: &impl Abort, alloc: Global) -> Problem
    ensures { IsWithinLimits result }
{
    let mut equations = Vec::new(alloc);
    let twice = unary(rt, alloc, unary(rt, alloc, Term::Var(0)));
    equations
        .push((twice, constant(alloc, 1)))
        .expect(rt, "memory");
    let second = (constant(alloc, 2), constant(alloc, 3));
    equations.push(second).expect(rt, "memory");
    Problem::new(signature(rt, alloc), equations)
}

// A ticket with what its job reads.
#[derive(Drop)]
struct Hand {
    ticket: Ticket,
    snapshot: Snapshot,
}

// Takes the first job for the worker.
fn take(rt: &impl Abort, alloc: Global, board: &mut Board, worker: u8) -> Hand
    requires least { 1 ≤ worker }
    requires most { worker ≤ 16 }
    ensures held { IsHeld board.new result.ticket result.snapshot }
    ensures stays { (t : Held) (s : Read) → IsHeld board.old t s → IsHeld board.new t s }
{
    held_tickets_stay();
    board.journal_is_legal();
    match board.take(alloc, worker).expect(rt, "memory") {
        Taken::Job(ticket, snapshot) => Hand { ticket, snapshot },
        _ => panic!(rt; "no ticket"),
    }
}

// Takes the first job for the worker, which is this one, under this number.
fn take_this(
    rt: &impl Abort,
    alloc: Global,
    board: &mut Board,
    worker: u8,
    number: u64,
    job: Job,
) -> Hand
    requires least { 1 ≤ worker }
    requires most { worker ≤ 16 }
    ensures held { IsHeld board.new result.ticket result.snapshot }
    ensures stays { (t : Held) (s : Read) → IsHeld board.old t s → IsHeld board.new t s }
    ensures number { result.ticket.number ≡ number }
{
    let hand = take(rt, alloc, board, worker);
    assert!(rt; hand.ticket.job == job);
    assert!(rt; hand.ticket.number == number);
    hand
}

// Works a ticket and ends it.
fn finish(rt: &impl Abort, alloc: Global, board: &mut Board, hand: &Hand) -> Finished
    requires { IsHeld board.old hand.now.ticket hand.now.snapshot }
    ensures { (t : Held) (s : Read) → IsHeld board.old t s → t.number ≢ hand.now.ticket.number → IsHeld board.new t s }
{
    held_tickets_stay();
    let proposal = work(alloc, &hand.snapshot).expect(rt, "memory");
    match board.finish(alloc, hand.ticket, proposal) {
        Ok(finished) => finished,
        Err(_) => panic!(rt; "memory"),
    }
}

// Works a ticket and ends it by a commit.
fn commit(rt: &impl Abort, alloc: Global, board: &mut Board, hand: &Hand)
    requires { IsHeld board.old hand.now.ticket hand.now.snapshot }
    ensures { (t : Held) (s : Read) → IsHeld board.old t s → t.number ≢ hand.now.ticket.number → IsHeld board.new t s }
{
    let finished = finish(rt, alloc, board, hand);
    assert!(rt; matches!(finished, Finished::Committed(Applied::Done)));
}

// Two tickets, with what their jobs read.
#[derive(Drop)]
struct Hands {
    first: Hand,
    second: Hand,
}

// Takes the first two jobs, which are these, under this number and the next.
fn take_both(
    rt: &impl Abort,
    alloc: Global,
    board: &mut Board,
    number: u64,
    one: Job,
    other: Job,
) -> Hands
    requires { number ≤ 100 }
    ensures first { IsHeld board.new result.first.ticket result.first.snapshot }
    ensures second { IsHeld board.new result.second.ticket result.second.snapshot }
    ensures stays { (t : Held) (s : Read) → IsHeld board.old t s → IsHeld board.new t s }
    ensures number { result.first.ticket.number ≡ number }
    ensures next { result.second.ticket.number ≡ number + 1 }
{
    let first = take_this(rt, alloc, board, 2, number, one);
    let second = take_this(rt, alloc, board, 3, number + 1, other);
    Hands { first, second }
}

// Whether a ticket was dropped for this process.
fn is_dropped_for(finished: &Finished, process: &Process) -> bool {
    match finished {
        Finished::Dropped(p) => *p == *process,
        _ => false,
    }
}

// Works a ticket, which is dropped for this process.
fn drop_for(rt: &impl Abort, alloc: Global, board: &mut Board, hand: &Hand, process: &Process)
    requires { IsHeld board.old hand.now.ticket hand.now.snapshot }
{
    let finished = finish(rt, alloc, board, hand);
    assert!(rt; is_dropped_for(&finished, process));
}

// Takes the job under this number and commits it.
fn turn(rt: &impl Abort, alloc: Global, board: &mut Board, number: u64, job: Job) {
    let hand = take_this(rt, alloc, board, 1, number, job);
    commit(rt, alloc, board, &hand);
    drop(hand);
}

// Takes the job under this number and gives it back.
fn give_back(rt: &impl Abort, alloc: Global, board: &mut Board, number: u64, job: Job) {
    let hand = take_this(rt, alloc, board, 1, number, job);
    board.abandon(&hand.ticket);
    drop(hand);
}

// A take that gives no ticket, while so many are in flight.
fn idle(rt: &impl Abort, alloc: Global, board: &mut Board, count: usize)
    ensures { (t : Held) (s : Read) → IsHeld board.old t s → IsHeld board.new t s }
{
    held_tickets_stay();
    match board.take(alloc, 16).expect(rt, "memory") {
        Taken::Idle(flying) => assert_eq!(rt; flying, count),
        _ => panic!(rt; "not idle"),
    }
}

// A take after a halt.
fn halted(rt: &impl Abort, alloc: Global, board: &mut Board)
    ensures { (t : Held) (s : Read) → IsHeld board.old t s → IsHeld board.new t s }
{
    held_tickets_stay();
    match board.take(alloc, 16).expect(rt, "memory") {
        Taken::Halted => {}
        _ => panic!(rt; "not halted"),
    }
}

// Makes a halt.
fn halt(board: &mut Board)
    ensures { (t : Held) (s : Read) → IsHeld board.old t s → IsHeld board.new t s }
{
    held_tickets_stay();
    board.halt();
}

// The process whose name has these bits.
fn process(bits: &[bool]) -> Process
    requires { length bits.now ≤ 2 }
{
    Process::from_bits(bits)
}

// The orienting of node 0 for the first process.
fn first_job() -> Job {
    Job::Orient(Process::root(), NodeId(0))
}

// The rule of the node from side 0 to side 1.
fn forth(node: u16) -> RuleRef {
    RuleRef { node, dir: 0 }
}

// The rule of the node from side 1 to side 0.
fn back(node: u16) -> RuleRef {
    RuleRef { node, dir: 1 }
}

// The board of the equations f(a) = b and f(a) = c.
fn values_board(rt: &impl Abort, alloc: Global) -> Board {
    let problem = two_values(rt, alloc);
    Board::start(alloc, problem, Settings::stated(100)).expect(rt, "memory")
}

// The board of the equations f(f(x1)) = a and b = c.
fn parts_board(rt: &impl Abort, alloc: Global) -> Board {
    let problem = two_parts(rt, alloc);
    Board::start(alloc, problem, Settings::stated(100)).expect(rt, "memory")
}

// Whether the process lives and sees these equations, rules and constraints.
fn sees(
    rt: &impl Abort,
    board: &Board,
    p: &Process,
    equations: &[NodeId],
    rules: &[RuleRef],
    constraints: &[RuleRef],
) -> bool {
    assert!(rt; board.state().log().is_living(p));
    let view = board.view(p).expect(rt, "memory");
    view.equations.items() == equations
        && view.rules.items() == rules
        && view.constraints.items() == constraints
}

// Whether the process lives and orients by a path order.
fn has_path_order(rt: &impl Abort, board: &Board, p: &Process) -> bool {
    assert!(rt; board.state().log().is_living(p));
    let certificate = board.certificate(p).expect(rt, "memory");
    matches!(&certificate, Certificate::Lpo(_))
}

// Whether the process has the node as an equation.
fn has_equation(board: &Board, n: u16, p: &Process) -> bool {
    u32::from(n) < board.nodes().len() && board.state().has_label(p, NodeId(n), LabelKind::E)
}

// Whether the node is this pair.
fn is_node(rt: &impl Abort, board: &Board, n: u16, first: &Term, second: &Term) -> bool {
    let nodes = board.nodes();
    if u32::from(n) < nodes.len() {
        let pair = nodes.pair(NodeId(n)).expect(rt, "memory");
        return *pair.first() == *first && *pair.second() == *second;
    }
    false
}

// How many halts the journal has.
fn halts(board: &Board) -> usize {
    board
        .journal()
        .iter()
        .filter(|entry| matches!(entry, Entry::Halt))
        .count()
}

// The board counts so many commits, drops and living processes, no verdict stands, and with ample memory its agenda is kept.
fn counts(rt: &impl Abort, board: &Board, commits: u32, drops: u64, living: u32) {
    assert_eq!(rt; board.commits(), commits);
    assert_eq!(rt; board.drops(), drops);
    assert_eq!(rt; board.living(), living);
    assert!(rt; board.verdict().is_none());
    assert!(rt; board.agenda().is_some());
}

// The orienting of node 1 forks while the rule of node 0 is overlapped with itself: both children get the deduced pair.
#[test]
fn a_deduced_pair_reaches_both_children(rt: HostRuntime) {
    let alloc = rt.alloc();
    let mut board = parts_board(&rt, alloc);
    two_turns(&rt, alloc, &mut board);
    fork_while_deducing(&rt, alloc, &mut board);
    the_pair_is_there(&rt, alloc, &board);
    both_have_the_pair(&rt, &board);
    counts(&rt, &board, 4, 0, 2);
    drop(board);
}

// Node 0 is a rule, by which node 1 is not rewritten.
fn two_turns(rt: &impl Abort, alloc: Global, board: &mut Board) {
    turn(rt, alloc, board, 1, first_job());
    let job = Job::Reduce(Process::root(), NodeId(1));
    turn(rt, alloc, board, 2, job);
}

// The first process forks while it overlaps.
fn fork_while_deducing(rt: &impl Abort, alloc: Global, board: &mut Board) {
    let orient = Job::Orient(Process::root(), NodeId(1));
    let overlap = Job::Overlap(Process::root(), forth(0), forth(0));
    let hands = take_both(rt, alloc, board, 3, orient, overlap);
    idle(rt, alloc, board, 2);
    commit(rt, alloc, board, &hands.first);
    commit(rt, alloc, board, &hands.second);
    drop(hands);
}

// Node 2 is f(a) = a.
fn the_pair_is_there(rt: &impl Abort, alloc: Global, board: &Board) {
    let a = constant(alloc, 1);
    let of_a = unary(rt, alloc, constant(alloc, 1));
    assert!(rt; is_node(rt, board, 2, &of_a, &a));
}

// Both children of the first process have node 2 as an equation.
fn both_have_the_pair(rt: &impl Abort, board: &Board) {
    assert!(rt; has_equation(board, 2, &process(&[true])));
    let p = process(&[false]);
    assert!(rt; has_equation(board, 2, &p));
    let rules = [forth(0), forth(1)];
    assert!(rt; sees(rt, board, &p, &[NodeId(2)], &rules, &rules));
    assert!(rt; has_path_order(rt, board, &p));
}

// The rule of node 0 rewrites node 1, so nothing is left of its orienting.
#[test]
fn a_ticket_with_nothing_left_is_dropped(rt: HostRuntime) {
    let alloc = rt.alloc();
    let mut board = values_board(&rt, alloc);
    turn(&rt, alloc, &mut board, 1, first_job());
    rewrite_while_orienting(&rt, alloc, &mut board);
    the_rest_is_there(&rt, alloc, &board);
    one_has_the_rest(&rt, &board);
    counts(&rt, &board, 2, 1, 2);
    drop(board);
}

// One child of the first process rewrites node 1 while it orients it.
fn rewrite_while_orienting(rt: &impl Abort, alloc: Global, board: &mut Board) {
    let reduce = Job::Reduce(process(&[false]), NodeId(1));
    let orient = Job::Orient(process(&[false]), NodeId(1));
    let hands = take_both(rt, alloc, board, 2, reduce, orient);
    commit(rt, alloc, board, &hands.first);
    drop_for(rt, alloc, board, &hands.second, &process(&[false]));
    drop(hands);
}

// Node 2 is b = c.
fn the_rest_is_there(rt: &impl Abort, alloc: Global, board: &Board) {
    let b = constant(alloc, 2);
    let c = constant(alloc, 3);
    assert!(rt; is_node(rt, board, 2, &b, &c));
}

// One child of the first process has node 2 as an equation.
fn one_has_the_rest(rt: &impl Abort, board: &Board) {
    assert!(rt; !has_equation(board, 2, &process(&[true])));
    let p = process(&[false]);
    let rules = [forth(0)];
    assert!(rt; sees(rt, board, &p, &[NodeId(2)], &rules, &rules));
    assert!(rt; has_path_order(rt, board, &p));
}

// The rule of node 0 is composed for one of two processes while its overlaps are sought: one commit is for the other
// process alone, and of the other overlap nothing is left.
#[test]
fn a_commit_is_for_whom_it_still_concerns(rt: HostRuntime) {
    let alloc = rt.alloc();
    let mut board = values_board(&rt, alloc);
    fork_twice(&rt, alloc, &mut board);
    compose_while_overlapping(&rt, alloc, &mut board);
    one_rule_is_composed(&rt, &board);
    one_rule_is_as_it_was(&rt, &board);
    counts(&rt, &board, 6, 1, 3);
    drop(board);
}

// Four tickets in turn, of which two fork.
fn fork_twice(rt: &impl Abort, alloc: Global, board: &mut Board) {
    turn(rt, alloc, board, 1, first_job());
    let p = process(&[false]);
    turn(rt, alloc, board, 2, Job::Reduce(p, NodeId(1)));
    turn(rt, alloc, board, 3, Job::Reduce(p, NodeId(2)));
    turn(rt, alloc, board, 4, Job::Orient(p, NodeId(2)));
}

// One process composes a rule while it overlaps it.
fn compose_while_overlapping(rt: &impl Abort, alloc: Global, board: &mut Board) {
    let p = process(&[false, false]);
    let reduce = take_this(rt, alloc, board, 1, 5, Job::Reduce(p, NodeId(0)));
    let same = Job::Overlap(process(&[false, false]), forth(0), forth(0));
    let other = Job::Overlap(process(&[false, false]), forth(0), forth(2));
    let hands = take_both(rt, alloc, board, 6, same, other);
    commit(rt, alloc, board, &reduce);
    end_overlaps(rt, alloc, board, &hands);
    drop(reduce);
    drop(hands);
}

// One overlap is done for another process, and one is dropped.
fn end_overlaps(rt: &impl Abort, alloc: Global, board: &mut Board, hands: &Hands)
    requires first { IsHeld board.old hands.now.first.ticket hands.now.first.snapshot }
    requires second { IsHeld board.old hands.now.second.ticket hands.now.second.snapshot }
    requires differ { hands.now.second.ticket.number ≢ hands.now.first.ticket.number }
{
    one_rule_is_composed(rt, board);
    commit(rt, alloc, board, &hands.first);
    one_overlap_is_done(rt, board);
    let p = process(&[false, false]);
    drop_for(rt, alloc, board, &hands.second, &p);
}

// One process has the rule of node 1 in place of that of node 0, which it oriented.
fn one_rule_is_composed(rt: &impl Abort, board: &Board) {
    let p = process(&[false, false]);
    let rules = [forth(1), forth(2)];
    let constraints = [forth(0), forth(2)];
    assert!(rt; sees(rt, board, &p, &[], &rules, &constraints));
    assert!(rt; has_path_order(rt, board, &p));
}

// The other process has the rule of node 0.
fn one_rule_is_as_it_was(rt: &impl Abort, board: &Board) {
    let p = process(&[false, true]);
    let rules = [forth(0), back(2)];
    assert!(rt; sees(rt, board, &p, &[], &rules, &rules));
    assert!(rt; has_path_order(rt, board, &p));
}

// The overlaps of the rule of node 0 with itself are done for one of the two processes.
fn one_overlap_is_done(rt: &impl Abort, board: &Board) {
    let state = board.state();
    assert!(rt; !state.is_done(&process(&[false, false]), forth(0), forth(0)));
    assert!(rt; state.is_done(&process(&[false, true]), forth(0), forth(0)));
}

// What a process sees before any commit, and by what it orients.
#[test]
fn a_process_is_looked_at(rt: HostRuntime) {
    let board = values_board(&rt, rt.alloc());
    first_is_seen(&rt, &board);
    drop(board);
}

// The first process has both equations.
fn first_is_seen(rt: &impl Abort, board: &Board) {
    let e = Process::root();
    let equations = [NodeId(0), NodeId(1)];
    assert!(rt; sees(rt, board, &e, &equations, &[], &[]));
    assert!(rt; has_path_order(rt, board, &e));
}

// A ticket is given back and its job taken again; after a halt none is taken, and one that was taken before ends as ever.
#[test]
fn a_ticket_is_given_back(rt: HostRuntime) {
    let alloc = rt.alloc();
    let mut board = values_board(&rt, alloc);
    give_back(&rt, alloc, &mut board, 1, first_job());
    end_after_a_halt(&rt, alloc, &mut board);
    assert_eq!(rt; halts(&board), 1);
    assert_eq!(rt; board.journal().len(), 5);
    drop(board);
}

// A ticket is taken before a halt, of which there are two, and ends after it.
fn end_after_a_halt(rt: &impl Abort, alloc: Global, board: &mut Board) {
    let hand = take_this(rt, alloc, board, 2, 2, first_job());
    halt(board);
    halt(board);
    halted(rt, alloc, board);
    commit(rt, alloc, board, &hand);
    drop(hand);
}
