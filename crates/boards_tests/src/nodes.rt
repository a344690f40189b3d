// Worked examples.
use kb_label::{Labels, ListLabels, Living, NameLog, Process};
use kb_node::{LabelKind, NodeFault, NodeId, NodeTable};
use kb_term::{Memory, Origin, Pair, RuleRef, Symbol, Term, Terms, canonical, pair_limit};
use std::alloc::Global;

fn constant(alloc: Global, f: u8) -> Term {
    Term::App(Symbol(f), Terms::new(Vec::new(alloc)))
}

/// The canonical pair of two constants, which have to differ.
fn pair_of(alloc: Global, f: u8, g: u8) -> Result<Pair, Memory> {
    let a = constant(alloc, f);
    let b = constant(alloc, g);
    if pair_limit(&a, &b).is_some() {
        return Err(Memory);
    }
    match canonical(alloc, &a, &b)? {
        Some(pair) => Ok(pair),
        None => Err(Memory),
    }
}

/// Adds pairs of constants until the table is full.
fn filled<L: Labels>(alloc: Global, table: &mut NodeTable<L>) -> Result<(), NodeFault> {
    for f in 0u8..128 {
        for g in 0u8..f {
            if table.len() < 4096 {
                let pair = pair_of(alloc, f, g)?;
                table.find_or_add(pair, Origin::Input(7))?;
            }
        }
    }
    Ok(())
}

fn is_input(origin: &Origin, number: u16) -> bool {
    match origin {
        Origin::Input(n) => *n == number,
        _ => false,
    }
}

/// A table of 4,096 pairs of constants.
fn full_table(alloc: Global) -> Result<NodeTable<ListLabels>, NodeFault> {
    let mut table: NodeTable<ListLabels> = NodeTable::new(alloc);
    filled(alloc, &mut table)?;
    Ok(table)
}

/// The number of the node of a pair of constants, which is added as the ninth input where it is new.
fn added<L: Labels>(
    alloc: Global,
    table: &mut NodeTable<L>,
    f: u8,
    g: u8,
) -> Result<u16, NodeFault> {
    let pair = pair_of(alloc, f, g)?;
    let n = table.find_or_add(pair, Origin::Input(9))?;
    Ok(n.0)
}

/// Whether the node of this number has the pair of constants, each side of it where it is read alone, and is found by it.
fn is_found<L: Labels>(
    alloc: Global,
    table: &NodeTable<L>,
    n: u16,
    f: u8,
    g: u8,
) -> Result<bool, Memory> {
    if n as u32 >= table.len() {
        return Ok(false);
    }
    let pair = pair_of(alloc, f, g)?;
    let there = table.pair(NodeId(n))?;
    let second = table.other_side(NodeId(n), 0)?;
    let first = table.other_side(NodeId(n), 1)?;
    let found = table.find(&pair);
    Ok(
        there == pair
            && (first == *pair.first() && second == *pair.second())
            && matches!(found, Some(NodeId(m)) if m == n),
    )
}

/// The sizes of both sides of the node of f(f(x)) and x, which is added.
fn tower_size<L: Labels>(alloc: Global, table: &mut NodeTable<L>) -> Result<u32, NodeFault> {
    let mut tower = Term::Var(0);
    for _ in 0..2 {
        let mut items = Vec::new(alloc);
        items.push(tower)?;
        tower = Term::App(Symbol(3), Terms::new(items));
    }
    let x = Term::Var(0);
    if pair_limit(&tower, &x).is_some() {
        return Err(NodeFault::Memory);
    }
    match canonical(alloc, &tower, &x)? {
        Some(pair) => {
            let n = table.find_or_add(pair, Origin::Input(9))?;
            if n.0 as u32 >= table.len() {
                return Err(NodeFault::Memory);
            }
            Ok(table.size(n))
        }
        None => Err(NodeFault::Memory),
    }
}

/// Whether no node has the pair of constants.
fn is_missing<L: Labels>(
    alloc: Global,
    table: &NodeTable<L>,
    f: u8,
    g: u8,
) -> Result<bool, Memory> {
    let pair = pair_of(alloc, f, g)?;
    Ok(table.find(&pair).is_none())
}

/// Whether the node came from the input with this number.
fn came_from<L: Labels>(table: &NodeTable<L>, n: u16, number: u16) -> Result<bool, Memory> {
    if n as u32 >= table.len() {
        return Ok(false);
    }
    let origin = table.origin(NodeId(n))?;
    Ok(is_input(&origin, number))
}

#[test]
fn a_full_table_knows_its_pairs_alone(rt: HostRuntime) {
    let alloc = rt.alloc();
    let mut table = full_table(alloc).expect(&rt, "memory");
    assert_eq!(rt; table.len(), 4096);
    let known = added(alloc, &mut table, 2, 1);
    assert!(rt; matches!(known, Ok(2)));
    let new = added(alloc, &mut table, 200, 201);
    assert!(rt; matches!(new, Err(NodeFault::Full)));
    assert!(rt; is_missing(alloc, &table, 200, 201).expect(&rt, "memory"));
    assert!(rt; is_found(alloc, &table, 2, 1, 2).expect(&rt, "memory"));
    assert!(rt; came_from(&table, 2, 7).expect(&rt, "memory"));
}

/// Puts a process into one label of a node, by the trait alone.
fn labelled<L: Labels>(
    alloc: Global,
    table: &mut NodeTable<L>,
    log: &L::Log,
    n: u16,
    kind: LabelKind,
    process: &Process,
) -> Result<bool, Memory> {
    if n as u32 >= table.len() || !log.is_living(process) {
        return Ok(false);
    }
    let node = NodeId(n);
    let mut label = L::new(alloc);
    label.join(log, table.label(node, kind))?;
    label.add(log, process)?;
    let old = table.set_label(node, kind, label);
    Ok(old.is_empty(log) && !table.is_dead(log, node))
}

/// The pairs of the constant 9 with the constants 0, 1 and 2.
fn three_nodes(alloc: Global) -> Result<NodeTable<ListLabels>, NodeFault> {
    let mut table: NodeTable<ListLabels> = NodeTable::new(alloc);
    for g in 0u8..3 {
        added(alloc, &mut table, 9, g)?;
    }
    Ok(table)
}

fn shortened<L: Labels>(table: &mut NodeTable<L>) {
    if table.len() >= 1 {
        table.truncate(1);
    }
}

#[test]
fn a_view_lists_what_the_labels_name(rt: HostRuntime) {
    let alloc = rt.alloc();
    let log = NameLog::start(alloc).expect(&rt, "memory");
    let root = Process::root();
    let mut table = three_nodes(alloc).expect(&rt, "memory");
    let constraint = labelled(alloc, &mut table, &log, 0, LabelKind::C0, &root);
    assert!(rt; matches!(constraint, Ok(false)));
    let rule = labelled(alloc, &mut table, &log, 2, LabelKind::R1, &root);
    assert!(rt; matches!(rule, Ok(true)));
    let equation = labelled(alloc, &mut table, &log, 1, LabelKind::E, &root);
    assert!(rt; matches!(equation, Ok(true)));
    let view = table.view_of(&log, &root).expect(&rt, "memory");
    assert!(rt; view.equations.items() == [NodeId(1)].as_slice());
    assert!(rt; view.rules.items() == [RuleRef { node: 2, dir: 1 }].as_slice());
    assert!(rt; view.constraints.items() == [RuleRef { node: 0, dir: 0 }].as_slice());
}

#[test]
fn a_shorter_table_forgets_the_last_nodes(rt: HostRuntime) {
    let alloc = rt.alloc();
    let mut table = three_nodes(alloc).expect(&rt, "memory");
    shortened(&mut table);
    assert_eq!(rt; table.len(), 1);
    assert!(rt; is_missing(alloc, &table, 9, 1).expect(&rt, "memory"));
    assert!(rt; is_found(alloc, &table, 0, 0, 9).expect(&rt, "memory"));
    let size = tower_size(alloc, &mut table);
    assert!(rt; matches!(size, Ok(4)));
    assert_eq!(rt; table.len(), 2);
    assert!(rt; is_missing(alloc, &table, 9, 1).expect(&rt, "memory"));
}
