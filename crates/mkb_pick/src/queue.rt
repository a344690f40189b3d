// The listed processes in the order of their names.
ghost use Rattle.std.specs.Prelude.{ℕ, ◌≡◌, ◌⊎◌, ◌↔◌, ◌+◌, ◌-◌, ◌<◌, ◌≤◌, max, List, [], length, get_or, insert, Contains, false, IsTrue, OnOk, OnErr, IsOk, MatchOption, Some, vec_len, vec_capacity};
ghost use Rattle.mkb_pick.specs.declared.tree.Tree.{Leaf};
ghost use Rattle.kb_label.specs.Names.{Name, add, IsInNameOrder};
ghost use Rattle.mkb_pick.specs.Queues.{IsQueue, IsSound, IsAt, IsSeated};

use crate::marks::Marks;
use crate::places::place_from;
use crate::tree::Tree;
use kb_label::Process;
use kb_term::Memory;
use std::alloc::Global;

/// What a listed process has.
#[derive(Drop)]
pub(crate) struct Entry {
    pub(crate) cost: u64,
    pub(crate) resting: bool,
    pub(crate) tasks: Tree,
    // How many tasks there are, where that is known.
    pub(crate) tally: Option<usize>,
    pub(crate) marks: Marks,
}

impl Entry {
    /// No task, and no rest.
    #[tactic(auto, unfolding(crate::specs::Tasks::Has, crate::specs::Tasks::IsAgenda))]
    pub(crate) fn awake(alloc: Global, cost: u64) -> Entry
        ensures bare { result ≡ record { cost = cost; resting = false; tasks = Leaf; tally = Some 0; marks = result.marks } }
        ensures sound { IsSound result }
    {
        Entry {
            cost,
            resting: false,
            tasks: Tree::Leaf,
            tally: Some(0),
            marks: Marks::new(alloc),
        }
    }
}

/// The listed processes in the order of their names, and what each has. There is room for so many more as are told.
#[derive(Drop)]
pub(crate) struct Queue {
    pub(crate) names: Vec<Process>,
    pub(crate) entries: Vec<Entry>,
    pub(crate) spare: usize,
    // Where a process was found last: a hint alone.
    last: usize,
}

impl Queue {
    /// No process, and room for none.
    pub(crate) fn new(alloc: Global) -> Queue
        ensures names { result.names.items ≡ [] }
        ensures spare { result.spare ≡ 0 }
        ensures queue { IsQueue result }
    {
        Queue {
            names: Vec::new(alloc),
            entries: Vec::new(alloc),
            spare: 0,
            last: 0,
        }
    }

    /// Makes room for so many more processes, unless there is as much.
    pub(crate) fn stock(&mut self, processes: usize) -> Result<(), Memory>
        requires { IsQueue self.old }
        ensures names { self.new.names.items ≡ self.old.names.items }
        ensures entries { self.new.entries.items ≡ self.old.entries.items }
        ensures ok { OnOk result (self.new.spare ≡ max self.old.spare processes) }
        ensures err { OnErr result (self.new.spare ≡ self.old.spare) }
        ensures room { processes ≤ self.old.spare → IsOk result }
        ensures queue { IsQueue self.new }
    {
        if self.spare < processes {
            self.names.reserve(processes)?;
            self.entries.reserve(processes)?;
            self.spare = processes;
        }
        Ok(())
    }

    /// The place of a process.
    pub(crate) fn place_of(&self, name: &Process) -> Option<usize>
        requires { IsQueue self.now }
        ensures { MatchOption result (¬ IsSeated self.now name.now) (λ k. (k < length self.now.names.items) × (get_or self.now.names.items k name.now ≡ name.now)) }
    {
        place_from(self.names.as_slice(), self.last, name)
    }

    /// The place of a process, where the next search begins.
    pub(crate) fn seek(&mut self, name: &Process) -> Option<usize>
        requires { IsQueue self.old }
        ensures place { MatchOption result (¬ IsSeated self.old name.now) (λ k. (k < length self.old.names.items) × (get_or self.old.names.items k name.now ≡ name.now)) }
        ensures names { self.new.names ≡ self.old.names }
        ensures entries { self.new.entries ≡ self.old.entries }
        ensures spare { self.new.spare ≡ self.old.spare }
    {
        let place = self.place_of(name)?;
        self.last = place;
        Some(place)
    }

    /// Takes a process out, whose room is spare then.
    pub(crate) fn take_out(&mut self, name: &Process) -> Entry
        requires queue { IsQueue self.old }
        requires seated { IsSeated self.old name.now }
        ensures entry { IsAt self.old name.now result }
        ensures sound { IsSound result }
        ensures entries { (n : Name) (e : Entry) → IsAt self.new n e ↔ (IsAt self.old n e × ¬ (n ≡ name.now)) }
        ensures spare { self.new.spare ≡ self.old.spare + 1 }
        ensures queue { IsQueue self.new }
    {
        let Some(place) = self.seek(name) else {
            unreachable!()
        };
        self.spare += 1;
        let _ = self.names.remove(place);
        self.entries.remove(place)
    }

    /// Puts a process in, for which there is room.
    pub(crate) fn put_in(&mut self, name: Process, entry: Entry)
        requires queue { IsQueue self.old }
        requires free { ¬ IsSeated self.old name }
        requires room { 0 < self.old.spare }
        requires sound { IsSound entry }
        ensures entries { (n : Name) (e : Entry) → IsAt self.new n e ↔ (((n ≡ name) × (e ≡ entry)) ⊎ IsAt self.old n e) }
        ensures spare { self.new.spare + 1 ≡ self.old.spare }
        ensures queue { IsQueue self.new }
    {
        let place = free_place(self.names.as_slice(), &name);
        self.spare -= 1;
        insert_at(&mut self.names, place, name);
        insert_at(&mut self.entries, place, entry);
        self.last = place;
    }
}

// Where a name that isn't there has to be put.
fn free_place(names: &[Process], name: &Process) -> usize
    requires in_order { IsInNameOrder names.now }
    requires free { ¬ Contains names.now name.now }
    ensures within { result ≤ length names.now }
    ensures added { insert names.now result name.now ≡ add name.now names.now }
{
    match names.binary_search(name) {
        Ok(place) => place,
        Err(place) => place,
    }
}

// Inserts an item, for which there is room.
fn insert_at<T: Drop>(items: &mut Vec<T>, place: usize, item: T)
    requires within { place ≤ vec_len items.old }
    requires room { vec_len items.old < vec_capacity items.old }
    ensures items { items.new.items ≡ insert items.old.items place item }
    ensures len { vec_len items.new ≡ vec_len items.old + 1 }
    ensures capacity { vec_capacity items.old ≤ vec_capacity items.new }
{
    let _ = items.insert(place, item);
}
