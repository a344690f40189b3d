// Lists of names in their order.
ghost use Rattle.std.specs.Prelude.{◌≡◌, ◌+◌, ◌<◌, ◌≤◌, [], ◌∷◌, length, true, insert, remove, is_ok, OnOk, OnErr, IfOk, IfErr, IfSome, IsTrue, vec_len, vec_capacity};
ghost use Rattle.kb_label.specs.Kept.{AreBefore, AreAfter, IsPlaceOf};
ghost use Rattle.kb_label.specs.Names.{has, add, join, meet, minus, relabel, united, is_empty, IsTakenBack, IsInNameOrder};
ghost use Rattle.std.specs.declared.cmp.Ordering.TheVariants.{Equal, Greater};

use crate::kept_name::{KeptName, place_of};
use crate::process::{MAX_BITS, Process, WORD_BITS};
use std::alloc::{AllocError, Global};
use std::cmp::Ordering;
use std::marker::Model;

/// Names in their order, each once.
#[derive(Drop)]
pub(crate) struct NameList {
    names: Vec<KeptName>,
}

impl Model for NameList {
    ghost use Rattle.std.specs.Prelude.{List};
    ghost use Rattle.kb_label.specs.Names.{Name, IsInNameOrder};

    ghost Value = { List Name };

    ghost view = { λ l. l.names.items };

    ghost invariant = { λ l. IsInNameOrder l.names.items };
}

impl NameList {
    /// No name.
    pub(crate) fn new(alloc: Global) -> NameList
        ensures { result ≡ [] }
    {
        NameList {
            names: Vec::new(alloc),
        }
    }

    /// Whether there is no name.
    pub(crate) fn is_empty(&self) -> bool
        ensures { result ≡ is_empty self.now }
    {
        self.names.is_empty()
    }

    /// Whether the process is named.
    pub(crate) fn has(&self, process: &Process) -> bool
        ensures { result ≡ has self.now process.now }
    {
        self.place(process).is_ok()
    }

    /// Whether each name of another list is named; the names of both are then these.
    pub(crate) fn includes(&self, other: &NameList) -> bool
        ensures exactly { result ≡ is_empty (minus other.now self.now) }
        ensures same { IsTrue result → join self.now other.now ≡ self.now }
    {
        let _ = &self.names;
        let mut place = 0;
        for i in 0..other.names.len() {
            if !self.has_kept_from(&other.names[i], &mut place) {
                return false;
            }
        }
        true
    }

    /// Whether another list has none of the names; it then loses nothing by them.
    pub(crate) fn is_disjoint(&self, other: &NameList) -> bool
        ensures exactly { result ≡ is_empty (meet self.now other.now) }
        ensures same { IsTrue result → minus other.now self.now ≡ other.now }
    {
        let _ = &other.names;
        let mut place = 0;
        for i in 0..self.names.len() {
            if other.has_kept_from(&self.names[i], &mut place) {
                return false;
            }
        }
        true
    }

    /// All names, in their order.
    pub(crate) fn names(&self) -> Result<Vec<Process>, AllocError>
        ensures names { IfOk result (λ names. names.items ≡ self.now) }
        ensures in_order { IsInNameOrder self.now }
    {
        let mut names = Vec::with_capacity(*self.names.allocator(), self.names.len())?;
        for kept in self.names.as_slice() {
            names.push(kept.name())?;
        }
        Ok(names)
    }

    /// The same names again.
    pub(crate) fn copy(&self) -> Result<NameList, AllocError>
        ensures { IfOk result (λ names. names ≡ self.now) }
    {
        let names = self.names.as_slice().to_vec(*self.names.allocator())?;
        Ok(NameList { names })
    }

    /// Adds a name at its place.
    pub(crate) fn add(&mut self, process: &Process) -> Result<(), AllocError>
        ensures ok { OnOk result (self.new ≡ add process.now self.old) }
        ensures err { OnErr result (self.new ≡ self.old) }
    {
        match self.place(process) {
            Ok(_) => Ok(()),
            Err(place) => {
                let kept = KeptName::of(*self.names.allocator(), process)?;
                self.names.insert(place, kept)?;
                Ok(())
            }
        }
    }

    // Adds a name that is kept elsewhere at its place.
    fn add_kept(&mut self, name: &KeptName) -> Result<(), AllocError>
        ensures ok { OnOk result (self.new ≡ add name.now self.old) }
        ensures err { OnErr result (self.new ≡ self.old) }
    {
        match self.place_kept(name) {
            Ok(_) => Ok(()),
            Err(place) => {
                let kept = name.clone()?;
                self.names.insert(place, kept)?;
                Ok(())
            }
        }
    }

    /// Adds all names of another list.
    pub(crate) fn join(&mut self, other: &NameList) -> Result<(), AllocError>
        ensures ok { OnOk result (self.new ≡ join self.old other.now) }
        ensures err { OnErr result (self.new ≡ self.old) }
    {
        if self.names.is_empty() {
            self.names = other.names.as_slice().to_vec(*self.names.allocator())?;
            return Ok(());
        }
        if let Some(name) = only_name(other.names.as_slice()) {
            return self.add_kept(name);
        }
        let names = merged(
            *self.names.allocator(),
            self.names.as_slice(),
            other.names.as_slice(),
        )?;
        self.names = names;
        Ok(())
    }

    /// Keeps the names that another list has too.
    pub(crate) fn meet(&mut self, other: &NameList)
        ensures { self.new ≡ meet self.old other.now }
    {
        let mut place = 0;
        self.names
            .retain(|name| other.has_kept_from(name, &mut place));
    }

    /// Takes out the names that another list has.
    pub(crate) fn minus(&mut self, other: &NameList)
        ensures { self.new ≡ minus self.old other.now }
    {
        if let Some(name) = only_name(other.names.as_slice()) {
            take_out(&mut self.names, name);
            return;
        }
        let mut place = 0;
        self.names
            .retain(|name| !other.has_kept_from(name, &mut place));
    }

    /// Puts the two children of a process in its place, where it is named.
    pub(crate) fn relabel(&mut self, process: &Process) -> Result<(), AllocError>
        requires { length process.now < MAX_BITS }
        ensures ok { OnOk result (self.new ≡ relabel process.now self.old) }
        ensures back { IsTakenBack process.now self.old }
        ensures err { OnErr result (self.new ≡ self.old) }
    {
        match self.place(process) {
            Ok(place) => self.relabel_at(place, process),
            Err(_) => Ok(()),
        }
    }

    /// Puts a process whose children fit a word in the place of both of them, where both are named. It takes no memory.
    pub(crate) fn unite(&mut self, process: &Process)
        ensures { self.new ≡ united process.now self.old }
    {
        if process.len() >= WORD_BITS {
            return;
        }
        let left = KeptName::short(&process.child(false));
        let right = KeptName::short(&process.child(true));
        if self.has_kept(&left) && self.has_kept(&right) {
            take_out(&mut self.names, &right);
            take_out(&mut self.names, &left);
            put(&mut self.names, KeptName::short(process));
        }
    }

    // Puts the two children of the process that is named at the place there. What can want memory comes first.
    fn relabel_at(&mut self, place: usize, process: &Process) -> Result<(), AllocError>
        requires short { length process.now < MAX_BITS }
        requires within { place < length self.old }
        requires named { remove self.old place ≡ minus self.old (process.now ∷ []) }
        requires has { IsTrue (has self.old process.now) }
        ensures ok { OnOk result (self.new ≡ relabel process.now self.old) }
        ensures err { OnErr result (self.new ≡ self.old) }
    {
        let alloc = *self.names.allocator();
        let first = KeptName::of(alloc, &process.child(false))?;
        let second = KeptName::of(alloc, &process.child(true))?;
        self.names.reserve(1)?;
        self.names.remove(place);
        put(&mut self.names, second);
        put(&mut self.names, first);
        Ok(())
    }

    /// The names in which the two children of a process stand in its place.
    pub(crate) fn relabelled(&self, process: &Process) -> Result<NameList, AllocError>
        requires { length process.now < MAX_BITS }
        ensures { IfOk result (λ names. names ≡ relabel process.now self.now) }
    {
        match self.place(process) {
            Ok(place) => {
                let mut names = self.copy_with_room()?;
                names.relabel_at(place, process)?;
                Ok(names)
            }
            Err(_) => self.copy(),
        }
    }

    // The same names again, with room for one more.
    fn copy_with_room(&self) -> Result<NameList, AllocError>
        ensures { IfOk result (λ names. names ≡ self.now) }
    {
        let room = self.names.len().saturating_add(1);
        let mut names: Vec<KeptName> = Vec::with_capacity(*self.names.allocator(), room)?;
        names.extend_from_slice(self.names.as_slice())?;
        Ok(NameList { names })
    }

    /// Whether the process is named. The search begins at a place, and leaves the place behind the process.
    pub(crate) fn has_from(&self, process: &Process, place: &mut usize) -> bool
        ensures { result ≡ has self.now process.now }
    {
        match self.against_at(process, *place) {
            Ordering::Equal => {
                *place = place.saturating_add(1);
                true
            }
            Ordering::Greater if self.are_before(process, *place) => false,
            _ => self.has_by_search(process, place),
        }
    }

    // How the name at the place stands to the process; behind the last name is what comes after it.
    fn against_at(&self, process: &Process, place: usize) -> Ordering
        ensures equal { result ≡ Equal → has self.now process.now ≡ true }
        ensures greater { result ≡ Greater → AreAfter self.now place process.now }
    {
        if place < self.names.len() {
            self.names[place].against(process)
        } else {
            Ordering::Greater
        }
    }

    // Whether the names before the place come before the process: the last of them does.
    fn are_before(&self, process: &Process, place: usize) -> bool
        ensures { IsTrue result → AreBefore self.now place process.now }
    {
        place == 0 || (place <= self.names.len() && self.names[place - 1].against(process).is_lt())
    }

    // Whether the process is named. The search leaves the place behind the process.
    fn has_by_search(&self, process: &Process, place: &mut usize) -> bool
        ensures { result ≡ has self.now process.now }
    {
        match self.place(process) {
            Ok(at) => {
                *place = at.saturating_add(1);
                true
            }
            Err(at) => {
                *place = at;
                false
            }
        }
    }

    // Whether a name that is kept elsewhere is here.
    fn has_kept(&self, name: &KeptName) -> bool
        ensures { result ≡ has self.now name.now }
    {
        name.place_in(self.names.as_slice()).is_ok()
    }

    // The same. The search begins at a place, and leaves the place behind the name.
    fn has_kept_from(&self, name: &KeptName, place: &mut usize) -> bool
        ensures { result ≡ has self.now name.now }
    {
        match self.beside_at(name, *place) {
            Ordering::Equal => {
                *place = place.saturating_add(1);
                true
            }
            Ordering::Greater if self.are_before_kept(name, *place) => false,
            _ => self.has_kept_by_search(name, place),
        }
    }

    // How the name at the place stands to one that is kept elsewhere; behind the last name is what comes after it.
    fn beside_at(&self, name: &KeptName, place: usize) -> Ordering
        ensures equal { result ≡ Equal → has self.now name.now ≡ true }
        ensures greater { result ≡ Greater → AreAfter self.now place name.now }
    {
        if place < self.names.len() {
            self.names[place].beside(name)
        } else {
            Ordering::Greater
        }
    }

    // Whether the names before the place come before the name: the last of them does.
    fn are_before_kept(&self, name: &KeptName, place: usize) -> bool
        ensures { IsTrue result → AreBefore self.now place name.now }
    {
        place == 0 || (place <= self.names.len() && self.names[place - 1].beside(name).is_lt())
    }

    // Whether the name is here. The search leaves the place behind it.
    fn has_kept_by_search(&self, name: &KeptName, place: &mut usize) -> bool
        ensures { result ≡ has self.now name.now }
    {
        match self.place_kept(name) {
            Ok(at) => {
                *place = at.saturating_add(1);
                true
            }
            Err(at) => {
                *place = at;
                false
            }
        }
    }

    // Where a name that is kept elsewhere stands, or where it would have to be put.
    fn place_kept(&self, name: &KeptName) -> Result<usize, usize>
        ensures place { IsPlaceOf self.now name.now result }
        ensures in_order { IsInNameOrder self.now }
    {
        name.place_in(self.names.as_slice())
    }

    // Where the name stands, or where it would have to be put.
    fn place(&self, process: &Process) -> Result<usize, usize>
        ensures place { IsPlaceOf self.now process.now result }
        ensures in_order { IsInNameOrder self.now }
    {
        place_of(self.names.as_slice(), process)
    }
}

// The only one of the names; none where they are more, or none.
fn only_name(names: &[KeptName]) -> Option<&KeptName>
    ensures { IfSome result (λ p. names.now ≡ p.now ∷ []) }
{
    if names.len() == 1 {
        Some(&names[0])
    } else {
        None
    }
}

// Adds a name at its place, where there is room for it.
fn put(names: &mut Vec<KeptName>, name: KeptName)
    requires in_order { IsInNameOrder names.old.items }
    requires room { vec_len names.old < vec_capacity names.old }
    ensures items { names.new.items ≡ add name names.old.items }
    ensures len { vec_len names.new ≤ vec_len names.old + 1 }
    ensures capacity { vec_capacity names.old ≤ vec_capacity names.new }
{
    if let Err(place) = name.place_in(names.as_slice()) {
        names.insert(place, name).unwrap();
    }
}

// Takes a name out, where it is there.
fn take_out(names: &mut Vec<KeptName>, name: &KeptName)
    requires in_order { IsInNameOrder names.old.items }
    ensures items { names.new.items ≡ minus names.old.items (name.now ∷ []) }
    ensures len { vec_len names.new ≤ vec_len names.old }
    ensures less { IsTrue (has names.old.items name.now) → vec_len names.new < vec_len names.old }
    ensures capacity { vec_capacity names.old ≤ vec_capacity names.new }
{
    if let Ok(place) = name.place_in(names.as_slice()) {
        names.remove(place);
    }
}

// The names of two lists, in their order.
fn merged(alloc: Global, left: &[KeptName], right: &[KeptName]) -> Result<Vec<KeptName>, AllocError>
    requires left_in_order { IsInNameOrder left.now }
    requires right_in_order { IsInNameOrder right.now }
    ensures { IfOk result (λ names. names.items ≡ join left.now right.now) }
{
    let mut names = Vec::with_capacity(alloc, left.len().saturating_add(right.len()))?;
    let mut i = 0;
    let mut j = 0;
    while i < left.len() && j < right.len() {
        let first = &left[i];
        let second = &right[j];
        match first.beside(second) {
            Ordering::Less => {
                names.push(first.clone()?)?;
                i += 1;
            }
            Ordering::Equal => {
                names.push(first.clone()?)?;
                i += 1;
                j += 1;
            }
            Ordering::Greater => {
                names.push(second.clone()?)?;
                j += 1;
            }
        }
    }
    names.extend_from_slice(&left[i..])?;
    names.extend_from_slice(&right[j..])?;
    Ok(names)
}
