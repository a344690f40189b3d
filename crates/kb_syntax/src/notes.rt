// What a reader keeps beside the place where it stands.
ghost use Rattle.std.specs.Prelude.{◌≡◌, ◌+◌, ◌<◌, ◌^◌, ◌∷◌, ◌++◌, [], IfOk, OnOk, MatchOption, None, Option, Some, cond, is_some, length, true};
ghost use Rattle.kb_text.specs.Fronts.{term_front_tokens};
ghost use Rattle.kb_text.specs.Names.{is_among};
ghost use Rattle.kb_syntax.specs.Looks.{word_row, is_one_more, with_use, with_uses};
ghost use Rattle.kb_syntax.specs.Moves.{ended_use, ended_in, alone_ended};
ghost use Rattle.kb_text.specs.Refusals.{ends_next, last_alone, has_other_arity, ended_alone};
ghost use Rattle.kb_syntax.specs.Sides.{side_front, token_at};
ghost use Rattle.kb_syntax.specs.Reader.{TellsLast, spot_row, clashes, named_notes, AreEmpty, alone_row, closing_row};
ghost use Rattle.kb_syntax.specs.Variables.{variable_number};

use crate::side::Side;
use crate::variables::Variables;
use crate::written::WrittenEquation;
use kb_term::{MAX_DEPTH, MAX_EQUATIONS, MAX_SIZE, MAX_SYMBOLS, MAX_VARIABLES, Memory};
use kb_text::{Bound, Form, Kind, Mark, Names, Uses, is_word};
use std::alloc::Global;

/// What is known of the text that was read.
#[derive(Drop)]
pub(crate) struct Notes<'a> {
    /// The declared variables, and those of the open equation.
    pub(crate) variables: Variables,
    /// The symbols, by first occurrence.
    pub(crate) symbols: Names,
    /// The first use that ended of each symbol.
    pub(crate) arities: Uses,
    /// The whole equations.
    pub(crate) equations: Vec<WrittenEquation<'a>>,
    /// Whether a section of rules is closed.
    pub(crate) has_rules: bool,
    /// How many names the open side has.
    pub(crate) size: usize,
}

/// What a name of a term is tested for: whether it begins an equation, and how many parentheses are open.
#[derive(Clone, Copy)]
pub(crate) struct Spot {
    pub(crate) begins: bool,
    pub(crate) parens: usize,
}

fn is_one_more(names: &Names, n: usize, name: &[u8]) -> bool
    ensures { result ≡ is_one_more names.now n name.now }
{
    names.len() == n && !names.contains(name)
}

/// What a name with this number shows in a section of variables.
pub(crate) fn shown_by_variable(number: Option<usize>) -> Option<Kind>
    ensures { result ≡ cond (is_some number) (Some Kind.DoubleVariable) None }
{
    match number {
        Some(_) => Some(Kind::DoubleVariable),
        None => None,
    }
}

impl<'a> Notes<'a> {
    pub(crate) fn new(alloc: Global) -> Notes<'a>
        ensures { AreEmpty result }
    {
        Notes {
            variables: Variables::new(alloc),
            symbols: Names::new(alloc),
            arities: Uses::new(alloc),
            equations: Vec::new(alloc),
            has_rules: false,
            size: 0,
        }
    }

    /// What the name of a section shows.
    pub(crate) fn shown_by_word(&self, name: &[u8]) -> Option<Kind>
        ensures { result ≡ word_row self.now.has_rules name.now }
    {
        if is_word(name, b"VAR") && self.has_rules {
            Some(Kind::BadSection)
        } else if is_word(name, b"THEORY") {
            Some(Kind::Theory)
        } else if is_word(name, b"STRATEGY") {
            Some(Kind::Strategy)
        } else {
            None
        }
    }

    /// What a name of a term shows, where so many equations have begun.
    pub(crate) fn shown_at(
        &self,
        count: usize,
        spot: Spot,
        name: &[u8],
        number: Option<usize>,
    ) -> Option<Kind>
        requires { number ≡ variable_number self.now.variables.declared name.now }
        ensures { result ≡ spot_row self.now count (spot.begins, spot.parens) name.now }
    {
        if spot.begins && count == MAX_EQUATIONS {
            return Some(Kind::Limit(Bound::Equations));
        }
        let size = if spot.begins { 0 } else { self.size };
        if size == MAX_SIZE as usize {
            return Some(Kind::Limit(Bound::Size));
        }
        if spot.parens == MAX_DEPTH as usize {
            return Some(Kind::Limit(Bound::Depth));
        }
        match number {
            Some(number) => {
                if !spot.begins && self.variables.is_one_more(MAX_VARIABLES, number) {
                    Some(Kind::Limit(Bound::Variables))
                } else {
                    None
                }
            }
            None => {
                if is_one_more(&self.symbols, MAX_SYMBOLS, name) {
                    Some(Kind::Limit(Bound::Symbols))
                } else {
                    None
                }
            }
        }
    }

    /// Whether another arity than this is known of the name.
    pub(crate) fn clashes(&self, name: &[u8], count: usize) -> bool
        ensures { result ≡ clashes self.now name.now count }
    {
        match self.arities.first(name) {
            Some(arity) => arity != count && !self.variables.contains(name),
            None => false,
        }
    }

    /// Notes a use that ended.
    pub(crate) fn end_use(&mut self, alloc: Global, name: &[u8], count: usize) -> Result<(), Memory>
        ensures { OnOk result (self.new ≡ record self.old { arities = with_use self.old.variables.declared self.old.arities (name.now, count) }) }
    {
        if self.arities.first(name).is_some() || self.variables.contains(name) {
            return Ok(());
        }
        self.arities.push(Vec::from_slice(alloc, name)?, count)
    }

    // Notes the use of a name alone that a token ends in a side.
    fn end_alone(
        &mut self,
        alloc: Global,
        side: &Side<'a>,
        form: Form,
        is_variable: bool,
    ) -> Result<(), Memory>
        requires { TellsLast self.old.variables.declared (Some (side_front side.now)) is_variable }
        ensures { OnOk result (self.new ≡ record self.old { arities = with_uses self.old.variables.declared self.old.arities (alone_ended (side_front side.now) (token_at form [])) }) }
    {
        if is_variable || form == Form::Mark(Mark::LeftParen) {
            return Ok(());
        }
        match side.last_alone() {
            Some(name) => self.end_use(alloc, name, 0),
            None => Ok(()),
        }
    }

    // Notes the use that a closing parenthesis ends in a side.
    fn end_closing(&mut self, alloc: Global, side: &Side<'a>, form: Form) -> Result<(), Memory>
        ensures { OnOk result (self.new ≡ record self.old { arities = with_uses self.old.variables.declared self.old.arities (ended_use (ends_next (side_front side.now)) (token_at form [])) }) }
    {
        if form != Form::Mark(Mark::RightParen) {
            return Ok(());
        }
        match side.ends_next() {
            Some((name, count)) => self.end_use(alloc, name, count),
            None => Ok(()),
        }
    }

    /// Notes the uses that a token ends in a side; whether a name alone at its end is a variable is told.
    pub(crate) fn end_uses(
        &mut self,
        alloc: Global,
        side: &Side<'a>,
        form: Form,
        is_variable: bool,
    ) -> Result<(), Memory>
        requires { TellsLast self.old.variables.declared (Some (side_front side.now)) is_variable }
        ensures { OnOk result (self.new ≡ record self.old { arities = with_uses self.old.variables.declared self.old.arities (ended_in (side_front side.now) (token_at form [])) }) }
    {
        self.end_alone(alloc, side, form, is_variable)?;
        self.end_closing(alloc, side, form)
    }

    /// Notes a name of a term.
    pub(crate) fn add_name(
        &mut self,
        alloc: Global,
        spot: Spot,
        name: &[u8],
        number: Option<usize>,
    ) -> Result<(), Memory>
        requires size { self.old.size < 2 ^ 32 }
        requires number { number ≡ variable_number self.old.variables.declared name.now }
        ensures { OnOk result (self.new ≡ named_notes self.old (spot.begins, spot.parens) name.now) }
    {
        if spot.begins {
            self.variables.begin();
            self.size = 0;
        }
        self.size += 1;
        match number {
            Some(number) => self.variables.note(number),
            None => self.symbols.add(alloc, name),
        }
    }

    /// Notes that a section of rules is closed.
    pub(crate) fn end_rules(&mut self)
        ensures { self.new ≡ record self.old { has_rules = true; variables = record self.old.variables { found = [] }; size = 0 } }
    {
        self.has_rules = true;
        self.variables.begin();
        self.size = 0;
    }

    /// Whether a name alone ends the side, of which another arity than 0 is known.
    pub(crate) fn alone_clash(&self, side: &Side<'a>, is_variable: bool) -> Option<usize>
        requires { TellsLast self.now.variables.declared (Some (side_front side.now)) is_variable }
        ensures { result ≡ alone_row self.now (last_alone (side_front side.now)) }
    {
        if is_variable {
            return None;
        }
        let name = side.last_alone()?;
        if self.clashes(name, 0) { Some(1) } else { None }
    }

    // Whether the application that ends next, or a name alone before it, has another arity than is known.
    fn closing_clashes(&self, side: &Side<'a>, name: &[u8], count: usize) -> bool
        ensures { result ≡ has_other_arity (self.now.arities ++ ended_alone (last_alone (side_front side.now))) name.now count }
    {
        match self.arities.first(name) {
            Some(arity) => arity != count,
            None => count != 0 && side.ends_alone_with(name),
        }
    }

    /// How many tokens before a closing parenthesis the symbol stands of the application that it ends, where another arity is known of it.
    pub(crate) fn closing_clash(&self, side: &Side<'a>) -> Option<usize>
        requires { length (term_front_tokens (side_front side.now)) < 2 ^ 64 }
        ensures { result ≡ closing_row self.now (last_alone (side_front side.now)) (ends_next (side_front side.now)) }
    {
        let (name, count) = side.ends_next()?;
        if self.closing_clashes(side, name, count) {
            Some(side.ending_tokens())
        } else {
            None
        }
    }
}
