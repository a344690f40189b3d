// A text, as far as it was read.
ghost use Rattle.std.specs.Prelude.{◌≡◌, ◌+◌, ◌<◌, ◌^◌, ◌∷◌, ◌++◌, [], IfOk, IfSome, OnOk, MatchOption, None, Option, Some, cond, is_some, false, true, length, map, option_map, option_to_list};
ghost use Rattle.kb_syntax.specs.Looks.{at_equation, at_skipped, look_side, spot_at, spot_in, end_row, mark_row, rules_row, next_look, added_variables, added_equations, ends_rules, word_look, at_rules, at_variables, at_word, outside, depth_of};
ghost use Rattle.kb_text.specs.Machine.{whole_equation};
ghost use Rattle.kb_syntax.specs.Reader.{TellsLast, place_look, count_at, is_sign, is_ended, stays, IsPassed, HasSameNotes, IsNextReader, IsShortSide, AreEmpty, use_notes, name_notes, name_row, own_name_row, at_a_spot, own_row, clash_row, applied_row, shown_row};
ghost use Rattle.kb_text.specs.Refusals.{back};
ghost use Rattle.kb_syntax.specs.Sides.{equation_front, side_front, token_at, where_so};
ghost use Rattle.kb_text.specs.Starts.{mark_token};
ghost use Rattle.kb_syntax.specs.Variables.{number_at, variable_number};
ghost use Rattle.kb_syntax.specs.Written.{equation_of};

use crate::equation::OpenEquation;
use crate::notes::{Notes, Spot, shown_by_variable};
use crate::side::Side;
use kb_term::{MAX_ARITY, MAX_NAME_BYTES, Memory};
use kb_text::{Bound, Form, Kind, Mark, is_word};
use std::alloc::Global;

/// Where a text ends, as far as it was read.
#[derive(Drop)]
pub(crate) enum Place<'a> {
    /// Behind whole sections.
    Outside,
    /// Behind the parenthesis of a section.
    Word,
    /// In a section of variables.
    Variables,
    /// In a section of rules, before its first equation.
    Rules,
    /// In an equation.
    Equation(OpenEquation<'a>),
    /// In a skipped section, with so many open parentheses beside its own.
    Skipped(usize),
}

/// A text, as far as it was read.
#[derive(Drop)]
pub(crate) struct Reader<'a> {
    pub(crate) notes: Notes<'a>,
    pub(crate) place: Place<'a>,
}

// What a name in this equation is tested for, where a term may begin.
fn spot_in(equation: &OpenEquation<'_>) -> Option<Spot>
    ensures { option_map (λ s. (s.begins, s.parens)) result ≡ spot_in (equation_front equation.now) }
{
    match equation {
        OpenEquation::Left(side) => {
            if side.awaits_term() {
                Some(Spot {
                    begins: false,
                    parens: side.open_parens(),
                })
            } else {
                None
            }
        }
        OpenEquation::Sign(_, _) => Some(Spot {
            begins: false,
            parens: 0,
        }),
        OpenEquation::Right(_, _, side) => {
            if side.awaits_term() {
                Some(Spot {
                    begins: false,
                    parens: side.open_parens(),
                })
            } else {
                Some(Spot {
                    begins: true,
                    parens: 0,
                })
            }
        }
    }
}

fn shown_in_rules(mark: Mark) -> Option<Kind>
    ensures { result ≡ rules_row (mark_token mark) }
{
    match mark {
        Mark::ArrowEquals => Some(Kind::Relative),
        Mark::Bar => Some(Kind::Conditional),
        _ => None,
    }
}

fn shown_in_equation(equation: &OpenEquation<'_>, mark: Mark) -> Option<Kind>
    ensures { result ≡ mark_row (at_equation (equation_front equation.now)) (mark_token mark) }
{
    if mark != Mark::Comma {
        return shown_in_rules(mark);
    }
    let side = equation.side()?;
    if side.arguments_so_far() == MAX_ARITY {
        Some(Kind::Limit(Bound::Arity))
    } else {
        None
    }
}

impl<'a> Place<'a> {
    // What a name of a term is tested for, where a term may begin.
    fn spot(&self) -> Option<Spot>
        ensures { option_map (λ s. (s.begins, s.parens)) result ≡ spot_at (place_look self.now) }
    {
        match self {
            Place::Rules => Some(Spot {
                begins: true,
                parens: 0,
            }),
            Place::Equation(equation) => spot_in(equation),
            Place::Outside => None,
            Place::Word => None,
            Place::Variables => None,
            Place::Skipped(_) => None,
        }
    }

    fn shown_by_end(&self, has_rules: bool) -> Option<Kind>
        ensures { result ≡ end_row (place_look self.now) has_rules }
    {
        match self {
            Place::Outside => {
                if has_rules {
                    None
                } else {
                    Some(Kind::BadSection)
                }
            }
            Place::Word => Some(Kind::Unclosed),
            Place::Variables => Some(Kind::Unclosed),
            Place::Rules => Some(Kind::Unclosed),
            Place::Equation(_) => Some(Kind::Unclosed),
            Place::Skipped(_) => Some(Kind::Unclosed),
        }
    }

    fn shown_by_mark(&self, mark: Mark) -> Option<Kind>
        ensures { result ≡ mark_row (place_look self.now) (mark_token mark) }
    {
        match self {
            Place::Outside => None,
            Place::Word => Some(Kind::BadSection),
            Place::Variables => None,
            Place::Rules => shown_in_rules(mark),
            Place::Equation(equation) => shown_in_equation(equation, mark),
            Place::Skipped(_) => None,
        }
    }

    /// The side to which the last token belongs.
    fn side(&self) -> Option<&Side<'a>>
        ensures { MatchOption result (look_side (place_look self.now) ≡ None) (λ side. look_side (place_look self.now) ≡ Some (side_front side.now)) }
    {
        match self {
            Place::Equation(equation) => equation.side(),
            Place::Outside => None,
            Place::Word => None,
            Place::Variables => None,
            Place::Rules => None,
            Place::Skipped(_) => None,
        }
    }

    // How many equations have begun.
    fn count(&self, notes: &Notes<'a>) -> usize
        requires { length notes.now.equations.items < 2 ^ 63 }
        ensures { result ≡ count_at notes.now (place_look self.now) }
    {
        match self {
            Place::Equation(_) => notes.equations.len() + 1,
            Place::Outside => notes.equations.len(),
            Place::Word => notes.equations.len(),
            Place::Variables => notes.equations.len(),
            Place::Rules => notes.equations.len(),
            Place::Skipped(_) => notes.equations.len(),
        }
    }
}

// The place behind the name of a section.
fn behind_word<'a>(name: &[u8]) -> Option<Place<'a>>
    ensures { option_map place_look result ≡ word_look name.now }
{
    if is_word(name, b"VAR") {
        Some(Place::Variables)
    } else if is_word(name, b"RULES") {
        Some(Place::Rules)
    } else if is_word(name, b"THEORY") || is_word(name, b"STRATEGY") {
        None
    } else {
        Some(Place::Skipped(0))
    }
}

fn next_skipped<'a>(depth: usize, form: Form) -> Option<Place<'a>>
    requires { depth < 2 ^ 63 }
    ensures { option_map place_look result ≡ next_look (at_skipped depth) (token_at form []) }
{
    match form {
        Form::Identifier => Some(Place::Skipped(depth)),
        Form::End => None,
        Form::Mark(Mark::LeftParen) => Some(Place::Skipped(depth + 1)),
        Form::Mark(Mark::RightParen) => {
            if depth == 0 {
                Some(Place::Outside)
            } else {
                Some(Place::Skipped(depth - 1))
            }
        }
        Form::Mark(_) => Some(Place::Skipped(depth)),
    }
}

fn is_sign(form: Form) -> bool
    ensures { result ≡ is_sign (token_at form []) }
{
    form == Form::Mark(Mark::Arrow) || form == Form::Mark(Mark::Equals)
}

// Whether the token ends the equation: it is whole, and a name or a closing parenthesis stands behind it.
fn is_ended(equation: &OpenEquation<'_>, form: Form) -> bool
    ensures { result ≡ is_ended (equation_front equation.now) (token_at form []) }
{
    equation.is_whole() && (form == Form::Identifier || form == Form::Mark(Mark::RightParen))
}

impl<'a> Notes<'a> {
    // Notes a whole equation.
    fn end_equation(&mut self, equation: OpenEquation<'a>) -> Result<(), Memory>
        ensures equations { OnOk result (map equation_of self.new.equations.items ≡ map equation_of self.old.equations.items ++ option_to_list (whole_equation (equation_front equation.entry))) }
        ensures others { OnOk result (HasSameNotes self.old self.new) }
    {
        if let Some(whole) = equation.whole() {
            self.equations.push(whole)?;
        }
        Ok(())
    }

    fn pass_sign(&mut self, form: Form)
        ensures { self.new ≡ record self.old { size = cond (is_sign (token_at form [])) 0 self.old.size } }
    {
        if is_sign(form) {
            self.size = 0;
        }
    }

    // Goes on with one more token of an equation, which doesn't end it.
    fn go_on(
        &mut self,
        alloc: Global,
        equation: &mut OpenEquation<'a>,
        form: Form,
        name: &'a [u8],
    ) -> Result<bool, Memory>
        requires { is_ended (equation_front equation.old) (token_at form name.now) ≡ false }
        ensures place { IfOk result (λ goes_on. where_so goes_on (at_equation (equation_front equation.new)) ≡ next_look (at_equation (equation_front equation.old)) (token_at form name.now)) }
        ensures passed { OnOk result (IsPassed self.old (at_equation (equation_front equation.old)) (token_at form name.now) self.new) }
    {
        self.pass_sign(form);
        equation.next(alloc, form, name)
    }

    // The place behind a token that ends an equation.
    fn behind_equation(
        &mut self,
        alloc: Global,
        equation: OpenEquation<'a>,
        form: Form,
        name: &'a [u8],
    ) -> Result<Place<'a>, Memory>
        requires { is_ended (equation_front equation) (token_at form name.now) ≡ true }
        ensures place { IfOk result (λ next. Some (place_look next) ≡ next_look (at_equation (equation_front equation.entry)) (token_at form name.now)) }
        ensures passed { OnOk result (IsPassed self.old (at_equation (equation_front equation.entry)) (token_at form name.now) self.new) }
    {
        self.end_equation(equation)?;
        if form == Form::Identifier {
            Ok(Place::Equation(OpenEquation::begun(alloc, name)))
        } else {
            self.end_rules();
            Ok(Place::Outside)
        }
    }

    // The place behind one more token in a section of rules, before its first equation.
    fn next_in_rules(&mut self, alloc: Global, form: Form, name: &'a [u8]) -> Option<Place<'a>>
        ensures place { option_map place_look result ≡ next_look at_rules (token_at form name.now) }
        ensures passed { IfSome result (λ place. IsPassed self.old at_rules (token_at form name.now) self.new) }
    {
        match form {
            Form::Identifier => Some(Place::Equation(OpenEquation::begun(alloc, name))),
            Form::Mark(Mark::RightParen) => {
                self.end_rules();
                Some(Place::Outside)
            }
            Form::Mark(_) => None,
            Form::End => None,
        }
    }

    // The place behind one more token in a section of variables.
    fn next_in_variables(
        &mut self,
        alloc: Global,
        form: Form,
        name: &'a [u8],
    ) -> Result<Option<Place<'a>>, Memory>
        ensures place { IfOk result (λ next. option_map place_look next ≡ next_look at_variables (token_at form name.now)) }
        ensures passed { IfOk result (λ next. IfSome next (λ place. IsPassed self.old at_variables (token_at form name.now) self.new)) }
    {
        match form {
            Form::Identifier => {
                self.variables.add(Vec::from_slice(alloc, name)?)?;
                Ok(Some(Place::Variables))
            }
            Form::Mark(Mark::RightParen) => Ok(Some(Place::Outside)),
            Form::Mark(_) => Ok(None),
            Form::End => Ok(None),
        }
    }
}

impl<'a> Notes<'a> {
    fn end_uses_at(
        &mut self,
        alloc: Global,
        place: &Place<'a>,
        form: Form,
        is_variable: bool,
    ) -> Result<(), Memory>
        requires { TellsLast self.old.variables.declared (look_side (place_look place.now)) is_variable }
        ensures { OnOk result (self.new ≡ use_notes self.old (place_look place.now) (token_at form [])) }
    {
        match place.side() {
            Some(side) => self.end_uses(alloc, side, form, is_variable),
            None => Ok(()),
        }
    }

    fn name_at(
        &mut self,
        alloc: Global,
        place: &Place<'a>,
        form: Form,
        name: &'a [u8],
        number: Option<usize>,
    ) -> Result<(), Memory>
        requires size { self.old.size < 2 ^ 32 }
        requires number { number ≡ number_at self.old.variables.declared (token_at form name.now) }
        ensures { OnOk result (self.new ≡ name_notes self.old (spot_at (place_look place.now)) (token_at form name.now)) }
    {
        if form != Form::Identifier {
            return Ok(());
        }
        match place.spot() {
            Some(spot) => self.add_name(alloc, spot, name, number),
            None => Ok(()),
        }
    }

    // The place behind one more token in an equation that it ends, or outside of one; none where the grammar doesn't have it there.
    fn next_place(
        &mut self,
        alloc: Global,
        place: &mut Place<'a>,
        form: Form,
        name: &'a [u8],
    ) -> Result<Option<Place<'a>>, Memory>
        requires depth { depth_of (place_look place.old) < 2 ^ 63 }
        requires ended { stays (place_look place.old) (token_at form []) ≡ false }
        ensures place { IfOk result (λ next. option_map place_look next ≡ next_look (place_look place.old) (token_at form name.now)) }
        ensures passed { IfOk result (λ next. IfSome next (λ after. IsPassed self.old (place_look place.old) (token_at form name.now) self.new)) }
    {
        match place {
            Place::Outside => Ok(next_outside(form)),
            Place::Word => Ok(next_word(form, name)),
            Place::Variables => self.next_in_variables(alloc, form, name),
            Place::Rules => Ok(self.next_in_rules(alloc, form, name)),
            Place::Equation(equation) => {
                let whole = equation.taken(alloc);
                Ok(Some(self.behind_equation(alloc, whole, form, name)?))
            }
            Place::Skipped(depth) => Ok(next_skipped(*depth, form)),
        }
    }

    // Goes on behind one more token, where the grammar has it there; else the place is lost.
    fn pass(
        &mut self,
        alloc: Global,
        place: &mut Place<'a>,
        form: Form,
        name: &'a [u8],
    ) -> Result<bool, Memory>
        requires { depth_of (place_look place.old) < 2 ^ 63 }
        ensures place { IfOk result (λ goes_on. where_so goes_on (place_look place.new) ≡ next_look (place_look place.old) (token_at form name.now)) }
        ensures passed { IfOk result (λ goes_on. goes_on ≡ true → IsPassed self.old (place_look place.old) (token_at form name.now) self.new) }
    {
        if let Place::Equation(equation) = place {
            if !is_ended(equation, form) {
                return self.go_on(alloc, equation, form, name);
            }
        }
        match self.next_place(alloc, place, form, name)? {
            Some(next) => {
                *place = next;
                Ok(true)
            }
            None => Ok(false),
        }
    }
}

fn next_outside<'a>(form: Form) -> Option<Place<'a>>
    ensures { option_map place_look result ≡ next_look outside (token_at form []) }
{
    match form {
        Form::Mark(Mark::LeftParen) => Some(Place::Word),
        Form::Mark(_) => None,
        Form::Identifier => None,
        Form::End => None,
    }
}

fn next_word<'a>(form: Form, name: &[u8]) -> Option<Place<'a>>
    ensures { option_map place_look result ≡ next_look at_word (token_at form name.now) }
{
    match form {
        Form::Identifier => behind_word(name),
        Form::Mark(_) => None,
        Form::End => None,
    }
}

impl<'a> Reader<'a> {
    /// The reader of the empty text.
    pub(crate) fn new(alloc: Global) -> Reader<'a>
        ensures notes { AreEmpty result.notes }
        ensures place { place_look result.place ≡ outside }
    {
        Reader {
            notes: Notes::new(alloc),
            place: Place::Outside,
        }
    }

    /// Goes on with one more token, where the grammar has it there; else the reader is lost.
    pub(crate) fn next(
        &mut self,
        alloc: Global,
        form: Form,
        name: &'a [u8],
        number: Option<usize>,
        last_is_variable: bool,
    ) -> Result<bool, Memory>
        requires last { TellsLast self.old.notes.variables.declared (look_side (place_look self.old.place)) last_is_variable }
        requires number { number ≡ number_at self.old.notes.variables.declared (token_at form name.now) }
        requires size { self.old.notes.size < 2 ^ 32 }
        requires depth { depth_of (place_look self.old.place) < 2 ^ 63 }
        ensures { IfOk result (λ goes_on. IsNextReader self.old (token_at form name.now) (where_so goes_on self.new)) }
    {
        self.notes
            .end_uses_at(alloc, &self.place, form, last_is_variable)?;
        self.notes.name_at(alloc, &self.place, form, name, number)?;
        let goes_on = self.notes.pass(alloc, &mut self.place, form, name)?;
        Ok(goes_on)
    }

    /// The number among the declared variables of the name that the token is, where it is one.
    pub(crate) fn number(&self, form: Form, name: &[u8]) -> Option<usize>
        ensures { result ≡ number_at self.now.notes.variables.declared (token_at form name.now) }
    {
        match form {
            Form::Identifier => self.notes.variables.number(name),
            Form::Mark(_) => None,
            Form::End => None,
        }
    }

    // What the token shows at its own place.
    fn shown_here(&self, form: Form, name: &[u8], number: Option<usize>) -> Option<Kind>
        requires number { number ≡ number_at self.now.notes.variables.declared (token_at form name.now) }
        requires equations { length self.now.notes.equations.items < 2 ^ 63 }
        ensures { result ≡ own_row self.now.notes (place_look self.now.place) (token_at form name.now) }
    {
        match form {
            Form::Identifier => self.shown_by_name(name, number),
            Form::Mark(mark) => self.place.shown_by_mark(mark),
            Form::End => self.place.shown_by_end(self.notes.has_rules),
        }
    }

    fn shown_by_name(&self, name: &[u8], number: Option<usize>) -> Option<Kind>
        requires number { number ≡ variable_number self.now.notes.variables.declared name.now }
        requires equations { length self.now.notes.equations.items < 2 ^ 63 }
        ensures { result ≡ name_row self.now.notes (place_look self.now.place) name.now }
    {
        if let Place::Skipped(_) = &self.place {
            return None;
        }
        if name.len() > MAX_NAME_BYTES {
            return Some(Kind::Limit(Bound::Name));
        }
        self.shown_by_short_name(name, number)
    }

    fn shown_by_short_name(&self, name: &[u8], number: Option<usize>) -> Option<Kind>
        requires number { number ≡ variable_number self.now.notes.variables.declared name.now }
        requires equations { length self.now.notes.equations.items < 2 ^ 63 }
        ensures { result ≡ own_name_row self.now.notes (place_look self.now.place) name.now }
    {
        match &self.place {
            Place::Outside => None,
            Place::Word => self.notes.shown_by_word(name),
            Place::Variables => shown_by_variable(number),
            Place::Rules => self.shown_in_term(name, number),
            Place::Equation(_) => self.shown_in_term(name, number),
            Place::Skipped(_) => None,
        }
    }

    fn shown_in_term(&self, name: &[u8], number: Option<usize>) -> Option<Kind>
        requires number { number ≡ variable_number self.now.notes.variables.declared name.now }
        requires equations { length self.now.notes.equations.items < 2 ^ 63 }
        ensures { result ≡ at_a_spot self.now.notes (count_at self.now.notes (place_look self.now.place)) (spot_at (place_look self.now.place)) name.now }
    {
        match self.place.spot() {
            Some(spot) => self
                .notes
                .shown_at(self.place.count(&self.notes), spot, name, number),
            None => None,
        }
    }

    // How many tokens before the token the name stands whose use it ends with another arity than is known.
    fn clash(&self, form: Form, last_is_variable: bool) -> Option<usize>
        requires last { TellsLast self.now.notes.variables.declared (look_side (place_look self.now.place)) last_is_variable }
        requires side { IsShortSide (look_side (place_look self.now.place)) }
        ensures { result ≡ clash_row self.now.notes (look_side (place_look self.now.place)) (token_at form []) }
    {
        let side = self.place.side()?;
        if form == Form::Mark(Mark::RightParen) {
            if let Some(back) = self.notes.closing_clash(side) {
                return Some(back);
            }
        }
        if form == Form::Mark(Mark::LeftParen) {
            return None;
        }
        self.notes.alone_clash(side, last_is_variable)
    }

    // Whether the token is a parenthesis behind a variable.
    fn applies_variable(&self, form: Form, last_is_variable: bool) -> bool
        requires { TellsLast self.now.notes.variables.declared (look_side (place_look self.now.place)) last_is_variable }
        ensures { result ≡ applied_row self.now.notes (look_side (place_look self.now.place)) (token_at form []) }
    {
        if form != Form::Mark(Mark::LeftParen) {
            return false;
        }
        match self.place.side() {
            Some(side) => last_is_variable && side.ends_alone(),
            None => false,
        }
    }

    /// What the token shows that the grammar may have there, and how many tokens before it the place is.
    pub(crate) fn shown(
        &self,
        form: Form,
        name: &[u8],
        number: Option<usize>,
        last_is_variable: bool,
    ) -> Option<(Kind, usize)>
        requires last { TellsLast self.now.notes.variables.declared (look_side (place_look self.now.place)) last_is_variable }
        requires number { number ≡ number_at self.now.notes.variables.declared (token_at form name.now) }
        requires equations { length self.now.notes.equations.items < 2 ^ 63 }
        requires side { IsShortSide (look_side (place_look self.now.place)) }
        ensures { result ≡ shown_row self.now.notes (place_look self.now.place) form name.now }
    {
        if let Some(back) = self.clash(form, last_is_variable) {
            return Some((Kind::ArityClash, back));
        }
        if self.applies_variable(form, last_is_variable) {
            return Some((Kind::VariableApplied, 1));
        }
        match self.shown_here(form, name, number) {
            Some(kind) => Some((kind, 0)),
            None => None,
        }
    }
}
