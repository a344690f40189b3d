// Terms as they are written, by the places of their names in the text.
ghost use Rattle.std.specs.Prelude.{◌≡◌, ◌^◌, ◌<◌, ◌∷◌, [], map, length, IfOk, MatchOption, None, OnOk, Some, min};
ghost use Rattle.kb_text.specs.Fronts.{whole, followed_tokens};
ghost use Rattle.kb_text.specs.Grammar.{term_tokens};
ghost use Rattle.kb_text.specs.Refusals.{last_alone};
ghost use Rattle.kb_term.specs.View.{tree_of};
ghost use Rattle.kb_text.specs.Written.{arguments_of};
ghost use Rattle.kb_text.specs.Problems.{names_in, term_of, variables_among};
ghost use Rattle.kb_syntax.specs.Variables.{with_found};
ghost use Rattle.kb_syntax.specs.Written.{written_of};

use crate::variables::Variables;
use kb_term::{Memory, Symbol, Term, Terms};
use kb_text::{Names, Sign};
use std::alloc::Global;
use std::marker::Model;

/// A term by the names that it is written with: a name alone, or a name with arguments in parentheses.
#[cycle(written)]
#[derive(Drop)]
pub enum WrittenTerm<'a> {
    Alone(&'a [u8]),
    Applied(&'a [u8], WrittenTerms<'a>),
}

/// The arguments of a written term.
#[cycle(written)]
#[derive(Drop)]
pub struct WrittenTerms<'a> {
    items: Vec<WrittenTerm<'a>>,
}

/// An equation as it is written.
#[derive(Drop)]
pub struct WrittenEquation<'a> {
    pub left: WrittenTerm<'a>,
    pub sign: Sign,
    pub right: WrittenTerm<'a>,
}

impl<'a> Model for WrittenTerms<'a> {
    ghost use Rattle.std.specs.Prelude.{List, map};
    ghost use Rattle.std.specs.Coded.{coded_list};
    ghost use Rattle.kb_text.specs.Grammar.{Written};
    ghost use Rattle.kb_text.specs.WrittenCoding.{coded_written};

    ghost Value = { List Written };

    ghost coded = { coded_list coded_written };

    ghost use Rattle.kb_syntax.specs.Written.{written_of};

    ghost view = { λ a. map written_of a.items.items };

    ghost use Rattle.kb_text.specs.WrittenSizes.{list_depth_in};

    ghost size = { list_depth_in };

    ghost use Rattle.kb_syntax.specs.WrittenFalls.{most_le-list_depth_in};

    ghost size_decreases = { λ a h. most_le-list_depth_in a.items.items };
}

/// How many tokens these arguments have, with a comma behind each; the greatest number where there are more.
pub(crate) fn followed_tokens(arguments: &[WrittenTerm<'_>]) -> usize
    ensures { result ≡ min (length (followed_tokens (arguments_of (map written_of arguments.now)))) usize.MAX }
{
    let mut count: usize = 0;
    for argument in arguments {
        count = count.saturating_add(argument.tokens().saturating_add(1));
    }
    count
}

impl<'a> WrittenTerms<'a> {
    /// The terms as arguments.
    pub(crate) fn new(items: Vec<WrittenTerm<'a>>) -> WrittenTerms<'a>
        ensures { result ≡ map written_of items.entry.items }
    {
        WrittenTerms { items }
    }
}

impl<'a> WrittenTerm<'a> {
    /// The name, where it stands alone.
    pub(crate) fn alone_name(&self) -> Option<&'a [u8]>
        ensures { MatchOption result (last_alone (whole (written_of self.now)) ≡ None) (λ name. last_alone (whole (written_of self.now)) ≡ Some name.now) }
    {
        match self {
            WrittenTerm::Alone(name) => Some(*name),
            WrittenTerm::Applied(_, _) => None,
        }
    }

    /// How many tokens the term has; the greatest number where there are more.
    pub(crate) fn tokens(&self) -> usize
        ensures { result ≡ min (length (term_tokens (written_of self.now))) usize.MAX }
    {
        match self {
            WrittenTerm::Alone(_) => 1,
            WrittenTerm::Applied(_, arguments) => {
                if arguments.items.is_empty() {
                    return 3;
                }
                let mut count: usize = 2;
                for argument in &arguments.items {
                    count = count.saturating_add(argument.tokens().saturating_add(1));
                }
                count
            }
        }
    }

    /// Adds the variables of the term to those of the equation, from the left.
    pub(crate) fn find_variables(&self, variables: &mut Variables) -> Result<(), Memory>
        ensures { OnOk result (variables.new ≡ with_found variables.old (variables_among variables.old.declared (names_in (written_of self.now)))) }
    {
        match self {
            WrittenTerm::Alone(name) => find_variable(variables, name),
            WrittenTerm::Applied(name, arguments) => {
                find_variable(variables, name)?;
                for argument in &arguments.items {
                    argument.find_variables(variables)?;
                }
                Ok(())
            }
        }
    }

    /// The term, with its variables and its symbols numbered by their places in these lists.
    pub(crate) fn term(
        &self,
        alloc: Global,
        variables: &Variables,
        symbols: &Names,
    ) -> Result<Term, Memory>
        requires variables { length variables.now.found < 2 ^ 16 }
        requires symbols { length symbols.now < 2 ^ 8 }
        ensures { IfOk result (λ t. tree_of t ≡ term_of variables.now.found symbols.now (written_of self.now)) }
    {
        match self {
            WrittenTerm::Alone(name) => {
                if let Some(place) = variables.place(name) {
                    return Ok(Term::Var(place as u16));
                }
                let none = Terms::new(Vec::new(alloc));
                Ok(Term::App(Symbol(symbols.number_of(name) as u8), none))
            }
            WrittenTerm::Applied(name, arguments) => {
                let mut items = Vec::with_capacity(alloc, arguments.items.len())?;
                for argument in &arguments.items {
                    items.push(argument.term(alloc, variables, symbols)?)?;
                }
                let symbol = Symbol(symbols.number_of(name) as u8);
                Ok(Term::App(symbol, Terms::new(items)))
            }
        }
    }
}

fn find_variable(variables: &mut Variables, name: &[u8]) -> Result<(), Memory>
    ensures { OnOk result (variables.new ≡ with_found variables.old (variables_among variables.old.declared (name.now ∷ []))) }
{
    if let Some(number) = variables.number(name) {
        variables.note(number)?;
    }
    Ok(())
}
