// One side of an equation, as far as it was read.
ghost use Rattle.std.specs.Prelude.{◌≡◌, ◌+◌, ◌<◌, ◌^◌, ◌∷◌, [], IfOk, IfSome, MatchOption, None, Some, bytes_eq, is_some, length, map, option_map};
ghost use Rattle.kb_text.specs.Fronts.{whole, term_front_tokens};
ghost use Rattle.kb_text.specs.Grammar.{alone, applied};
ghost use Rattle.kb_text.specs.Machine.{next_term, is_whole as whole_term};
ghost use Rattle.kb_text.specs.Refusals.{awaits_term, open_parens, last_alone, ends_next, arguments_so_far, is_some_and};
ghost use Rattle.kb_text.specs.Tokens.{identifier, left_paren, right_paren, comma};
ghost use Rattle.kb_text.specs.Starts.{mark_token};
ghost use Rattle.kb_syntax.specs.Sides.{HasTokens, inner_front, side_front, token_at, where_so, AreEnd};
ghost use Rattle.kb_text.specs.Written.{arguments_of};
ghost use Rattle.kb_syntax.specs.Written.{written_of};

use crate::written::{WrittenTerm, WrittenTerms, followed_tokens};
use kb_term::Memory;
use kb_text::{Form, Mark};
use std::alloc::Global;
use std::mem::replace;

/// An application whose closing parenthesis hasn't come, with its whole arguments.
#[derive(Drop)]
pub(crate) struct Application<'a> {
    name: &'a [u8],
    arguments: Vec<WrittenTerm<'a>>,
}

/// Where a side ends: behind a whole term, or where an argument of an application may come.
#[derive(Drop)]
pub(crate) enum Inner<'a> {
    Whole(WrittenTerm<'a>),
    Open(Application<'a>),
}

/// One side of an equation, as far as it was read: the applications around its end, from the outermost.
#[derive(Drop)]
pub(crate) struct Side<'a> {
    outer: Vec<Application<'a>>,
    inner: Inner<'a>,
}

impl<'a> Side<'a> {
    /// The side that begins with a name.
    pub(crate) fn begun(alloc: Global, name: &'a [u8]) -> Side<'a>
        ensures { side_front result ≡ whole (alone name.now) }
    {
        Side {
            outer: Vec::new(alloc),
            inner: Inner::Whole(WrittenTerm::Alone(name)),
        }
    }

    /// Whether a term may come next.
    pub(crate) fn awaits_term(&self) -> bool
        ensures { result ≡ awaits_term (side_front self.now) }
    {
        match &self.inner {
            Inner::Whole(_) => false,
            Inner::Open(_) => true,
        }
    }

    /// How many parentheses are open.
    pub(crate) fn open_parens(&self) -> usize
        ensures { result ≡ open_parens (side_front self.now) }
    {
        match &self.inner {
            Inner::Whole(_) => self.outer.len(),
            Inner::Open(_) => self.outer.len() + 1,
        }
    }

    /// The name at the end that has no parentheses, where one stands there.
    pub(crate) fn last_alone(&self) -> Option<&'a [u8]>
        ensures { MatchOption result (last_alone (side_front self.now) ≡ None) (λ name. last_alone (side_front self.now) ≡ Some name.now) }
    {
        match &self.inner {
            Inner::Whole(term) => term.alone_name(),
            Inner::Open(_) => None,
        }
    }

    /// Whether a name alone ends the side.
    pub(crate) fn ends_alone(&self) -> bool
        ensures { result ≡ is_some (last_alone (side_front self.now)) }
    {
        match self.last_alone() {
            Some(_) => true,
            None => false,
        }
    }

    /// The symbol and the number of arguments of the application that a closing parenthesis ends next.
    pub(crate) fn ends_next(&self) -> Option<(&'a [u8], usize)>
        ensures { MatchOption result (ends_next (side_front self.now) ≡ None) (λ a. AreEnd (ends_next (side_front self.now)) a.0.now a.1) }
    {
        match &self.inner {
            Inner::Whole(_) => match self.outer.last() {
                Some(around) => Some((around.name, around.arguments.len() + 1)),
                None => None,
            },
            Inner::Open(application) => {
                if application.arguments.is_empty() {
                    Some((application.name, 0))
                } else {
                    None
                }
            }
        }
    }

    /// How many arguments the innermost open application has, where its last one is whole; else 0.
    pub(crate) fn arguments_so_far(&self) -> usize
        ensures { result ≡ arguments_so_far (side_front self.now) }
    {
        match &self.inner {
            Inner::Whole(_) => match self.outer.last() {
                Some(around) => around.arguments.len() + 1,
                None => 0,
            },
            Inner::Open(_) => 0,
        }
    }

    /// Whether the side ends with this name alone.
    pub(crate) fn ends_alone_with(&self, name: &[u8]) -> bool
        ensures { result ≡ is_some_and (last_alone (side_front self.now)) (λ c. bytes_eq name.now c) }
    {
        match self.last_alone() {
            Some(last) => name == last,
            None => false,
        }
    }

    /// How many tokens the application has so far that a closing parenthesis ends next.
    pub(crate) fn ending_tokens(&self) -> usize
        requires { length (term_front_tokens (side_front self.now)) < 2 ^ 64 }
        ensures { HasTokens (ends_next (side_front self.now)) result }
    {
        match &self.inner {
            Inner::Whole(term) => match self.outer.last() {
                Some(around) => followed_tokens(&around.arguments)
                    .saturating_add(term.tokens())
                    .saturating_add(2),
                None => 0,
            },
            Inner::Open(_) => 2,
        }
    }

    /// Whether the side is a whole term.
    pub(crate) fn is_whole(&self) -> bool
        ensures { result ≡ is_some (whole_term (side_front self.now)) }
    {
        match &self.inner {
            Inner::Whole(_) => self.outer.is_empty(),
            Inner::Open(_) => false,
        }
    }

    /// The term that the side is, where it is a whole one.
    pub(crate) fn whole(self) -> Option<WrittenTerm<'a>>
        ensures { option_map written_of result ≡ whole_term (side_front self.entry) }
    {
        let Side { outer, inner } = self;
        match inner {
            Inner::Whole(term) => { if outer.is_empty() { Some(term) } else { None } }
            Inner::Open(_application) => None,
        }
    }

    /// Goes on with one more token, where the grammar has it there within the side; else the side is lost.
    pub(crate) fn next(&mut self, alloc: Global, form: Form, name: &'a [u8]) -> Result<bool, Memory>
        ensures { IfOk result (λ goes_on. where_so goes_on (side_front self.new) ≡ next_term (side_front self.old) (token_at form name.now)) }
    {
        match form {
            Form::Identifier => self.with_name(name),
            Form::Mark(mark) => self.with_mark(alloc, mark),
            Form::End => Ok(false),
        }
    }

    fn with_mark(&mut self, alloc: Global, mark: Mark) -> Result<bool, Memory>
        ensures { IfOk result (λ goes_on. where_so goes_on (side_front self.new) ≡ next_term (side_front self.old) (mark_token mark)) }
    {
        match mark {
            Mark::LeftParen => Ok(self.opened(alloc)),
            Mark::RightParen => self.closed(),
            Mark::Comma => self.parted(),
            _ => Ok(false),
        }
    }

    fn with_name(&mut self, name: &'a [u8]) -> Result<bool, Memory>
        ensures { IfOk result (λ goes_on. where_so goes_on (side_front self.new) ≡ next_term (side_front self.old) (identifier name.now)) }
    {
        match replace(&mut self.inner, Inner::Whole(WrittenTerm::Alone(name))) {
            Inner::Whole(_) => Ok(false),
            Inner::Open(application) => {
                self.outer.push(application)?;
                Ok(true)
            }
        }
    }

    fn opened(&mut self, alloc: Global) -> bool
        ensures { where_so result (side_front self.new) ≡ next_term (side_front self.old) left_paren }
    {
        match self.last_alone() {
            Some(name) => {
                self.inner = Inner::Open(Application {
                    name,
                    arguments: Vec::new(alloc),
                });
                true
            }
            None => false,
        }
    }

    fn closed(&mut self) -> Result<bool, Memory>
        ensures { IfOk result (λ goes_on. where_so goes_on (side_front self.new) ≡ next_term (side_front self.old) right_paren) }
    {
        match replace(&mut self.inner, Inner::Whole(WrittenTerm::Alone(b""))) {
            Inner::Whole(term) => match self.outer.pop() {
                Some(
                    Application {
                        name,
                        mut arguments,
                    },
                ) => {
                    arguments.reserve_exact(1)?;
                    arguments.push(term)?;
                    self.inner = applied(name, arguments);
                    Ok(true)
                }
                None => Ok(false),
            },
            Inner::Open(Application { name, arguments }) => {
                if !arguments.is_empty() {
                    return Ok(false);
                }
                self.inner = applied(name, arguments);
                Ok(true)
            }
        }
    }

    fn parted(&mut self) -> Result<bool, Memory>
        ensures { IfOk result (λ goes_on. where_so goes_on (side_front self.new) ≡ next_term (side_front self.old) comma) }
    {
        match replace(&mut self.inner, Inner::Whole(WrittenTerm::Alone(b""))) {
            Inner::Whole(term) => match self.outer.pop() {
                Some(
                    Application {
                        name,
                        mut arguments,
                    },
                ) => {
                    arguments.reserve_exact(2)?;
                    arguments.push(term)?;
                    self.inner = Inner::Open(Application { name, arguments });
                    Ok(true)
                }
                None => Ok(false),
            },
            Inner::Open(_) => Ok(false),
        }
    }
}

fn applied<'a>(name: &'a [u8], arguments: Vec<WrittenTerm<'a>>) -> Inner<'a>
    ensures { inner_front result ≡ whole (applied name.now (arguments_of (map written_of arguments.entry.items))) }
{
    Inner::Whole(WrittenTerm::Applied(name, WrittenTerms::new(arguments)))
}
