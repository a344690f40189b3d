// An equation, as far as it was read.
ghost use Rattle.std.specs.Prelude.{◌≡◌, [], IfOk, MatchOption, option_map, is_some, true, None, Some};
ghost use Rattle.kb_text.specs.Fronts.{whole, in_left};
ghost use Rattle.kb_text.specs.Grammar.{alone};
ghost use Rattle.kb_text.specs.Machine.{next_equation, whole_equation, sign_of as sign_in};
ghost use Rattle.kb_syntax.specs.Sides.{equation_front, equation_side, is_turn, side_front, token_at, where_so};
ghost use Rattle.kb_text.specs.Written.{sign_of};
ghost use Rattle.kb_syntax.specs.Written.{equation_of, written_of};

use crate::side::Side;
use crate::written::{WrittenEquation, WrittenTerm};
use kb_term::Memory;
use kb_text::{Form, Mark, Sign};
use std::alloc::Global;
use std::mem::replace;

/// An equation, as far as it was read: within its left side, behind its sign, or within its right side.
#[derive(Drop)]
pub(crate) enum OpenEquation<'a> {
    Left(Side<'a>),
    Sign(WrittenTerm<'a>, Sign),
    Right(WrittenTerm<'a>, Sign, Side<'a>),
}

/// The sign that a token is, where it is one.
fn sign_at(form: Form) -> Option<Sign>
    ensures { option_map sign_of result ≡ sign_in (token_at form []) }
{
    match form {
        Form::Mark(Mark::Arrow) => Some(Sign::Arrow),
        Form::Mark(Mark::Equals) => Some(Sign::Equals),
        Form::Mark(_) | Form::Identifier | Form::End => None,
    }
}

impl<'a> OpenEquation<'a> {
    /// The equation that begins with a name.
    pub(crate) fn begun(alloc: Global, name: &'a [u8]) -> OpenEquation<'a>
        ensures { equation_front result ≡ in_left (whole (alone name.now)) }
    {
        OpenEquation::Left(Side::begun(alloc, name))
    }

    /// Whether the equation is whole.
    pub(crate) fn is_whole(&self) -> bool
        ensures { result ≡ is_some (whole_equation (equation_front self.now)) }
    {
        match self {
            OpenEquation::Left(_) => false,
            OpenEquation::Sign(_, _) => false,
            OpenEquation::Right(_, _, side) => side.is_whole(),
        }
    }

    /// The equation, where it is whole.
    pub(crate) fn whole(self) -> Option<WrittenEquation<'a>>
        ensures { option_map equation_of result ≡ whole_equation (equation_front self.entry) }
    {
        match self {
            OpenEquation::Left(_side) => None,
            OpenEquation::Sign(_term, _sign) => None,
            OpenEquation::Right(left, sign, side) => match side.whole() {
                Some(right) => Some(WrittenEquation { left, sign, right }),
                None => None,
            },
        }
    }

    /// Takes the equation out, which leaves another one there.
    pub(crate) fn taken(&mut self, alloc: Global) -> OpenEquation<'a>
        ensures { equation_front result ≡ equation_front self.old }
    {
        replace(self, OpenEquation::begun(alloc, b""))
    }

    // Whether the token belongs to no side that has begun: it is a sign behind the left one, or stands behind the sign.
    fn is_turn(&self, form: Form) -> bool
        ensures { result ≡ is_turn (equation_front self.now) (token_at form []) }
    {
        match self {
            OpenEquation::Left(_) => sign_at(form).is_some(),
            OpenEquation::Sign(_, _) => true,
            OpenEquation::Right(_, _, _) => false,
        }
    }

    // The equation with such a token, where the grammar has it there.
    fn turned(self, alloc: Global, form: Form, name: &'a [u8]) -> Option<OpenEquation<'a>>
        requires { is_turn (equation_front self) (token_at form []) ≡ true }
        ensures { option_map equation_front result ≡ next_equation (equation_front self.entry) (token_at form name.now) }
    {
        match self {
            OpenEquation::Left(side) => {
                let sign = sign_at(form)?;
                match side.whole() {
                    Some(left) => Some(OpenEquation::Sign(left, sign)),
                    None => None,
                }
            }
            OpenEquation::Sign(left, sign) => {
                if form != Form::Identifier {
                    return None;
                }
                let side = Side::begun(alloc, name);
                Some(OpenEquation::Right(left, sign, side))
            }
            OpenEquation::Right(_left, _sign, _side) => None,
        }
    }

    fn turn(&mut self, alloc: Global, form: Form, name: &'a [u8]) -> bool
        requires { is_turn (equation_front self.old) (token_at form []) ≡ true }
        ensures { where_so result (equation_front self.new) ≡ next_equation (equation_front self.old) (token_at form name.now) }
    {
        match self.taken(alloc).turned(alloc, form, name) {
            Some(next) => {
                *self = next;
                true
            }
            None => false,
        }
    }

    /// Goes on with one more token, where the grammar has it there within the equation; else the equation is lost.
    pub(crate) fn next(&mut self, alloc: Global, form: Form, name: &'a [u8]) -> Result<bool, Memory>
        ensures { IfOk result (λ goes_on. where_so goes_on (equation_front self.new) ≡ next_equation (equation_front self.old) (token_at form name.now)) }
    {
        if self.is_turn(form) {
            return Ok(self.turn(alloc, form, name));
        }
        match self {
            OpenEquation::Left(side) => side.next(alloc, form, name),
            OpenEquation::Sign(_, _) => Ok(false),
            OpenEquation::Right(_, _, side) => side.next(alloc, form, name),
        }
    }

    /// The side to which the last token belongs; none behind the sign.
    pub(crate) fn side(&self) -> Option<&Side<'a>>
        ensures { MatchOption result (equation_side (equation_front self.now) ≡ None) (λ side. equation_side (equation_front self.now) ≡ Some (side_front side.now)) }
    {
        match self {
            OpenEquation::Left(side) => Some(side),
            OpenEquation::Sign(_, _) => None,
            OpenEquation::Right(_, _, side) => Some(side),
        }
    }
}
