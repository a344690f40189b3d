// Whether two terms are variants.
ghost use Rattle.std.specs.Prelude.{◌≡◌, ◌↔◌, IsTrue};
ghost use Rattle.kb_term.specs.Tree.{tree_eq};
ghost use Rattle.kb_term.specs.Substitution.{rename, IsVariant};
ghost use Rattle.kb_term.specs.Pair.{place_in};
ghost use Rattle.kb_term.specs.Paired.{stands_alike, is_paired};
ghost use Rattle.kb_term.specs.View.{tree_of};

use crate::names::Names;
use crate::term::Term;

/// Whether a renaming of variables takes the first term to the second, and one takes it back.
///
/// It takes time linear in the sizes, times a look-up among at most 64 variables, and where a term has more variables than that quadratic time.
pub fn is_variant(a: &Term, b: &Term) -> bool
    ensures { IsTrue result ↔ IsVariant (tree_of a.now) (tree_of b.now) }
{
    let forth = Names::of_term(a);
    let back = Names::of_term(b);
    if forth.len() <= 64 && back.len() <= 64 {
        named_alike(a, b, &forth, &back)
    } else {
        paired(a, b, a, b)
    }
}

/// Whether the terms are the same with each variable as its place among the names.
fn named_alike(s: &Term, t: &Term, forth: &Names, back: &Names) -> bool
    ensures { result ≡ tree_eq (rename (place_in forth.now) (tree_of s.now)) (rename (place_in back.now) (tree_of t.now)) }
{
    match (s, t) {
        (Term::Var(m), Term::Var(n)) => forth.place(*m) == back.place(*n),
        (Term::Var(_), Term::App(_, _)) => false,
        (Term::App(_, _), Term::Var(_)) => false,
        (Term::App(f, ts), Term::App(g, us)) => {
            if f.0 != g.0 || ts.items.len() != us.items.len() {
                return false;
            }
            for i in 0..ts.items.len() {
                if !named_alike(&ts.items[i], &us.items[i], forth, back) {
                    return false;
                }
            }
            true
        }
    }
}

/// Whether the terms are the same but for variables, and each variable stands in `a` exactly where the one at its place stands in `b`.
fn paired(s: &Term, t: &Term, a: &Term, b: &Term) -> bool
    ensures { result ≡ is_paired (tree_of a.now) (tree_of b.now) (tree_of s.now) (tree_of t.now) }
{
    match (s, t) {
        (Term::Var(m), Term::Var(n)) => alike(*m, *n, a, b),
        (Term::Var(_), Term::App(_, _)) => false,
        (Term::App(_, _), Term::Var(_)) => false,
        (Term::App(f, ts), Term::App(g, us)) => {
            if f.0 != g.0 || ts.items.len() != us.items.len() {
                return false;
            }
            for i in 0..ts.items.len() {
                if !paired(&ts.items[i], &us.items[i], a, b) {
                    return false;
                }
            }
            true
        }
    }
}

/// Whether the terms are the same but for variables, and `x` stands in the first exactly where `y` stands in the second.
fn alike(x: u16, y: u16, s: &Term, t: &Term) -> bool
    ensures { result ≡ stands_alike x y (tree_of s.now) (tree_of t.now) }
{
    match (s, t) {
        (Term::Var(m), Term::Var(n)) => { if *m == x { *n == y } else { *n != y } }
        (Term::Var(_), Term::App(_, _)) => false,
        (Term::App(_, _), Term::Var(_)) => false,
        (Term::App(f, ts), Term::App(g, us)) => {
            if f.0 != g.0 || ts.items.len() != us.items.len() {
                return false;
            }
            for i in 0..ts.items.len() {
                if !alike(x, y, &ts.items[i], &us.items[i]) {
                    return false;
                }
            }
            true
        }
    }
}
