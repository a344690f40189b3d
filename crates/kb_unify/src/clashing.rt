// Symbols that clash.
ghost use Rattle.std.specs.Prelude.{◌≡◌, true};
ghost use Rattle.kb_term.specs.View.{tree_of};
ghost use Rattle.kb_unify.specs.Unifier.{IsUnifiable};

use kb_term::Term;

/// Whether two symbols, or two counts of arguments, differ at one position: nothing unifies such terms.
///
/// It takes time linear in the smaller of both, and no memory.
pub fn clashes(a: &Term, b: &Term) -> bool
    ensures { result ≡ true → ¬ IsUnifiable (tree_of a.now) (tree_of b.now) }
{
    match (a, b) {
        (Term::Var(_), _) => false,
        (Term::App(_, _), Term::Var(_)) => false,
        (Term::App(f, ts), Term::App(g, us)) => {
            let ts = ts.items();
            let us = us.items();
            if f.0 != g.0 || ts.len() != us.len() {
                return true;
            }
            for i in 0..ts.len() {
                if clashes(&ts[i], &us[i]) {
                    return true;
                }
            }
            false
        }
    }
}
