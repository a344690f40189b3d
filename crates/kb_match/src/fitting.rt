// Whether a pattern fits a term.
ghost use Rattle.std.specs.Prelude.{◌↔◌, IsTrue};
ghost use Rattle.kb_term.specs.View.{tree_of};
ghost use Rattle.kb_match.specs.Fitting.{Fits};

use kb_term::Term;

/// Whether the pattern fits the term: it is a variable, or both are applications of one symbol and each argument fits.
///
/// A pattern that matches a term fits it. It takes time linear in the smaller of both, and no memory.
pub fn fits(pattern: &Term, subject: &Term) -> bool
    ensures { IsTrue result ↔ Fits (tree_of pattern.now) (tree_of subject.now) }
{
    match (pattern, subject) {
        (Term::Var(_), _) => true,
        (Term::App(_, _), Term::Var(_)) => false,
        (Term::App(f, patterns), Term::App(g, subjects)) => {
            let patterns = patterns.items();
            let subjects = subjects.items();
            if f.0 != g.0 || patterns.len() != subjects.len() {
                return false;
            }
            for i in 0..patterns.len() {
                if !fits(&patterns[i], &subjects[i]) {
                    return false;
                }
            }
            true
        }
    }
}
