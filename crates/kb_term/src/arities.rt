// Numbers of arguments.
ghost use Rattle.std.specs.Prelude.{◌↔◌, IsTrue};
ghost use Rattle.kb_term.specs.FewArguments.{HasFewArguments};
ghost use Rattle.kb_term.specs.View.{tree_of};

use crate::term::Term;

/// Whether no symbol of the term is applied to more than 255 arguments, so that a `Position` can name each.
pub fn has_few_arguments(t: &Term) -> bool
    ensures { IsTrue result ↔ HasFewArguments (tree_of t.now) }
{
    match t {
        Term::Var(_) => true,
        Term::App(_, arguments) => {
            let items = arguments.items();
            if items.len() > 255 {
                return false;
            }
            for k in 0..items.len() {
                if !has_few_arguments(&items[k]) {
                    return false;
                }
            }
            true
        }
    }
}
