// What the roots of left sides are.
ghost use Rattle.std.specs.Prelude.{◌≡◌, All, false};
ghost use Rattle.kb_term.specs.Tree.{Tree};
ghost use Rattle.kb_term.specs.Substitution.{Matches};
ghost use Rattle.kb_term.specs.View.{tree_of};
ghost use Rattle.kb_rewrite.specs.Roots.{IsNoted};

use kb_term::{Rule, Term};

/// What the roots of the left sides of rules are: which symbols, by their remainders by 32, and whether one is a variable.
///
/// At a term whose root isn't among them no rule has to be tried. They take no memory.
#[derive(Clone, Copy)]
pub(crate) struct Roots {
    symbols: [bool; 32],
    variable: bool,
}

impl Roots {
    /// The roots of the left sides of the rules.
    pub(crate) fn of(rules: &[Rule]) -> Roots
        ensures { All (λ rule. IsNoted result rule.left) rules.now }
    {
        let mut roots = Roots {
            symbols: [false; 32],
            variable: false,
        };
        for rule in rules {
            roots.note(rule.left());
        }
        roots
    }

    /// Notes the root of a left side.
    fn note(&mut self, left: &Term)
        ensures noted { IsNoted self.new (tree_of left.now) }
        ensures kept { (t : Tree) → IsNoted self.old t → IsNoted self.new t }
    {
        match left {
            Term::Var(_) => self.variable = true,
            Term::App(f, _) => self.symbols[f.0 as usize % 32] = true,
        }
    }

    /// Whether a pattern whose root is noted may match the term.
    pub(crate) fn may_match(&self, t: &Term) -> bool
        ensures { result ≡ false → (pattern : Tree) → IsNoted self.now pattern → ¬ Matches pattern (tree_of t.now) }
    {
        if self.variable {
            return true;
        }
        match t {
            Term::Var(_) => false,
            Term::App(f, _) => self.symbols[f.0 as usize % 32],
        }
    }
}
