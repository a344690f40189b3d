// What the definitions imply, as contracts of functions that do nothing.
ghost use Rattle.std.specs.Prelude.{ℕ, ◌≡◌, Contains};
ghost use Rattle.kb_term.specs.Tree.{Tree, variables_of};
ghost use Rattle.kb_term.specs.Substitution.{instance, Matches};
ghost use Rattle.kb_match.specs.Fitting.{Fits};

/// A pattern that matches a term fits it.
pub fn matching_terms_fit()
    ensures { (pattern subject : Tree) → Matches pattern subject → Fits pattern subject }
{}

/// Two substitutions by which a pattern matches a term agree on the variables of the pattern.
pub fn matches_are_one()
    ensures { (pattern subject : Tree) (m k : ℕ → Tree) → instance m pattern ≡ subject → instance k pattern ≡ subject → (n : ℕ) → Contains (variables_of pattern) n → m n ≡ k n }
{}
