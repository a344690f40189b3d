// Linear forms.
ghost use Rattle.std.specs.Prelude.{ℕ, suc, ◌≡◌, ◌+◌, ◌*◌, ◌^◌, ◌≤◌, ◌<◌, IsTrue, ◌↔◌, All};
ghost use Rattle.kb_term.specs.Tree.{tree_size, tree_depth, variables_of};
ghost use Rattle.kb_term.specs.View.{tree_of};
ghost use Rattle.kb_linear.specs.LinearOrder.{linear_value};
ghost use Rattle.kb_linear.specs.Limits.{IsSmall, interpretation_of};
ghost use Rattle.kb_linear.specs.Forms.{form_value};

use kb_term::Term;

/// A linear form: a constant and the coefficients of the variables by number.
#[derive(Drop)]
pub(crate) struct LinearForm {
    constant: u128,
    coefficients: [u128; 64],
}

impl LinearForm {
    /// The form that is 0 everywhere.
    pub(crate) fn new() -> LinearForm
        ensures { (a : ℕ → ℕ) → form_value result a ≡ 0 }
    {
        LinearForm {
            constant: 0,
            coefficients: [0; 64],
        }
    }

    /// Adds a multiple of the value of the term.
    pub(crate) fn add(&mut self, rows: &[(u8, Vec<u8>)], t: &Term, scale: u128)
        requires small { IsSmall (interpretation_of rows.now) }
        requires variables { All (λ n. n < 64) (variables_of (tree_of t.now)) }
        requires scale_fits { scale * 3 ^ tree_depth (tree_of t.now) ≤ 3 ^ 64 }
        requires sum_fits { form_value self.old (λ _. 1) + 16 * 3 ^ 64 * tree_size (tree_of t.now) ≤ 16 * 3 ^ 64 * 512 }
        ensures { (a : ℕ → ℕ) → form_value self.new a ≡ form_value self.old a + scale * linear_value (interpretation_of rows.now) a (tree_of t.now) }
    {
        match t {
            Term::Var(n) => {
                self.coefficients[*n as usize] += scale;
            }
            Term::App(f, arguments) => {
                if (f.0 as usize) < rows.len() {
                    let row = &rows[f.0 as usize];
                    self.constant += scale * u128::from(row.0);
                    let items = arguments.items();
                    for j in 0..items.len().min(row.1.len()) {
                        self.add(rows, &items[j], scale * u128::from(row.1[j]));
                    }
                }
            }
        }
    }

    /// Whether the value of this form is greater than that of the other, whatever the variables' values.
    pub(crate) fn exceeds(&self, other: &LinearForm) -> bool
        ensures { IsTrue result ↔ ((a : ℕ → ℕ) → form_value other.now a < form_value self.now a) }
    {
        if self.constant <= other.constant {
            return false;
        }
        for k in 0..64 {
            if self.coefficients[k] < other.coefficients[k] {
                return false;
            }
        }
        true
    }
}
