// Hashes of terms.
ghost use Rattle.std.specs.Prelude.{◌≡◌};
ghost use Rattle.kb_term.specs.View.{tree_of};
ghost use Rattle.term_bank.specs.Hashing.{mix, tree_hash, symbol_hash, variable_hash};

use kb_term::{Symbol, Term};

/// The hash of a term. It takes no memory.
pub(crate) fn term_hash(t: &Term) -> u32
    ensures { result ≡ tree_hash (tree_of t.now) }
{
    match t {
        Term::Var(n) => hash_of_variable(*n),
        Term::App(f, arguments) => {
            let items = arguments.items();
            let mut hash = hash_of_symbol(*f);
            for i in 0..items.len() {
                hash = mixed(hash, term_hash(&items[i]));
            }
            hash
        }
    }
}

/// The hash of a variable.
pub(crate) fn hash_of_variable(n: u16) -> u32
    ensures { result ≡ variable_hash n }
{
    mixed(0, 2 * n as u32)
}

/// The hash of an application before its arguments are mixed in.
pub(crate) fn hash_of_symbol(f: Symbol) -> u32
    ensures { result ≡ symbol_hash f.0 }
{
    mixed(0, 2 * f.0 as u32 + 1)
}

/// One number more in a hash. The multiplier is 2^64 over the golden ratio, as in Knuth's multiplicative hashing.
pub(crate) fn mixed(hash: u32, n: u32) -> u32
    ensures { result ≡ mix hash n }
{
    let product = (hash as u64 + n as u64).wrapping_mul(11400714819323198485);
    (product >> 32) as u32
}
