// Hashes of rules.
use kb_term::{Rule, Term};

/// Where a hash begins: the offset basis of FNV-1a of 64 bits.
const BASIS: u64 = 0xcbf2_9ce4_8422_2325;

/// What a hash is multiplied by for each number: the prime of FNV-1a of 64 bits.
const PRIME: u64 = 0x0000_0100_0000_01b3;

/// The hash of a rule: FNV-1a over the symbols and variables of its left and then its right side.
pub(crate) fn rule_hash(rule: &Rule) -> u64 {
    with_term(with_term(BASIS, rule.left()), rule.right())
}

fn with_term(hash: u64, t: &Term) -> u64 {
    match t {
        Term::Var(n) => with_number(hash, 2 * u64::from(*n)),
        Term::App(f, arguments) => {
            let items = arguments.items();
            let mut hash = with_number(hash, 2 * u64::from(f.0) + 1);
            for i in 0..items.len() {
                hash = with_term(hash, &items[i]);
            }
            hash
        }
    }
}

fn with_number(hash: u64, n: u64) -> u64 {
    (hash ^ n).wrapping_mul(PRIME)
}
