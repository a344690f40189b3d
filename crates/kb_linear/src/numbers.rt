// The numbers of rows in one list, symbol after symbol, the constant first.
ghost use Rattle.std.specs.Prelude.{◌≡◌, ◌<◌, ◌≤◌, length, slice_set, IfOk};
ghost use Rattle.kb_linear.specs.Limits.{interpretation_of};
ghost use Rattle.kb_linear.specs.Numbers.{numbers_of, shape_of, uniform};

use kb_term::{Memory, Signature, Symbol};
use std::alloc::Global;

/// The same constant for each symbol, and the same coefficient for each argument.
pub(crate) fn uniform_rows(
    alloc: Global,
    sig: &Signature,
    constant: u8,
    coefficient: u8,
) -> Result<Vec<(u8, Vec<u8>)>, Memory>
    requires { length sig.now ≤ 24 }
    ensures { IfOk result (λ rows. interpretation_of rows.items ≡ uniform sig.now constant coefficient) }
{
    let mut rows = Vec::new(alloc);
    for f in 0..sig.count() {
        let arity = sig.arity(Symbol(f as u8));
        let mut coefficients = Vec::new(alloc);
        for _ in 0..arity {
            coefficients.push(coefficient)?;
        }
        rows.push((constant, coefficients))?;
    }
    Ok(rows)
}

/// The numbers of the rows in one list.
pub(crate) fn numbers(alloc: Global, rows: &[(u8, Vec<u8>)]) -> Result<Vec<u8>, Memory>
    ensures { IfOk result (λ v. v.items ≡ numbers_of (interpretation_of rows.now)) }
{
    let mut list = Vec::new(alloc);
    for row in rows {
        list.push(row.0)?;
        list.extend_from_slice(&row.1)?;
    }
    Ok(list)
}

/// Sets the number at a place of the list.
pub(crate) fn set_number(rows: &mut Vec<(u8, Vec<u8>)>, k: usize, value: u8)
    requires { k < length (numbers_of (interpretation_of rows.old.items)) }
    ensures numbers { numbers_of (interpretation_of rows.new.items) ≡ slice_set (numbers_of (interpretation_of rows.old.items)) k value }
    ensures shape { shape_of (interpretation_of rows.new.items) ≡ shape_of (interpretation_of rows.old.items) }
{
    let mut left = k;
    for f in 0..rows.len() {
        if left == 0 {
            rows[f].0 = value;
            return;
        }
        let width = rows[f].1.len();
        if left <= width {
            rows[f].1[left - 1] = value;
            return;
        }
        left -= width + 1;
    }
}
