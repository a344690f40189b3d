// What is said of a name that is in no table.
use std::alloc::{AllocError, Global};
use strsim::jaro;

// The name in the table that is most like this one, if any is.
fn similar_name<'a, T: Copy>(
    alloc: Global,
    table: &[(&'a str, T)],
    name: &str,
) -> Result<Option<&'a str>, AllocError> {
    let mut best = None;
    let mut most = 0.7;
    for entry in table {
        let likeness = jaro(alloc, name, entry.0)?;
        if likeness > most {
            most = likeness;
            best = Some(entry.0);
        }
    }
    Ok(best)
}

// Adds the names in the table.
fn push_names<T: Copy>(message: &mut String, table: &[(&str, T)]) -> Result<(), AllocError> {
    let mut before = "\n  [possible values: ";
    for entry in table {
        message.push_str(before)?;
        message.push_str(entry.0)?;
        before = ", ";
    }
    message.push_str("]")
}

/// The message for a name that is none of those in the table, in the words that `clap` has for a value of the argument.
///
/// # Errors
///
/// Want of memory.
pub(crate) fn name_message<T: Copy>(
    alloc: Global,
    argument: &str,
    table: &[(&str, T)],
    name: &str,
) -> Result<String, AllocError> {
    let mut message = if name.is_empty() {
        format!(in alloc; "error: a value is required for '{argument}' but none was supplied")?
    } else {
        format!(in alloc; "error: invalid value '{name}' for '{argument}'")?
    };
    push_names(&mut message, table)?;
    if let Some(similar) = similar_name(alloc, table, name)? {
        write!(message, "\n\n  tip: a similar value exists: '{similar}'")?;
    }
    message.push_str("\n\nFor more information, try '--help'.\n")?;
    Ok(message)
}
