// Tables of values under their names.
ghost use Rattle.std.specs.Prelude.{◌≡◌, map};
ghost use Rattle.mkbtt_words.specs.Named.{named};

/// The first value in the table that has this name.
pub(crate) fn named_in<T: Copy>(table: &[(&str, T)], name: &str) -> Option<T>
    ensures { result ≡ named (map (λ m. (m.0.now, m.1)) table.now) name.now }
{
    for entry in table {
        if entry.0 == name {
            return Some(entry.1);
        }
    }
    None
}
