// The words that say what is shown.
ghost use Rattle.std.specs.Prelude.{◌≡◌, IfOk, map};
ghost use Rattle.mkbtt_shown.specs.Manners.{is_among, is_of_manner as is_manner_word, manner_of as manner_by, others_of, progress_in};

use kb_term::Memory;
use std::alloc::Global;

/// How it is shown that a run goes on.
#[derive(Clone, Copy, Debug, PartialEq, Eq)]
pub enum Progress {
    /// Not at all.
    Hidden,
    /// By a line each second.
    Lines,
    /// By one line of a terminal, which is written anew each second.
    InPlace,
}

/// What is shown on standard error beside the line of a status.
#[derive(Clone, Copy, Debug, PartialEq, Eq)]
pub struct Manner {
    pub progress: Progress,
    /// Whether a refusal is explained.
    pub explains: bool,
}

fn is_given(words: &[&str], word: &str) -> bool
    ensures { result ≡ is_among word.now (map (λ w. w.now) words.now) }
{
    words.contains(&word)
}

/// What is shown: nothing where the words hold `--quiet`. Else progress by lines with `--progress`, and at a terminal without it in
/// place; and explanations with `--explain`, at a terminal always. These words may stand in any place, and more than once.
pub fn manner_of(words: &[&str], at_terminal: bool) -> Manner
    ensures { result ≡ manner_by (map (λ w. w.now) words.now) at_terminal }
{
    if is_given(words, "--quiet") {
        return Manner {
            progress: Progress::Hidden,
            explains: false,
        };
    }
    Manner {
        progress: progress_of(words, at_terminal),
        explains: is_given(words, "--explain") || at_terminal,
    }
}

fn progress_of(words: &[&str], at_terminal: bool) -> Progress
    ensures { result ≡ progress_in (map (λ w. w.now) words.now) at_terminal }
{
    if is_given(words, "--progress") {
        Progress::Lines
    } else if at_terminal {
        Progress::InPlace
    } else {
        Progress::Hidden
    }
}

fn is_of_manner(word: &str) -> bool
    ensures { result ≡ is_manner_word word.now }
{
    word == "--progress" || word == "--explain" || word == "--quiet"
}

/// The words that say something else, in their order.
///
/// # Errors
///
/// Want of memory.
pub fn other_words<'a>(alloc: Global, words: &[&'a str]) -> Result<Vec<&'a str>, Memory>
    ensures { IfOk result (λ others. map (λ w. w.now) others.items ≡ others_of (map (λ w. w.now) words.now)) }
{
    let mut others = Vec::new(alloc);
    for word in words {
        if !is_of_manner(word) {
            others.push(*word)?;
        }
    }
    Ok(others)
}
