// The command that reads the words.
ghost use Rattle.std.specs.Prelude.{◌≡◌, ◌∷◌, [], IfOk, Some, codes, false};
ghost use Rattle.clap.specs.Words.{app_of, new_rule, rule_of, with_rule};
ghost use Rattle.clap.specs.declared.builder.action.ArgAction.TheVariants.{Set};
ghost use Rattle.mkbtt_words.specs.Command.{budget, command as the_command, mode_rule, name_rule, number, option_rule, workers};

use clap::builder::ValueParser;
use clap::{Arg, ArgAction, Command};
use std::alloc::{AllocError, Global};

// The required word that names the mode.
fn mode_argument<'a>(alloc: Global) -> Arg<'a>
    ensures rule { rule_of result ≡ mode_rule }
    ensures local { result.global ≡ false }
{
    Arg::new(alloc, "mode")
        .required(true)
        .action(ArgAction::Set)
}

// The option of this name that takes one number.
fn number_option<'a>(
    alloc: Global,
    name: &'a str,
    parser: ValueParser<'a>,
    standard: &'a str,
) -> Arg<'a>
    ensures rule { rule_of result ≡ record (new_rule name.entry.now) {
      long = Some name.entry.now;
      action = Some Set;
      parser = Some parser.entry;
      defaults = standard.entry.now ∷ [];
    } }
    ensures local { result.global ≡ false }
{
    Arg::new(alloc, name)
        .long(name)
        .action(ArgAction::Set)
        .value_parser(parser)
        .default_value(standard)
}

// The option that says how many workers there are.
fn workers_argument<'a>(alloc: Global) -> Arg<'a>
    ensures rule { rule_of result ≡ option_rule workers }
    ensures local { result.global ≡ false }
{
    let parser = clap::value_parser!(u8).range(1..=16);
    number_option(alloc, "workers", parser, "4")
}

// The option that bounds the steps of a run.
fn budget_argument<'a>(alloc: Global) -> Arg<'a>
    ensures rule { rule_of result ≡ option_rule budget }
    ensures local { result.global ≡ false }
{
    let parser = clap::value_parser!(u32).range(1..=100_000);
    number_option(alloc, "budget", parser, "20000")
}

// The option that says how many equations are generated.
fn number_argument<'a>(alloc: Global) -> Arg<'a>
    ensures rule { rule_of result ≡ option_rule number }
    ensures local { result.global ≡ false }
{
    let parser = clap::value_parser!(u32).range(1..=64);
    number_option(alloc, "number", parser, "8")
}

// The option of this name that takes a name of something.
fn name_option<'a>(alloc: Global, name: &'a str, standard: &'a str) -> Arg<'a>
    ensures rule { rule_of result ≡ name_rule name.entry.now standard.entry.now }
    ensures local { result.global ≡ false }
{
    Arg::new(alloc, name)
        .long(name)
        .action(ArgAction::Set)
        .default_value(standard)
}

// The command with the options that take a number.
fn with_numbers<'a>(alloc: Global, command: Command<'a>) -> Result<Command<'a>, AllocError>
    ensures { IfOk result (λ c. app_of c ≡ with_rule (with_rule (with_rule (app_of command.entry) (option_rule workers)) (option_rule budget)) (option_rule number)) }
{
    command
        .arg(workers_argument(alloc))?
        .arg(budget_argument(alloc))?
        .arg(number_argument(alloc))
}

// The command with the options that take a name.
fn with_names<'a>(alloc: Global, command: Command<'a>) -> Result<Command<'a>, AllocError>
    ensures { IfOk result (λ c. app_of c ≡ with_rule (with_rule (app_of command.entry) (name_rule (codes "to") (codes "answer"))) (name_rule (codes "select") (codes "stated"))) }
{
    command
        .arg(name_option(alloc, "to", "answer"))?
        .arg(name_option(alloc, "select", "stated"))
}

/// The command with the mode and the options. Which texts name a mode, a format or a selection, it doesn't say: these are
/// looked up in what it found.
///
/// # Errors
///
/// Want of memory.
pub(crate) fn command<'a>(alloc: Global) -> Result<Command<'a>, AllocError>
    ensures { IfOk result (λ c. app_of c ≡ the_command) }
{
    let words = Command::new(alloc, "mkbtt")
        .no_binary_name(true)
        .arg(mode_argument(alloc))?;
    let numbers = with_numbers(alloc, words)?;
    with_names(alloc, numbers)
}
