// The text of a system.
ghost use Rattle.std.specs.Prelude.{◌≡◌, ◌++◌, ◌∷◌, [], OnOk, OnErr, IfOk, IsTrue, map, flat_map, length, take, codes};
ghost use Rattle.kb_term.specs.View.{tree_of, equations_of_list};
ghost use Rattle.kb_term.specs.Signature.{symbols_of_list};
ghost use Rattle.kb_cert.specs.CertificateText.{is_certificate};
ghost use Rattle.kb_text.specs.Lines.{counted};
ghost use Rattle.kb_text.specs.Terms.{names_of, infix_text};
ghost use Rattle.kb_trace.specs.TraceText.{trace_text as text_of_trace};
ghost use Rattle.kb_report.specs.declared.version.Version.{Version};
ghost use Rattle.kb_report.specs.Answers.{entry_text, symbols_line, equation_line, equation_lines, rule_line, rule_lines, order_line, system_text as text_of_system};

use kb_cert::{Certificate, cert_text};
use kb_checker::Answer;
use kb_term::{Memory, Problem, Rule, Signature, Term, push_number};
use kb_text::{Fields, term_text};
use kb_trace::{Trace, trace_text};
use std::alloc::Global;

fn push_infix(
    alloc: Global,
    line: &mut Fields,
    signature: &Signature,
    sign: &[u8],
    sides: (&Term, &Term),
) -> Result<(), Memory>
    ensures { OnOk result (line.new ≡ line.old ++ infix_text (names_of signature.now) sign.now (tree_of sides.entry.0.now) (tree_of sides.entry.1.now)) }
{
    line.push(term_text(alloc, signature, sides.0)?)?;
    line.word(alloc, sign)?;
    line.push(term_text(alloc, signature, sides.1)?)
}

/// Adds a line: the word and a number behind it.
///
/// # Errors
///
/// Want of memory; the text is then as before.
pub fn push_counted(alloc: Global, out: &mut Vec<u8>, word: &[u8], n: u64) -> Result<(), Memory>
    ensures ok { OnOk result (out.new.items ≡ out.old.items ++ counted word.now n) }
    ensures err { OnErr result (out.new.items ≡ out.old.items) }
{
    let mut line = Fields::new(alloc);
    line.word(alloc, word)?;
    line.number(alloc, n)?;
    line.line_to(out)
}

fn entry_field(alloc: Global, symbol: &(Vec<u8>, u8)) -> Result<Vec<u8>, Memory>
    ensures { IfOk result (λ field. field.items ≡ entry_text (record { name = symbol.now.0.items; arity = symbol.now.1 })) }
{
    let mut field = Vec::from_slice(alloc, &symbol.0)?;
    field.push(b'/')?;
    push_number(alloc, &mut field, symbol.1 as u64)?;
    Ok(field)
}

fn push_entries(alloc: Global, line: &mut Fields, symbols: &[(Vec<u8>, u8)]) -> Result<(), Memory>
    ensures { OnOk result (line.new ≡ line.old ++ map entry_text (symbols_of_list symbols.now)) }
{
    for symbol in symbols {
        line.push(entry_field(alloc, symbol)?)?;
    }
    Ok(())
}

/// Adds the line of the symbols: the name of each with its arity.
///
/// # Errors
///
/// Want of memory; the text is then as before.
pub fn push_symbols(alloc: Global, out: &mut Vec<u8>, signature: &Signature) -> Result<(), Memory>
    ensures ok { OnOk result (out.new.items ≡ out.old.items ++ symbols_line signature.now) }
    ensures err { OnErr result (out.new.items ≡ out.old.items) }
{
    let mut line = Fields::new(alloc);
    line.word(alloc, b"SYMBOLS")?;
    push_entries(alloc, &mut line, signature.symbols())?;
    line.line_to(out)
}

fn push_equation(
    alloc: Global,
    out: &mut Vec<u8>,
    signature: &Signature,
    equation: &(Term, Term),
) -> Result<(), Memory>
    ensures ok { OnOk result (out.new.items ≡ out.old.items ++ equation_line (names_of signature.now) (tree_of equation.now.0, tree_of equation.now.1)) }
    ensures err { OnErr result (out.new.items ≡ out.old.items) }
{
    let mut line = Fields::new(alloc);
    push_infix(
        alloc,
        &mut line,
        signature,
        b"=",
        (&equation.0, &equation.1),
    )?;
    line.line_to(out)
}

// Adds a line for each equation; some lines may stay after an error.
fn push_each_equation(
    alloc: Global,
    out: &mut Vec<u8>,
    signature: &Signature,
    equations: &[(Term, Term)],
) -> Result<(), Memory>
    ensures ok { OnOk result (out.new.items ≡ out.old.items ++ flat_map (equation_line (names_of signature.now)) (equations_of_list equations.now)) }
    ensures front { take (length out.old.items) out.new.items ≡ out.old.items }
{
    for equation in equations {
        push_equation(alloc, out, signature, equation)?;
    }
    Ok(())
}

/// Adds the lines of the equations: how many there are, and each on its line.
///
/// # Errors
///
/// Want of memory; the text is then as before.
pub fn push_equations(alloc: Global, out: &mut Vec<u8>, problem: &Problem) -> Result<(), Memory>
    ensures ok { OnOk result (out.new.items ≡ out.old.items ++ equation_lines problem.now) }
    ensures err { OnErr result (out.new.items ≡ out.old.items) }
{
    let before = out.len();
    let added = add_equations(alloc, out, problem);
    if added.is_err() {
        out.truncate(before);
    }
    added
}

// The same, but that some of the lines may stay after an error.
fn add_equations(alloc: Global, out: &mut Vec<u8>, problem: &Problem) -> Result<(), Memory>
    ensures ok { OnOk result (out.new.items ≡ out.old.items ++ equation_lines problem.now) }
    ensures front { take (length out.old.items) out.new.items ≡ out.old.items }
{
    push_counted(alloc, out, b"EQUATIONS", problem.equations().len() as u64)?;
    push_each_equation(alloc, out, problem.signature(), problem.equations())
}

fn push_rule(
    alloc: Global,
    out: &mut Vec<u8>,
    signature: &Signature,
    rule: &(Rule, u32),
) -> Result<(), Memory>
    ensures { OnOk result (out.new.items ≡ out.old.items ++ rule_line (names_of signature.now) rule.now) }
{
    let mut line = Fields::new(alloc);
    let (sides, step) = rule;
    push_infix(
        alloc,
        &mut line,
        signature,
        b"->",
        (sides.left(), sides.right()),
    )?;
    line.word(alloc, b":")?;
    line.number(alloc, *step as u64)?;
    line.line_to(out)
}

fn push_each_rule(
    alloc: Global,
    out: &mut Vec<u8>,
    signature: &Signature,
    rules: &[(Rule, u32)],
) -> Result<(), Memory>
    ensures { OnOk result (out.new.items ≡ out.old.items ++ flat_map (rule_line (names_of signature.now)) rules.now) }
{
    for rule in rules {
        push_rule(alloc, out, signature, rule)?;
    }
    Ok(())
}

// So many rules behind the word, each on its line.
fn push_rules(
    alloc: Global,
    out: &mut Vec<u8>,
    signature: &Signature,
    word: &[u8],
    rules: &[(Rule, u32)],
) -> Result<(), Memory>
    ensures { OnOk result (out.new.items ≡ out.old.items ++ rule_lines word.now (names_of signature.now) rules.now) }
{
    push_counted(alloc, out, word, rules.len() as u64)?;
    push_each_rule(alloc, out, signature, rules)
}

// The line of the certificate.
fn push_order(
    alloc: Global,
    out: &mut Vec<u8>,
    signature: &Signature,
    cert: &Certificate,
) -> Result<(), Memory>
    requires { IsTrue (is_certificate signature.now cert.now) }
    ensures { OnOk result (out.new.items ≡ out.old.items ++ order_line (names_of signature.now) cert.now) }
{
    out.extend_from_slice(b"ORDER ")?;
    out.extend_from_slice(&cert_text(alloc, cert, signature)?)?;
    out.push(b'\n')?;
    Ok(())
}

fn push_trace(
    alloc: Global,
    out: &mut Vec<u8>,
    signature: &Signature,
    trace: &Trace,
) -> Result<(), Memory>
    ensures { OnOk result (out.new.items ≡ out.old.items ++ counted (codes "TRACE") (length trace.now) ++ text_of_trace signature.now trace.now) }
{
    push_counted(alloc, out, b"TRACE", trace.steps().len() as u64)?;
    out.extend_from_slice(&trace_text(alloc, signature, trace)?)?;
    Ok(())
}

/// The text of a system, in version 2.
pub(crate) fn system_text(alloc: Global, a: &Answer) -> Result<Vec<u8>, Memory>
    ensures { IfOk result (λ text. text.items ≡ text_of_system Version.Second a.now) }
{
    let signature = a.problem().signature();
    let mut out = Vec::from_slice(alloc, b"MKBTT 2\n")?;
    push_symbols(alloc, &mut out, signature)?;
    push_equations(alloc, &mut out, a.problem())?;
    push_rules(alloc, &mut out, signature, b"RULES", a.rules())?;
    push_rules(alloc, &mut out, signature, b"CONSTRAINTS", a.constraints())?;
    push_order(alloc, &mut out, signature, a.cert())?;
    push_trace(alloc, &mut out, signature, a.trace())?;
    out.extend_from_slice(b"END\n")?;
    Ok(out)
}
