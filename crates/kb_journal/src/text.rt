// The text of a board's journal.
ghost use Rattle.std.specs.Prelude.{◌≡◌, ◌++◌, IfOk, OnOk, All, flat_map, map};
ghost use Rattle.mkb_rules.specs.Parts.{plain_nodes};
ghost use Rattle.kb_journal.specs.EntryLines.{line_of as line_of_entry, IsEntryOn};
ghost use Rattle.kb_journal.specs.Journals.{entry_line, entry_lines, journal_of_board, journal_text as text_of_journal, selection_lines, settings_lines};

use crate::entry_text::push_entry;
use crate::lines::line_of;
use kb_label::ListLabels;
use kb_node::NodeTable;
use kb_report::{push_counted, push_equations, push_symbols};
use kb_term::{Memory, Problem};
use mkb_board::Board;
use mkb_model::{Entry, Selection, Settings};
use std::alloc::Global;

fn push_selection(out: &mut Vec<u8>, selection: Selection) -> Result<(), Memory>
    ensures { OnOk result (out.new.items ≡ out.old.items ++ selection_lines selection) }
{
    if selection == Selection::Size {
        out.extend_from_slice(b"SELECTION size\n")?;
    }
    Ok(())
}

// The line of each entry of a board that has these nodes.
fn push_entries(
    alloc: Global,
    out: &mut Vec<u8>,
    nodes: &NodeTable<ListLabels>,
    entries: &[Entry],
) -> Result<(), Memory>
    requires { All (IsEntryOn (plain_nodes nodes.now)) entries.now }
    ensures { OnOk result (out.new.items ≡ out.old.items ++ flat_map entry_line (map (line_of_entry (plain_nodes nodes.now)) entries.now)) }
{
    for entry in entries {
        push_entry(alloc, out, &line_of(alloc, nodes, entry)?)?;
    }
    Ok(())
}

// How many entries there are, and the line of each.
fn push_counted_entries(
    alloc: Global,
    out: &mut Vec<u8>,
    nodes: &NodeTable<ListLabels>,
    entries: &[Entry],
) -> Result<(), Memory>
    requires { All (IsEntryOn (plain_nodes nodes.now)) entries.now }
    ensures { OnOk result (out.new.items ≡ out.old.items ++ entry_lines (map (line_of_entry (plain_nodes nodes.now)) entries.now)) }
{
    push_counted(alloc, out, b"ENTRIES", entries.len() as u64)?;
    push_entries(alloc, out, nodes, entries)
}

// The budget, and the selection where it isn't the stated one.
fn push_settings(alloc: Global, out: &mut Vec<u8>, settings: Settings) -> Result<(), Memory>
    ensures { OnOk result (out.new.items ≡ out.old.items ++ settings_lines settings) }
{
    push_counted(alloc, out, b"BUDGET", settings.budget as u64)?;
    push_selection(out, settings.selection)
}

// The text of a problem, settings, and entries of a board that has these nodes.
fn text_of(
    alloc: Global,
    problem: &Problem,
    settings: Settings,
    nodes: &NodeTable<ListLabels>,
    entries: &[Entry],
) -> Result<Vec<u8>, Memory>
    requires { All (IsEntryOn (plain_nodes nodes.now)) entries.now }
    ensures { IfOk result (λ text. text.items ≡ text_of_journal (record { problem = problem.now; settings = settings; lines = map (line_of_entry (plain_nodes nodes.now)) entries.now })) }
{
    let mut out = Vec::from_slice(alloc, b"MKBTT JOURNAL 2\n")?;
    push_settings(alloc, &mut out, settings)?;
    push_symbols(alloc, &mut out, problem.signature())?;
    push_equations(alloc, &mut out, problem)?;
    push_counted_entries(alloc, &mut out, nodes, entries)?;
    out.extend_from_slice(b"END\n")?;
    Ok(out)
}

/// The text of a board's journal: its problem, its settings, and a line for each of its entries.
///
/// The text is whole before any of it is written. The time is linear in the text but for the pairs of rewritings, which are
/// looked up among the nodes.
///
/// # Errors
///
/// Want of memory.
pub fn journal_text(alloc: Global, board: &Board) -> Result<Vec<u8>, Memory>
    ensures { IfOk result (λ text. text.items ≡ text_of_journal (journal_of_board board.now)) }
{
    let state = board.state();
    text_of(
        alloc,
        state.problem(),
        state.settings(),
        board.nodes(),
        board.journal(),
    )
}
