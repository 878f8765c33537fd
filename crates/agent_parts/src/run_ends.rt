//! The end of a run of `nodeagent`: its exit status, and what is printed then.
ghost use Rattle.std.specs.Prelude.{◌≡◌, [], IfErr, IfOk, IfSome, None, Some, false, string_bytes, true};
ghost use Rattle.agent_parts.specs.CommandLine.{form_for, reasons_for, status_at, stop_at};
ghost use Rattle.agent_parts.specs.NodeEnds.{end_of, settled_status, status_of_end};
ghost use Rattle.agent_parts.specs.Table.{told_table};

use crate::node_ends::{TableEnd, table_end};
use crate::settings::form_of;
use crate::stops::AgentStop;
use command_line::NodeagentLine;
use node_lock::Book;
use node_watch::{Counts, Reasons};
use runtime_stops::ServerStop;
use std::alloc::{AllocError, Global};
use std::sync::ledger::Ledger;
use worker_core::{MAX_PODS, Node};
use worker_crew::Ended;

/// The end of a run that was not stopped.
#[derive(Drop)]
pub struct RunEnd {
    pub status: u8,
    pub text: String,
    /// What is written about it to standard error.
    pub note: String,
}

/// The lines printed to standard error at the end: that the moment did not end, and how many pods could not
/// be removed.
pub fn note_of(
    system: &HostRuntime,
    line: &NodeagentLine<'_>,
    ended: &Ended,
    moment: u64,
    node: &Node,
) -> Result<String, AllocError> {
    let mut note = String::new(system.alloc());
    if *ended == Ended::Endless {
        writeln!(note, "nodeagent: moment {moment} does not end")?;
    }
    if line.remove {
        let left = (0..MAX_PODS)
            .filter(|place| node.pod(*place).is_some())
            .count();
        if left > 0 {
            writeln!(note, "nodeagent: pods left in the runtime: {left}")?;
        }
    }
    Ok(note)
}

/// The program's exit status and output at its end.
pub fn run_end<'a, L: Ledger>(
    system: &HostRuntime,
    line: &NodeagentLine<'a>,
    ended: Ended,
    book: &Book<L>,
    reasons: &Reasons,
    counts: &Counts,
    before: Option<TableEnd>,
    note: String,
) -> Result<RunEnd, AgentStop<'a>>
    // With --settle the status is that of the node whose table is printed: 0 exactly if each of its pods is
    // Succeeded or Failed, but 1 with --fail if one is Failed.
    ensures table { before ≡ None → line.now.settle ≡ true → IfOk result (λ end. (string_bytes end.text
        ≡ told_table (form_for line.now) (reasons_for line.now reasons.now) counts.now book.now.node)
        × (end.status ≡ settled_status line.now.fail book.now.node)) }
    ensures before { IfSome before (λ table. line.now.settle ≡ true → IfOk result (λ end.
        (end.text ≡ table.text) × (end.status ≡ status_of_end line.now.fail table.end))) }
    ensures silent { line.now.settle ≡ false → IfOk result (λ end. (string_bytes end.text ≡ [])
        × (status_at ended ≡ Some end.status)) }
    ensures stop { IfErr result (λ stop. stop ≡ stop_at ended) }
{
    let status = match ended {
        Ended::Settled => 0,
        Ended::TimeUp | Ended::Endless => 5,
        Ended::Memory => return Err(AgentStop::Server(ServerStop::Memory)),
        Ended::HistoryFull => return Err(AgentStop::HistoryFull),
    };
    if !line.settle {
        drop(before);
        let text = String::new(system.alloc());
        return Ok(RunEnd { status, text, note });
    }
    let table = match before {
        Some(table) => table,
        None => table_of(system.alloc(), line, book.node(), reasons, counts)?,
    };
    let TableEnd { text, end } = table;
    Ok(RunEnd {
        status: end.status(line.fail),
        text,
        note,
    })
}

// The table at the end.
fn table_of(
    alloc: Global,
    line: &NodeagentLine<'_>,
    node: &Node,
    reasons: &Reasons,
    counts: &Counts,
) -> Result<TableEnd, AllocError>
    ensures text { IfOk result (λ table. string_bytes table.text
        ≡ told_table (form_for line.now) (reasons_for line.now reasons.now) counts.now node.now) }
    ensures end { IfOk result (λ table. table.end ≡ end_of node.now) }
{
    if line.reasons {
        table_end(alloc, node, form_of(line), reasons, counts)
    } else {
        table_end(alloc, node, form_of(line), &Reasons::new(alloc), counts)
    }
}
