//! The state of a node's pods at the end of a run, and the table that shows it.
ghost use Rattle.std.specs.Prelude.{◌≡◌, IfOk};
ghost use Rattle.std.specs.String.{string_bytes};
ghost use Rattle.agent_parts.specs.NodeEnds.{end_of, status_of_end};
ghost use Rattle.agent_parts.specs.Table.{told_table};

use crate::tables::told_table;
use node_watch::{Counts, Form, Reasons};
use std::alloc::{AllocError, Global};
use worker_core::Node;
use worker_crew::DescribeNode;

/// The state of a node's pods.
#[derive(Clone, Copy, Debug, PartialEq, Eq)]
pub enum NodeEnd {
    /// One is neither Succeeded nor Failed.
    Open,
    /// Each is Succeeded or Failed, and one is Failed.
    Failed,
    /// Each is Succeeded.
    Succeeded,
}

/// The state of this node's pods.
fn end_of(node: &Node) -> NodeEnd
    ensures { result ≡ end_of node.now }
{
    if !node.is_settled() {
        NodeEnd::Open
    } else if node.has_failed() {
        NodeEnd::Failed
    } else {
        NodeEnd::Succeeded
    }
}

impl NodeEnd {
    /// The status of `--settle`: 0 if each pod is Succeeded or Failed, but 1 if one is Failed and that
    /// counts; else 5.
    pub fn status(self, failures_count: bool) -> u8
        ensures { result ≡ status_of_end failures_count self }
    {
        match self {
            NodeEnd::Open => 5,
            NodeEnd::Failed if failures_count => 1,
            NodeEnd::Failed | NodeEnd::Succeeded => 0,
        }
    }
}

/// The table of a node, and the state of its pods. Only `table_end` makes one.
#[derive(Drop)]
pub struct TableEnd {
    pub text: String,
    pub end: NodeEnd,
}

/// The table of this node, and the state of its pods.
pub fn table_end(
    alloc: Global,
    node: &Node,
    form: Form,
    reasons: &Reasons,
    counts: &Counts,
) -> Result<TableEnd, AllocError>
    ensures text { IfOk result (λ table. string_bytes table.text
        ≡ told_table form reasons.now counts.now node.now) }
    ensures end { IfOk result (λ table. table.end ≡ end_of node.now) }
{
    let text = told_table(alloc, node, form, reasons, counts)?;
    Ok(TableEnd {
        text,
        end: end_of(node),
    })
}

/// Writes the table of a node.
#[derive(Clone, Copy)]
pub struct TableWriter {
    pub alloc: Global,
    pub form: Form,
}

impl DescribeNode for TableWriter {
    type Output = TableEnd;

    fn describe(
        &self,
        node: &Node,
        reasons: &Reasons,
        counts: &Counts,
    ) -> Result<TableEnd, AllocError> {
        table_end(self.alloc, node, self.form, reasons, counts)
    }
}
