//! Which pods an agent that ends by itself removes.

use agent_parts::{Removal, TableWriter};
use manifest::Uid;
use std::alloc::{AllocError, Global};
use std::sync::Wait;
use std::sync::ledger::Ledger;
use worker_core::MAX_PODS;
use worker_crew::{Ended, Shared};

fn uids_on<L: Ledger, R: Wait>(
    rt: &R,
    alloc: Global,
    shared: &Shared<L>,
) -> Result<Vec<Uid>, AllocError> {
    let mut uids = Vec::new(alloc);
    for place in 0..MAX_PODS {
        if let Some(uid) = shared.uid_at(rt, alloc, place)? {
            uids.push(uid)?;
        }
    }
    Ok(uids)
}

/// Called when the run ends this way at this moment. Returns how it finally ends, or `None` if pods must
/// leave first.
pub(crate) fn removed_at_end<L: Ledger, R: Wait>(
    removal: &mut Removal,
    rt: &R,
    shared: &Shared<L>,
    writer: &TableWriter,
    ended: Ended,
    now: u64,
) -> Option<Ended> {
    if let Some(last) = removal.ended(ended) {
        return Some(last);
    }
    match (
        shared.describe(rt, writer),
        uids_on(rt, writer.alloc, shared),
    ) {
        (Ok(table), Ok(uids)) => removal.begin(ended, now, uids, table),
        _ => Some(Ended::Memory),
    }
}
