//! The questions of a filter as a tree: each question once for each way to it.
use bpf_code::{Flow, Insn, Operation};
use std::alloc::{AllocError, Global};

/// How many questions are drawn at most.
pub const MAX_QUESTIONS: usize = 96;

/// What register A has, as far as the drawing follows it.
#[derive(Clone, Copy)]
pub(crate) enum Held {
    /// The word of the call's data at this byte.
    Word(u32),
    /// The same under a mask.
    Masked(u32, u32),
    /// Anything else.
    Other,
}

/// Where one answer to a question leads.
#[derive(Clone, Copy)]
pub(crate) enum End {
    /// To this value, after this number of instructions in all.
    Returns(u32, usize),
    /// To a computed value, after this number of instructions in all.
    Computed(usize),
    /// To another question.
    Asks,
}

/// The answer that leads to a question.
#[derive(Clone, Copy)]
pub(crate) enum Way {
    First,
    Yes,
    No,
}

/// A question, and where both answers lead.
#[derive(Clone, Copy)]
pub(crate) struct Question {
    /// How many questions on the way to it were answered by yes.
    pub depth: usize,
    /// The answer that leads to it.
    pub way: Way,
    /// A bit for each depth at which a branch for no is still to be drawn.
    pub bars: u32,
    pub held: Held,
    pub insn: Insn,
    pub yes: End,
    pub no: End,
}

/// The questions in the order in which they are drawn, and how many more branches there are.
#[derive(Drop)]
pub(crate) struct Tree {
    pub questions: Vec<Question>,
    pub more: usize,
    /// What a filter without questions returns.
    pub only: End,
}

/// A place that is still to be visited.
#[derive(Clone, Copy)]
struct Visit {
    at: usize,
    depth: usize,
    way: Way,
    bars: u32,
    steps: usize,
    held: Held,
}

/// The last instruction of a run without questions.
#[derive(Clone, Copy)]
struct Stop {
    insn: Insn,
    visit: Visit,
}

/// The tree of this code. The branch for yes comes first and lies deeper.
pub(crate) fn tree_of(alloc: Global, code: &[Insn]) -> Result<Tree, AllocError> {
    let mut questions = Vec::new(alloc);
    let mut open = Vec::new(alloc);
    let start = Visit {
        at: 0,
        depth: 0,
        way: Way::First,
        bars: 0,
        steps: 0,
        held: Held::Other,
    };
    open.push(start)?;
    for _ in 0..MAX_QUESTIONS {
        let Some(visit) = open.pop() else {
            break;
        };
        add(code, visit, &mut questions, &mut open)?;
    }
    Ok(Tree {
        more: open.len(),
        questions,
        only: end_of(code, start),
    })
}

/// Adds the question at this place, and the places to which its answers lead if they are questions.
fn add(
    code: &[Insn],
    visit: Visit,
    questions: &mut Vec<Question>,
    open: &mut Vec<Visit>,
) -> Result<(), AllocError> {
    let Some(stop) = stop_of(code, visit) else {
        return Ok(());
    };
    if stop.insn.op.flow() != Flow::Branches {
        return Ok(());
    }
    let (yes, no) = (after_yes(stop), after_no(stop));
    let question = Question {
        depth: visit.depth,
        way: visit.way,
        bars: visit.bars,
        held: stop.visit.held,
        insn: stop.insn,
        yes: end_of(code, yes),
        no: end_of(code, no),
    };
    questions.push(question)?;
    add_open(open, no, question.no)?;
    add_open(open, with_bar(yes, visit.depth, question.no), question.yes)
}

fn add_open(open: &mut Vec<Visit>, visit: Visit, end: End) -> Result<(), AllocError> {
    match end {
        End::Asks => Ok(open.push(visit)?),
        End::Returns(_, _) | End::Computed(_) => Ok(()),
    }
}

/// The place to which the answer yes leads.
fn after_yes(stop: Stop) -> Visit {
    Visit {
        at: place_after(stop.visit.at, u32::from(stop.insn.jt)),
        depth: stop.visit.depth.saturating_add(1),
        way: Way::Yes,
        ..stop.visit
    }
}

/// The place to which the answer no leads.
fn after_no(stop: Stop) -> Visit {
    Visit {
        at: place_after(stop.visit.at, u32::from(stop.insn.jf)),
        way: Way::No,
        ..stop.visit
    }
}

fn place_after(at: usize, skipped: u32) -> usize {
    at.saturating_add(1).saturating_add(skipped as usize)
}

/// With a bar at this depth if the branch for no has questions of its own.
fn with_bar(visit: Visit, depth: usize, no: End) -> Visit {
    match no {
        End::Asks => Visit {
            bars: visit.bars | bit(depth),
            ..visit
        },
        End::Returns(_, _) | End::Computed(_) => visit,
    }
}

/// The bit for a depth, or none for a depth above 31.
pub(crate) fn bit(depth: usize) -> u32 {
    if depth < 32 { 1 << depth } else { 0 }
}

/// Where the code goes from this place.
fn end_of(code: &[Insn], visit: Visit) -> End {
    let Some(stop) = stop_of(code, visit) else {
        return End::Asks;
    };
    match stop.insn.op {
        Operation::ReturnK => End::Returns(stop.insn.k, stop.visit.steps),
        Operation::ReturnA => End::Computed(stop.visit.steps),
        _ => End::Asks,
    }
}

/// The first question or return from this place on, with the instructions up to it counted. Jumps go forward,
/// so there are at most as many steps as instructions.
fn stop_of(code: &[Insn], visit: Visit) -> Option<Stop> {
    let mut visit = visit;
    for _ in 0..code.len() {
        let insn = *code.get(visit.at)?;
        visit.steps = visit.steps.saturating_add(1);
        match insn.op.flow() {
            Flow::Returns | Flow::Branches => return Some(Stop { insn, visit }),
            Flow::Jumps => {
                visit.at = place_after(visit.at, insn.k);
            }
            Flow::Continues => {
                visit.at = visit.at.saturating_add(1);
                visit.held = held_after(visit.held, insn);
            }
        }
    }
    None
}

/// What A has after an instruction.
fn held_after(held: Held, insn: Insn) -> Held {
    match (insn.op, held) {
        (Operation::LoadData, _) => Held::Word(insn.k),
        (Operation::AndK, Held::Word(at)) => Held::Masked(at, insn.k),
        (Operation::MoveToX, _) | (Operation::Store, _) | (Operation::StoreX, _) => held,
        _ => Held::Other,
    }
}
