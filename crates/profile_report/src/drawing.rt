//! The tree of a filter as a drawing: SVG 2, inside HTML.
use crate::tree::{End, Held, Question, Tree, Way, bit, tree_of};
use crate::words::letter_in;
use action::ValueText;
use bpf_code::{Insn, Operation};
use bpf_verify::Filter;
use call_names::{Argument, CallWord, Naming};
use std::alloc::{AllocError, Global};
use std::fmt;
use sys_table::CallTable;

/// How many questions one drawing has at most, so that a page of paper has room for it.
const CHUNK: usize = 24;

/// The height of a line, and how far a deeper question is moved to the right, in pixels.
const LINE: usize = 22;

const INDENT: usize = 13;

/// The greatest depth that is drawn. Deeper questions lie below each other.
const MAX_DEPTH: usize = 12;

/// Where the columns of the answers begin.
const YES_AT: usize = 392;

const NO_AT: usize = 526;

/// The part of a page for a filter: its questions as a tree, and where each answer leads. These calls are named.
pub fn tree_html(alloc: Global, calls: CallTable, filter: &Filter) -> Result<String, AllocError> {
    let tree = tree_of(alloc, filter.insns())?;
    let (count, longest) = (filter.len(), filter.longest());
    let mut text = String::new(alloc);
    write!(
        text,
        "<section id=\"filter\"><h2>Filter</h2>\n<p>Instructions: {count}. A call executes {longest} at most. \
         Each answer has its action, its data, and how many instructions lead to it.</p>\n"
    )?;
    add_tree(&mut text, calls, &tree)?;
    text.push_str("</section>\n")?;
    Ok(text)
}

/// The part of a page for a profile that is too long for a filter.
pub fn no_tree_html(alloc: Global) -> Result<String, AllocError> {
    String::from_str(
        alloc,
        "<section id=\"filter\"><h2>Filter</h2>\n<p>None: <code>seccheck compile</code> refuses the profile \
         (TooLong).</p>\n</section>\n",
    )
}

fn add_tree(text: &mut String, calls: CallTable, tree: &Tree) -> Result<(), AllocError> {
    if tree.questions.is_empty() {
        let only = EndWords(tree.only);
        return write!(text, "<p>Every call: {only}</p>\n");
    }
    text.push_str(
        "<div class=\"s\" tabindex=\"0\" role=\"group\" aria-label=\"Questions of the filter\">\n",
    )?;
    add_drawings(text, calls, tree.questions.as_slice())?;
    text.push_str("</div>\n")?;
    if tree.more > 0 {
        let more = tree.more;
        write!(
            text,
            "<p class=\"m\">{more} more branches, which <code>seccheck show</code> prints</p>\n"
        )?;
    }
    Ok(())
}

/// Draws the questions, at most `CHUNK` in one drawing.
fn add_drawings(
    text: &mut String,
    calls: CallTable,
    questions: &[Question],
) -> Result<(), AllocError> {
    for (place, question) in questions.iter().enumerate() {
        let line = place % CHUNK;
        if line == 0 {
            add_start(text, questions.len().saturating_sub(place).min(CHUNK))?;
        }
        let y = line.saturating_add(1).saturating_mul(LINE);
        write!(text, "{}", Drawn(calls, y, *question))?;
        if line.saturating_add(1) == CHUNK || place.saturating_add(1) == questions.len() {
            text.push_str("</svg>\n")?;
        }
    }
    Ok(())
}

/// Begins a drawing of this number of questions.
fn add_start(text: &mut String, count: usize) -> Result<(), AllocError> {
    let height = count.saturating_add(1).saturating_mul(LINE);
    write!(
        text,
        "<svg width=\"686\" height=\"{height}\" viewBox=\"0 0 686 {height}\">\n\
         <text x=\"4\" y=\"15\" class=\"h\">question</text>\
         <text x=\"{YES_AT}\" y=\"15\" class=\"h\">yes: action, steps</text>\
         <text x=\"{NO_AT}\" y=\"15\" class=\"h\">no: action, steps</text>\n"
    )
}

/// Where a question of this depth begins.
fn left_of(depth: usize) -> usize {
    depth
        .min(MAX_DEPTH)
        .saturating_mul(INDENT)
        .saturating_add(4)
}

/// A question whose line begins at this height, with the lines that lead to it and both answers.
#[derive(Clone, Copy)]
struct Drawn(CallTable, usize, Question);

impl fmt::Display for Drawn {
    fn fmt<W: fmt::Write>(&self, f: &mut fmt::Formatter<W>) -> fmt::Result {
        let (calls, y, question) = (self.0, self.1, self.2);
        let (x, base) = (left_of(question.depth), y.saturating_add(15));
        let bars = Bars(y, question);
        let asked = Asked(calls, question.held, question.insn);
        let (yes, no) = (
            Answer(YES_AT, y, question.yes),
            Answer(NO_AT, y, question.no),
        );
        let at = x.saturating_add(3);
        write!(
            f,
            "<path d=\"{bars}\"/><text x=\"{at}\" y=\"{base}\">{asked}</text>{yes}{no}\n"
        )
    }
}

/// The lines that lead to a question, and those that pass it.
#[derive(Clone, Copy)]
struct Bars(usize, Question);

impl fmt::Display for Bars {
    fn fmt<W: fmt::Write>(&self, f: &mut fmt::Formatter<W>) -> fmt::Result {
        let (y, question) = (self.0, self.1);
        for depth in 0..MAX_DEPTH {
            if question.bars & bit(depth) != 0 {
                write!(f, "M{} {y}v{LINE}", left_of(depth))?;
            }
        }
        let x = left_of(question.depth);
        match question.way {
            Way::First => Ok(()),
            Way::Yes => write!(f, "M{} {y}v11h11", x.saturating_sub(INDENT)),
            Way::No => write!(f, "M{x} {y}v6"),
        }
    }
}

/// An answer that begins here.
#[derive(Clone, Copy)]
struct Answer(usize, usize, End);

impl fmt::Display for Answer {
    fn fmt<W: fmt::Write>(&self, f: &mut fmt::Formatter<W>) -> fmt::Result {
        let (x, y) = (self.0, self.1);
        let (at, base, top) = (
            x.saturating_add(5),
            y.saturating_add(15),
            y.saturating_add(3),
        );
        let words = EndWords(self.2);
        match self.2 {
            End::Returns(value, _) => {
                let letter = letter_in(value);
                write!(
                    f,
                    "<g class=\"{letter}\"><rect x=\"{x}\" y=\"{top}\"/>\
                     <text x=\"{at}\" y=\"{base}\">{words}</text></g>"
                )
            }
            End::Computed(_) | End::Asks => {
                write!(f, "<text x=\"{at}\" y=\"{base}\">{words}</text>")
            }
        }
    }
}

/// Where an answer leads: an action and the number of instructions, or another question.
#[derive(Clone, Copy)]
struct EndWords(End);

impl fmt::Display for EndWords {
    fn fmt<W: fmt::Write>(&self, f: &mut fmt::Formatter<W>) -> fmt::Result {
        match self.0 {
            End::Returns(value, steps) => {
                let (letter, value) = (letter_in(value), ValueText(value));
                write!(f, "{letter} {value}, {steps}")
            }
            End::Computed(steps) => write!(f, "computed, {steps}"),
            End::Asks => f.write_str("&darr;"),
        }
    }
}

/// A question in words: `nr &ge; 251 ioprio_set`.
#[derive(Clone, Copy)]
struct Asked(CallTable, Held, Insn);

impl fmt::Display for Asked {
    fn fmt<W: fmt::Write>(&self, f: &mut fmt::Formatter<W>) -> fmt::Result {
        let (held, number) = (HeldWords(self.1), Number(self.0, self.1, self.2));
        let test = match self.2.op {
            Operation::JumpEqualK | Operation::JumpEqualX => "=",
            Operation::JumpGreaterK | Operation::JumpGreaterX => "&gt;",
            Operation::JumpGreaterOrEqualK | Operation::JumpGreaterOrEqualX => "&ge;",
            _ => "has a bit of",
        };
        write!(f, "{held} {test} {number}")
    }
}

/// The number with which a question compares, with the name of one of these calls or of an architecture.
#[derive(Clone, Copy)]
struct Number(CallTable, Held, Insn);

impl fmt::Display for Number {
    fn fmt<W: fmt::Write>(&self, f: &mut fmt::Formatter<W>) -> fmt::Result {
        let (calls, k) = (self.0, self.2.k);
        match (self.2.op, self.1) {
            (
                Operation::JumpEqualX
                | Operation::JumpGreaterX
                | Operation::JumpGreaterOrEqualX
                | Operation::JumpAnyBitX,
                _,
            ) => f.write_str("x"),
            (_, Held::Word(4)) if k == 0xc000_003e => f.write_str("x86-64"),
            (_, Held::Word(0)) if calls.name(k).is_some() => {
                let naming = Naming::Name(calls);
                let word = CallWord { nr: k, naming };
                write!(f, "{k} {word}")
            }
            (_, Held::Word(0)) if k < 4096 => write!(f, "{k}"),
            _ => write!(f, "{}", Argument(u64::from(k))),
        }
    }
}

/// What is compared.
#[derive(Clone, Copy)]
struct HeldWords(Held);

impl fmt::Display for HeldWords {
    fn fmt<W: fmt::Write>(&self, f: &mut fmt::Formatter<W>) -> fmt::Result {
        match self.0 {
            Held::Word(at) => write!(f, "{}", WordName(at)),
            Held::Masked(at, mask) => {
                write!(f, "{} &amp; {}", WordName(at), Argument(u64::from(mask)))
            }
            Held::Other => f.write_str("A"),
        }
    }
}

/// The word of a call's data at this byte: struct seccomp_data of seccomp(2), little-endian.
#[derive(Clone, Copy)]
struct WordName(u32);

impl fmt::Display for WordName {
    fn fmt<W: fmt::Write>(&self, f: &mut fmt::Formatter<W>) -> fmt::Result {
        let at = self.0;
        match at {
            0 => f.write_str("nr"),
            4 => f.write_str("arch"),
            8 => f.write_str("ip low"),
            12 => f.write_str("ip high"),
            _ if at >= 16 && at % 8 == 0 => write!(f, "args[{}] low", (at - 16) / 8),
            _ if at >= 16 && at % 8 == 4 => write!(f, "args[{}] high", (at - 16) / 8),
            _ => write!(f, "data[{at}]"),
        }
    }
}
