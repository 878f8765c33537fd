ghost use Rattle.std.specs.Prelude.{◌≡◌, ◌+◌, ◌<◌, ◌≤◌, ◌++◌, ◌∷◌, [], length, vec_len, vec_capacity};
ghost use Rattle.node_lock.specs.declared.limits.TheConstants.{MAX_ENTRIES};
ghost use Rattle.node_lock.specs.Books.{worker_of};

use cri_msgs::{Answer as Said, Reply, Version};
use manifest::{Pod, PodFault};
use node_lock::{Book, MAX_ENTRIES, Receipt, audit};
use std::alloc::{AllocError, Global};
use std::sync::ledger::{Blank, Ledger, Share};
use worker_core::{AgentEvent, Answer, Reported};
use worker_pod::Settings;

pub(crate) fn settings(seccomp_default: bool) -> Settings {
    Settings {
        seccomp_default,
        poll: 0,
        version: Version::V2,
    }
}

// A pod of this name with one container.
pub(crate) fn pod(alloc: Global, name: &str) -> Result<Pod, PodFault> {
    let text = format!(in alloc;
        "{{\"apiVersion\":\"v1\",\"kind\":\"Pod\",\"metadata\":{{\"name\":\"{name}\"}},\
        \"spec\":{{\"containers\":[{{\"name\":\"main\",\"image\":\"m.json\"}}]}}}}"
    )?;
    manifest::read(alloc, text.as_bytes())
}

fn worker_of(event: &AgentEvent) -> u32
    ensures { result ≡ worker_of event.now }
{
    match event {
        AgentEvent::Admit(_) | AgentEvent::Delete(_) | AgentEvent::Tick(_) => 0,
        AgentEvent::Claim(worker) | AgentEvent::Report(worker, _) | AgentEvent::Abandon(worker) =>
            *worker,
    }
}

// The event of a word: A with a pod's name, t with a moment, and with a worker c for a claim, l for a loss, a
// for an abandon, and d for the reply done to request 1.
fn event(alloc: Global, word: &str) -> Result<Option<AgentEvent>, PodFault> {
    let Some((letter, rest)) = word.split_at_checked(1) else {
        return Ok(None);
    };
    let worker = rest.parse::<u32>().unwrap_or(0);
    let done = Reply {
        id: 1,
        answer: Said::Done,
    };
    Ok(match letter.as_bytes().first().copied().unwrap_or(b'?') {
        b'A' => Some(AgentEvent::Admit(pod(alloc, rest)?)),
        b't' => Some(AgentEvent::Tick(rest.parse::<u64>().unwrap_or(0))),
        b'c' => Some(AgentEvent::Claim(worker)),
        b'l' => Some(AgentEvent::Report(worker, Reported::Lost)),
        b'a' => Some(AgentEvent::Abandon(worker)),
        b'd' => Some(AgentEvent::Report(worker, Reported::Replied(done))),
        _ => None,
    })
}

fn answer_text(alloc: Global, receipt: &Receipt) -> Result<String, AllocError> {
    let (number, entry) = (receipt.number(), receipt.entry());
    match &entry.answer {
        Answer::Done => format!(in alloc; "{number} done"),
        Answer::Claimed {
            number: request,
            ..
        } => format!(in alloc; "{number} request {request}"),
        Answer::Nothing => format!(in alloc; "{number} nothing"),
        Answer::Refused(refusal) => format!(in alloc; "{number} {refusal}"),
    }
}

fn keep(receipts: &mut Vec<Receipt>, receipt: Receipt)
    requires { vec_len receipts.old < vec_capacity receipts.old }
    ensures { vec_len receipts.new ≡ vec_len receipts.old + 1 }
{
    let pushed = receipts.push(receipt);
    let kept = pushed.is_ok();
    prove!(kept);
    drop(pushed);
}

// A book, and the receipts for all its entries.
#[derive(Drop)]
pub(crate) struct Play<L: Ledger> {
    alloc: Global,
    pub(crate) book: Book<L>,
    share: Share<L>,
    receipts: Vec<Receipt>,
    ghost some: { 0 < share.parts },
}

impl<L: Ledger> Play<L> {
    pub(crate) fn new(alloc: Global, settings: Settings, limit: usize, blank: Blank) -> Play<L>
        requires name { blank.name ≡ L.name }
        requires parts { blank.parts ≡ L.parts }
        requires some { 0 < blank.parts }
        requires limit { limit ≤ MAX_ENTRIES }
    {
        let (book, share) = Book::with_limit(alloc, settings, limit, blank);
        Play {
            alloc,
            book,
            share,
            receipts: Vec::new(alloc),
        }
    }

    fn records(&mut self, event: AgentEvent) -> Result<String, AllocError> {
        self.receipts.reserve(1)?;
        let worker = worker_of(&event);
        match self.book.record(&mut self.share, worker, event) {
            Ok(receipt) => {
                let text = answer_text(self.alloc, &receipt);
                keep(&mut self.receipts, receipt);
                text
            }
            Err(fault) => format!(in self.alloc; "{} {fault}", fault.number()),
        }
    }

    // Records the events of the words, and returns the answer to each.
    pub(crate) fn plays(&mut self, words: &str) -> Result<String, PodFault> {
        let mut text = String::new(self.alloc);
        for word in words.split_whitespace() {
            if let Some(event) = event(self.alloc, word)? {
                let answer = self.records(event)?;
                write!(text, "{word}: {}; ", answer.as_str())?;
            }
        }
        Ok(text)
    }

    pub(crate) fn stand(&self, receipts: &[Receipt]) -> bool {
        audit(self.book.before(), self.book.history(), receipts)
    }

    pub(crate) fn receipts(&self) -> &[Receipt] {
        self.receipts.as_slice()
    }
}

// Whether all receipts of a play match another one's history.
pub(crate) fn agree<L: Ledger, M: Ledger>(play: &Play<L>, other: &Play<M>) -> bool {
    other.stand(play.receipts())
}

// A play of words under the greatest limit.
pub(crate) fn played<L: Ledger>(
    alloc: Global,
    settings: Settings,
    words: &str,
    blank: Blank,
) -> Result<Play<L>, PodFault>
    requires name { blank.name ≡ L.name }
    requires parts { blank.parts ≡ L.parts }
    requires some { 0 < blank.parts }
{
    let mut play = Play::new(alloc, settings, MAX_ENTRIES, blank);
    play.plays(words)?;
    Ok(play)
}
