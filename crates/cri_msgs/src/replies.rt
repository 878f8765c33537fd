ghost use Rattle.std.specs.Prelude.{◌≡◌, ◌≢◌, ◌↔◌, ◌<◌, ◌≤◌, IfOk, IfErr, IsTrue, Ok, length};
ghost use Rattle.json_tree.specs.Reading.{Gives};
ghost use Rattle.cri_msgs.specs.declared.faults.MessageFault.{MessageFault};
ghost use Rattle.cri_msgs.specs.declared.replies.Reply.{Reply};
ghost use Rattle.cri_msgs.specs.declared.version.TheConstants.{MAX_TEXT};
ghost use Rattle.cri_msgs.specs.Reading.{reply_reading};
ghost use Rattle.cri_msgs.specs.Replies.{IsAnswerOf, ReadsReply};
ghost use Rattle.cri_msgs.specs.Requests.{number_of};
ghost use Rattle.cri_msgs.specs.Written.{reply_text};

use crate::faults::MessageFault;
use crate::fields::message_fault;
use crate::lists::{Listing, Statuses};
use crate::refusals::Refusal;
use crate::reply_reader::reply;
use crate::reply_writer::answer_tree;
use crate::states::Status;
use crate::version::Version;
use json_tree::TextFault;
use std::alloc::{AllocError, Global};

/// The answer of a runtime.
#[derive(Debug, Drop)]
pub enum Answer {
    Refused(Refusal),
    /// The call was carried out, and has no result.
    Done,
    /// The id of the container that CreateContainer made, or had made before.
    Container(u64),
    Status(Status),
    /// The containers of a sandbox.
    List(Listing),
    /// The statuses of a sandbox's containers, which version 1 does not have.
    Statuses(Statuses),
}

impl Answer {
    /// Whether both are the same answer.
    pub fn same(&self, other: &Answer) -> bool
        ensures { IsTrue result ↔ (self.now ≡ other.now) }
    {
        match (self, other) {
            (Answer::Refused(refusal), Answer::Refused(another)) => *refusal == *another,
            (Answer::Done, Answer::Done) => true,
            (Answer::Container(id), Answer::Container(another)) => *id == *another,
            (Answer::Status(status), Answer::Status(another)) => status.same(another),
            (Answer::List(list), Answer::List(another)) => list.same(another),
            (Answer::Statuses(list), Answer::Statuses(another)) => list.same(another),
            _ => false,
        }
    }

    /// A copy of the answer.
    pub fn try_clone(&self, alloc: Global) -> Result<Answer, AllocError>
        ensures { IfOk result (λ copy. copy ≡ self.now) }
    {
        match self {
            Answer::Refused(refusal) => Ok(Answer::Refused(*refusal)),
            Answer::Done => Ok(Answer::Done),
            Answer::Container(id) => Ok(Answer::Container(*id)),
            Answer::Status(status) => Ok(Answer::Status(*status)),
            Answer::List(list) => Ok(Answer::List(list.try_clone(alloc)?)),
            Answer::Statuses(list) => Ok(Answer::Statuses(list.try_clone(alloc)?)),
        }
    }
}

/// An answer with the number of the request that it answers.
#[derive(Debug, Drop)]
pub struct Reply {
    pub id: u64,
    pub answer: Answer,
}

impl Reply {
    /// Whether both are the same reply.
    pub fn same(&self, other: &Reply) -> bool
        ensures { IsTrue result ↔ (self.now ≡ other.now) }
    {
        self.id == other.id && self.answer.same(&other.answer)
    }

    /// Reads the reply in the text of a frame of this version. Any other text is reported with its number.
    pub fn read(alloc: Global, version: Version, bytes: &[u8]) -> Result<Reply, MessageFault>
        // The result is the text's reply.
        ensures found { IfOk result (λ reply. ReadsReply version bytes.now reply) }

        // Every reply is read, unless memory runs out.
        ensures only { (reply : Reply) → ReadsReply version bytes.now reply
            → Gives MessageFault.Memory (λ r. r) result (Ok reply) }

        // Any other text is reported with its number.
        ensures refused { IfErr result (λ fault. fault ≢ MessageFault.Memory
            → fault ≡ MessageFault.NoMessage (number_of bytes.now)) }
    {
        reading(alloc, version, bytes)
    }

    /// The text of the reply in a frame of this version: compact JSON, keys in the order of their bytes.
    /// Version 1 has no statuses: their text then does not read as a message.
    #[tactic(auto, using(crate::proofs::WrittenReply::no_float))]
    pub fn write(&self, alloc: Global, version: Version) -> Result<Vec<u8>, AllocError>
        ensures text { IfOk result (λ bytes. bytes.items ≡ reply_text version self.now) }

        // The text reads as this reply.
        ensures reads { IsAnswerOf version self.now.answer
            → IfOk result (λ bytes. ReadsReply version bytes.items self.now) }

        // It fits into a frame.
        ensures some { IfOk result (λ bytes. 0 < length bytes.items) }
        ensures short { IfOk result (λ bytes. length bytes.items ≤ MAX_TEXT) }
    {
        let tree = answer_tree(alloc, version, self.id, &self.answer)?;
        tree.to_vec(alloc)
    }

    /// A copy of the reply.
    pub fn try_clone(&self, alloc: Global) -> Result<Reply, AllocError>
        ensures { IfOk result (λ copy. copy ≡ self.now) }
    {
        let answer = self.answer.try_clone(alloc)?;
        Ok(Reply {
            id: self.id,
            answer,
        })
    }
}

#[tactic(auto, unfolding(json_tree::specs::Reading::document))]
fn reading(alloc: Global, version: Version, bytes: &[u8]) -> Result<Reply, MessageFault>
    ensures { Gives MessageFault.Memory (λ r. r) result (reply_reading version bytes.now) }
{
    match json_tree::read(alloc, bytes) {
        Ok(tree) => reply(alloc, version, &tree).map_err(|fault| message_fault(fault, &tree)),
        Err(TextFault::NotJson) => Err(MessageFault::NoMessage(0)),
        Err(TextFault::Memory) => Err(MessageFault::Memory),
    }
}
