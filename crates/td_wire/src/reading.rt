ghost use Rattle.std.specs.Prelude.{◌≡◌, IfOk, IfErr};
ghost use Rattle.td_op.specs.declared.message.Message.{Message};
ghost use Rattle.td_wire.specs.Spelling.{SpellsIn, IsFaultAt};
ghost use Rattle.td_wire.specs.Reading.{Gives, message_at, vote_at};

use crate::format::{DIGIT_ONE, DIGIT_TWO, Format, INSERT, LETTER, NO, VOTE, YES};
use crate::reader::{Fault, Reader};
use td_op::{Message, Vote};

/// The bytes spell no message. `at` counts those in front of the first one that is at fault: it is the length of their
/// longest front that is the front of some message's spelling, in either format.
#[derive(Clone, Copy, Debug, PartialEq, Eq)]
pub struct Malformed {
    pub at: u32,
}

/// The message that the bytes spell, in format 2 or in format 1. Takes no memory.
pub fn decode(bytes: &[u8]) -> Result<Message, Malformed>
    // What is read is spelled so.
    ensures found { IfOk result (λ m. SpellsIn m bytes.now) }
    // What is spelled so is read.
    ensures only { (m : Message) → SpellsIn m bytes.now → result ≡ Ok m }
    // Nothing is read only where nothing is spelled so, and the place is exact.
    ensures malformed { IfErr result (λ fault. (m : Message) → ¬ SpellsIn m bytes.now) }
    ensures at { IfErr result (λ fault. IsFaultAt bytes.now fault.at) }
{
    let mut reader = Reader { rest: bytes };
    let left = match reader.message() {
        Ok(message) if reader.rest.is_empty() => return Ok(message),
        Ok(_) => reader.rest.len(),
        Err(fault) => fault.left,
    };
    Err(Malformed {
        at: (bytes.len() - left) as u32,
    })
}

impl Reader<'_> {
    #[tactic(auto, unfolding(crate::specs::Reading::message_at))]
    fn message(&mut self) -> Result<Message, Fault>
        ensures { Gives result self.new.rest.now (message_at self.old.rest.now) }
    {
        self.byte(LETTER, LETTER)?;
        let digit = self.byte(DIGIT_ONE, DIGIT_TWO)?;
        let format = if digit == DIGIT_ONE {
            Format::One
        } else {
            Format::Two
        };
        let kind = self.byte(INSERT, VOTE)?;
        if kind == VOTE {
            let vote = self.vote(format)?;
            Ok(Message::Vote(vote))
        } else {
            self.op(format, kind)
        }
    }

    #[tactic(auto, unfolding(crate::specs::Reading::vote_at))]
    fn vote(&mut self, format: Format) -> Result<Vote, Fault>
        ensures { Gives result self.new.rest.now (vote_at format self.old.rest.now) }
    {
        let max_site = format.max_site();
        let voter = self.site(max_site)?;
        let proposal = self.dot(max_site)?;
        let answer = self.byte(NO, YES)?;
        Ok(Vote {
            proposal,
            voter,
            yes: answer == YES,
        })
    }
}
