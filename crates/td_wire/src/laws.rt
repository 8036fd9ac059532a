// What the spellings are like, each law as the contract of a function.
ghost use Rattle.std.specs.Prelude.{◌≡◌, ℕ, List, Ok};
ghost use Rattle.td_op.specs.declared.message.Message.{Message};
ghost use Rattle.td_wire.specs.declared.format.Format.{Format};
ghost use Rattle.td_wire.specs.Spelling.{Spells};

use crate::reading::{Malformed, decode};
use crate::writing::encode;
use td_op::Message;

/// No bytes spell two messages, and none spell one message in both formats.
pub fn spellings_are_unique()
    ensures message { (bytes : List ℕ) (f g : Format) (m n : Message) → Spells f m bytes → Spells g n bytes → m ≡ n }
    ensures format { (bytes : List ℕ) (f g : Format) (m n : Message) → Spells f m bytes → Spells g n bytes → f ≡ g }
{}

/// What `decode` answers to the packet of a message: the message.
pub fn decode_encoded(message: &Message) -> Result<Message, Malformed>
    ensures { result ≡ Ok message.now }
{
    decode(encode(message).bytes())
}
