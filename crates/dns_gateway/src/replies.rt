// What is sent for a message (RFC 1035, 4.1.1 and 4.2.1).
ghost use Rattle.std.specs.Prelude.{◌≡◌, ◌≤◌, max, length, IfOk, IfSome};
ghost use Rattle.dns_names.specs.Prelude.{IsName};
ghost use Rattle.dns_messages.specs.Suits.{MessageSuits};
ghost use Rattle.dns_messages.specs.Writing.{spelling};
ghost use Rattle.dns_gateway.specs.Replies.{cut, reply_of};

use dns_messages::{Message, Question, Resources, WriteStop, write_message};
use gate_base::OutOfMemory;
use std::alloc::Global;

/// The most octets of a message over UDP where no extension allows more (RFC 1035, 4.2.1).
pub const LONGEST_PLAIN: usize = 512;

/// The flag TC, which says that a message was cut (RFC 1035, 4.1.1).
pub const TRUNCATED: u16 = 0x0200;

fn question_of(alloc: Global, question: &Option<Question>) -> Result<Option<Question>, OutOfMemory>
    ensures same { IfOk result (λ same. same ≡ question.now) }
    ensures name { IfOk result (λ _. IfSome question.now (λ q. IsName q.name)) }
{
    match question {
        None => Ok(None),
        Some(question) => Ok(Some(Question {
            name: question.name.try_clone(alloc)?,
            kind: question.kind,
            class: question.class,
        })),
    }
}

/// The header with the flag TC set and the counts of records 0, and the question.
fn cut(alloc: Global, message: &Message) -> Result<Message, OutOfMemory>
    ensures is { IfOk result (λ short. short ≡ cut message.now) }
    ensures name { IfOk result
        (λ _. IfSome message.now.question (λ q. IsName q.name)) }
{
    Ok(Message {
        id: message.id,
        flags: message.flags | TRUNCATED,
        question: question_of(alloc, &message.question)?,
        answers: Resources::none(),
        authority: Resources::none(),
        additional: Resources::none(),
    })
}

fn put_cut(alloc: Global, message: &Message) -> Result<Vec<u8>, OutOfMemory>
    ensures is { IfOk result (λ octets. octets.items ≡ spelling (cut message.now)) }
    ensures short { IfOk result (λ octets. length octets.items ≤ LONGEST_PLAIN) }
{
    let short = cut(alloc, message)?;
    match write_message(alloc, &short) {
        Ok(octets) => Ok(octets),
        Err(_) => Err(OutOfMemory),
    }
}

/// The octets that are sent for a message, where one of so many octets came in: its spelling. The header with the flag TC set and
/// the question alone are sent instead where the spelling is longer than what came in and than `LONGEST_PLAIN` octets, or too long for a
/// message. The data of each record must be what its type and class hold.
pub fn reply(alloc: Global, message: &Message, incoming: usize) -> Result<Vec<u8>, OutOfMemory>
    requires { MessageSuits message.now }
    ensures is { IfOk result
        (λ octets. octets.items ≡ reply_of message.now incoming) }
    ensures short { IfOk result (λ octets. length octets.items ≤ max LONGEST_PLAIN incoming) }
{
    match write_message(alloc, message) {
        Ok(octets) => {
            if octets.len() <= incoming.max(LONGEST_PLAIN) {
                Ok(octets)
            } else {
                put_cut(alloc, message)
            }
        }
        Err(WriteStop::TooLong) => put_cut(alloc, message),
        Err(WriteStop::OutOfMemory) => Err(OutOfMemory),
    }
}
