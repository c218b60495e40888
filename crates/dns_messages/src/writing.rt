// Writing messages.
ghost use Rattle.std.specs.Prelude.{◌≡◌, ◌+◌, ◌<◌, ◌≤◌, ◌^◌, OnOk, IfOk, IfSome, length, Err, true, false};
ghost use Rattle.std.specs.List.{AllByRecursion};
ghost use Rattle.std.specs.Option.{option_len};
ghost use Rattle.byteorder.specs.Endian.{big_bytes};
ghost use Rattle.dns_names.specs.Prelude.{IsName, nothing};
ghost use Rattle.dns_messages.specs.Relation.{IsMessage};
ghost use Rattle.dns_messages.specs.Suits.{MessageSuits};
ghost use Rattle.dns_messages.specs.Inside.Suits.{HasNoRecords, ContentFits, ResourceFits, QuestionFits, MessageFits};
ghost use Rattle.dns_messages.specs.Writing.{content_written, sized, head_written, resource_written, resources_written, questions_written, header_written, message_written, spelling, put, name, ◌⨟◌};
ghost use Rattle.dns_messages.specs.Inside.Writers.{wrote, Writes};

use crate::message::{Content, Message, Question, Resource};
use crate::stop::WriteStop;
use dns_names::{LONGEST_MESSAGE, Name, NameWriter};
use gate_base::OutOfMemory;
use std::alloc::Global;

fn put_octets(writer: &mut NameWriter, octets: &[u8]) -> Result<(), OutOfMemory>
    ensures { OnOk result (writer.new ≡ wrote writer.old (put octets.now)) }
{
    writer.put_octets(octets)
}

fn put_u16(writer: &mut NameWriter, number: u16) -> Result<(), OutOfMemory>
    ensures { OnOk result (writer.new ≡ wrote writer.old (put (big_bytes 2 number))) }
{
    put_octets(writer, &number.to_be_bytes())
}

fn put_u32(writer: &mut NameWriter, number: u32) -> Result<(), OutOfMemory>
    ensures { OnOk result (writer.new ≡ wrote writer.old (put (big_bytes 4 number))) }
{
    put_octets(writer, &number.to_be_bytes())
}

fn put_two<'a>(
    writer: &mut NameWriter<'a>,
    first: &'a Name,
    second: &'a Name,
) -> Result<(), OutOfMemory>
    ensures text { OnOk result
        (writer.new ≡ wrote writer.old (name first.now ⨟ name second.now)) }
    ensures names { OnOk result (IsName first.now × IsName second.now) }
{
    writer.put_name(first)?;
    writer.put_name(second)?;
    Ok(())
}

fn put_soa<'a>(
    writer: &mut NameWriter<'a>,
    first: &'a Name,
    second: &'a Name,
    octets: &[u8],
) -> Result<(), OutOfMemory>
    ensures text { OnOk result (writer.new
        ≡ wrote writer.old (name first.now ⨟ name second.now ⨟ put octets.now)) }
    ensures names { OnOk result (IsName first.now × IsName second.now) }
{
    writer.put_name(first)?;
    writer.put_name(second)?;
    put_octets(writer, octets)?;
    Ok(())
}

fn put_mx<'a>(
    writer: &mut NameWriter<'a>,
    preference: u16,
    exchange: &'a Name,
) -> Result<(), OutOfMemory>
    ensures text { OnOk result (writer.new
        ≡ wrote writer.old (put (big_bytes 2 preference) ⨟ name exchange.now)) }
    ensures names { OnOk result (IsName exchange.now) }
{
    put_u16(writer, preference)?;
    writer.put_name(exchange)?;
    Ok(())
}

fn put_content<'a>(writer: &mut NameWriter<'a>, content: &'a Content) -> Result<(), OutOfMemory>
    ensures text { OnOk result
        (writer.new ≡ wrote writer.old (content_written content.now)) }
    ensures fits { OnOk result (ContentFits content.now) }
{
    match content {
        Content::Address(address) => put_u32(writer, address.0),
        Content::One(name) => writer.put_name(name),
        Content::Soa(first, second, octets) => put_soa(writer, first, second, octets.items()),
        Content::Two(first, second) => put_two(writer, first, second),
        Content::Mx(preference, exchange) => put_mx(writer, *preference, exchange),
        Content::Octets(octets) => put_octets(writer, octets.items()),
    }
}

/// The content behind its length.
fn put_sized<'a>(writer: &mut NameWriter<'a>, content: &'a Content) -> Result<(), WriteStop>
    ensures text { Writes result writer.old writer.new
        (sized (content_written content.now)) }
    ensures fits { OnOk result (ContentFits content.now) }
    ensures short { OnOk result (length writer.new.octets < 2 ^ 16) }
{
    let place = writer.len();
    writer.put_octets(&[0, 0])?;
    put_content(writer, content)?;
    let end = writer.len();
    if end > LONGEST_MESSAGE {
        return Err(WriteStop::TooLong);
    }
    writer.set_number(place, (end - (place + 2)) as u16);
    Ok(())
}

fn put_head<'a>(writer: &mut NameWriter<'a>, resource: &'a Resource) -> Result<(), OutOfMemory>
    ensures text { OnOk result
        (writer.new ≡ wrote writer.old (head_written resource.now)) }
    ensures name { OnOk result (IsName resource.now.name) }
    ensures kind { resource.now.kind < 2 ^ 16 }
    ensures class { resource.now.class < 2 ^ 16 }
    ensures lifetime { resource.now.lifetime < 2 ^ 32 }
{
    let (kind, class, lifetime) = (resource.kind, resource.class, resource.lifetime);
    writer.put_name(&resource.name)?;
    put_u16(writer, kind)?;
    put_u16(writer, class)?;
    put_u32(writer, lifetime)?;
    Ok(())
}

fn put_resource<'a>(writer: &mut NameWriter<'a>, resource: &'a Resource) -> Result<(), WriteStop>
    ensures text { Writes result writer.old writer.new
        (resource_written resource.now) }
    ensures fits { OnOk result (ResourceFits resource.now) }
{
    put_head(writer, resource)?;
    put_sized(writer, &resource.content)
}

/// Writes records, and stops as soon as all is too long.
fn put_resources<'a>(
    writer: &mut NameWriter<'a>,
    resources: &'a [Resource],
) -> Result<(), WriteStop>
    ensures text { Writes result writer.old writer.new
        (resources_written resources.now) }
    ensures fits { OnOk result (AllByRecursion ResourceFits resources.now) }
{
    for resource in resources {
        put_resource(writer, resource)?;
    }
    Ok(())
}

fn put_one_question<'a>(
    writer: &mut NameWriter<'a>,
    question: &'a Question,
) -> Result<(), OutOfMemory>
    ensures text { OnOk result (writer.new
        ≡ wrote writer.old (name question.now.name
        ⨟ put (big_bytes 2 question.now.kind)
        ⨟ put (big_bytes 2 question.now.class))) }
    ensures name { OnOk result (IsName question.now.name) }
    ensures kind { question.now.kind < 2 ^ 16 }
    ensures class { question.now.class < 2 ^ 16 }
{
    let (kind, class) = (question.kind, question.class);
    writer.put_name(&question.name)?;
    put_u16(writer, kind)?;
    put_u16(writer, class)?;
    Ok(())
}

fn put_question<'a>(
    writer: &mut NameWriter<'a>,
    question: &'a Option<Question>,
) -> Result<(), OutOfMemory>
    ensures text { OnOk result
        (writer.new ≡ wrote writer.old (questions_written question.now)) }
    ensures fits { OnOk result (IfSome question.now QuestionFits) }
{
    match question {
        None => put_octets(writer, &[]),
        Some(question) => put_one_question(writer, question),
    }
}

fn asked(question: &Option<Question>) -> u16
    ensures { result ≡ option_len question.now }
{
    match question {
        None => 0,
        Some(_) => 1,
    }
}

/// Whether the records of each part can be counted in 16 bits.
fn can_be_counted(message: &Message) -> bool
    ensures few { result ≡ true
        → (length message.now.answers < 2 ^ 16)
        × (length message.now.authority < 2 ^ 16)
        × (length message.now.additional < 2 ^ 16) }
    ensures many { result ≡ false
        → 2 ^ 16
        ≤ length message.now.answers + length message.now.authority
        + length message.now.additional }
{
    message.answers.items().len() <= 65_535
        && message.authority.items().len() <= 65_535
        && message.additional.items().len() <= 65_535
}

fn put_header(writer: &mut NameWriter, message: &Message) -> Result<(), OutOfMemory>
    requires answers { length message.now.answers < 2 ^ 16 }
    requires authority { length message.now.authority < 2 ^ 16 }
    requires additional { length message.now.additional < 2 ^ 16 }
    ensures text { OnOk result
        (writer.new ≡ wrote writer.old (header_written message.now)) }
    ensures id { message.now.id < 2 ^ 16 }
    ensures flags { message.now.flags < 2 ^ 16 }
{
    let (id, flags) = (message.id, message.flags);
    put_u16(writer, id)?;
    put_u16(writer, flags)?;
    put_u16(writer, asked(&message.question))?;
    put_u16(writer, message.answers.items().len() as u16)?;
    put_u16(writer, message.authority.items().len() as u16)?;
    put_u16(writer, message.additional.items().len() as u16)?;
    Ok(())
}

fn put_message<'a>(writer: &mut NameWriter<'a>, message: &'a Message) -> Result<(), WriteStop>
    requires answers { length message.now.answers < 2 ^ 16 }
    requires authority { length message.now.authority < 2 ^ 16 }
    requires additional { length message.now.additional < 2 ^ 16 }
    ensures text { Writes result writer.old writer.new (message_written message.now) }
    ensures fits { OnOk result (MessageFits message.now) }
{
    put_header(writer, message)?;
    put_question(writer, &message.question)?;
    put_resources(writer, message.answers.items())?;
    put_resources(writer, message.authority.items())?;
    put_resources(writer, message.additional.items())
}

/// The room that a message is begun with, in octets: most have fewer.
const ROOM: usize = 512;

/// A writer with that room.
fn writer_in<'a>(alloc: Global) -> Result<NameWriter<'a>, OutOfMemory>
    ensures { IfOk result (λ writer. writer ≡ nothing) }
{
    NameWriter::new(Vec::with_capacity(alloc, ROOM)?)
}

/// Whether a message has no records.
fn has_no_records(message: &Message) -> bool
    ensures { result ≡ true → HasNoRecords message.now }
{
    message.answers.items().is_empty()
        && message.authority.items().is_empty()
        && message.additional.items().is_empty()
}

/// Writes a message without records. The name of its question is written as it stands, since no other stands before it.
/// It can't be too long.
fn write_question(alloc: Global, message: &Message) -> Result<Vec<u8>, OutOfMemory>
    requires { HasNoRecords message.now }
    ensures written { IfOk result (λ octets. octets.items ≡ spelling message.now) }
    ensures short { IfOk result (λ octets. length octets.items < 2 ^ 16) }
    ensures fits { OnOk result (MessageFits message.now) }
{
    let (id, flags) = (message.id, message.flags);
    let count = asked(&message.question) as u8;
    let ([a, b], [c, d]) = (id.to_be_bytes(), flags.to_be_bytes());
    let mut octets = Vec::with_capacity(alloc, ROOM)?;
    octets.extend_from_slice(&[a, b, c, d, 0, count, 0, 0, 0, 0, 0, 0])?;
    let Some(question) = &message.question else {
        return Ok(octets);
    };
    let (kind, class) = (question.kind, question.class);
    let ([a, b], [c, d]) = (kind.to_be_bytes(), class.to_be_bytes());
    octets.extend_from_slice(question.name.octets())?;
    octets.extend_from_slice(&[0, a, b, c, d])?;
    Ok(octets)
}

/// The one spelling of a message: each name is as short as what stands before it lets it be. `TooLong` exactly where it, or
/// the data of one record in it, would have more than 65,535 octets. The data of each record must be what its type and
/// class hold.
pub fn write_message(alloc: Global, message: &Message) -> Result<Vec<u8>, WriteStop>
    requires { MessageSuits message.now }
    ensures written { IfOk result (λ octets. octets.items ≡ spelling message.now) }
    ensures short { IfOk result (λ octets. length octets.items < 2 ^ 16) }
    ensures long { result ≡ Err WriteStop.TooLong
        → 2 ^ 16 ≤ length (spelling message.now) }
    // It reads back as the message.
    ensures again { IfOk result (λ octets. IsMessage octets.items message.now) }
{
    if has_no_records(message) {
        return Ok(write_question(alloc, message)?);
    }
    if !can_be_counted(message) {
        return Err(WriteStop::TooLong);
    }
    let mut writer = writer_in(alloc)?;
    put_message(&mut writer, message)?;
    if writer.len() > LONGEST_MESSAGE {
        return Err(WriteStop::TooLong);
    }
    Ok(writer.finish())
}
