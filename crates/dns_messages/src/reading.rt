// Reading messages.
ghost use Rattle.std.specs.Prelude.{◌≡◌, ◌≤◌, take, drop, IfOk, Err};
ghost use Rattle.dns_names.specs.Prelude.{ReturnsRead};
ghost use Rattle.dns_messages.specs.declared.message.Message.{Message};
ghost use Rattle.dns_messages.specs.Relation.{IsMessage};
ghost use Rattle.dns_messages.specs.Suits.{MessageSuits};
ghost use Rattle.dns_messages.specs.Reading.{number_at, octets_at, content_by, resource_at, resources_at, question_at, questions_at, message_at};

use crate::form::{Form, form_at};
use crate::lists::Resources;
use crate::message::{Content, Message, Question, Resource};
use dns_names::{NameReader, NameStop};
use gate_base::{Addr, Items, get_u16, get_u32};
use std::alloc::Global;

fn u16_at(reader: &NameReader<'_>, place: usize) -> Result<(u16, usize), NameStop>
    ensures { ReturnsRead (λ x. (x.0, x.1)) result (number_at 2 reader.now place) }
{
    let message = reader.message();
    if place > message.len() || message.len() - place < 2 {
        return Err(NameStop::BadDns);
    }
    Ok((get_u16(message, place), place + 2))
}

fn u32_at(reader: &NameReader<'_>, place: usize) -> Result<(u32, usize), NameStop>
    ensures { ReturnsRead (λ x. (x.0, x.1)) result (number_at 4 reader.now place) }
{
    let message = reader.message();
    if place > message.len() || message.len() - place < 4 {
        return Err(NameStop::BadDns);
    }
    Ok((get_u32(message, place), place + 4))
}

fn octets_of(
    alloc: Global,
    reader: &NameReader<'_>,
    place: usize,
    count: usize,
) -> Result<(Vec<u8>, usize), NameStop>
    ensures { ReturnsRead (λ x. (x.0.items, x.1)) result
        (octets_at reader.now place count) }
{
    let message = reader.message();
    if place > message.len() || message.len() - place < count {
        return Err(NameStop::BadDns);
    }
    Ok((
        Vec::from_slice(alloc, &message[place..place + count])?,
        place + count,
    ))
}

#[tactic(auto, unfolding(crate::specs::Reading::content_by))]
fn one_of(
    alloc: Global,
    reader: &mut NameReader<'_>,
    place: usize,
    end: usize,
) -> Result<Content, NameStop>
    ensures reads { ReturnsRead (λ x. x) result
        (content_by Form.One reader.old place end) }
    ensures stays { reader.new ≡ reader.old }
{
    let (name, after) = reader.read(alloc, place)?;
    if after != end {
        return Err(NameStop::BadDns);
    }
    Ok(Content::One(name))
}

#[tactic(auto, unfolding(crate::specs::Reading::content_by))]
fn one_address(reader: &NameReader<'_>, place: usize, end: usize) -> Result<Content, NameStop>
    ensures { ReturnsRead (λ x. x) result
        (content_by Form.Address reader.now place end) }
{
    let (address, after) = u32_at(reader, place)?;
    if after != end {
        return Err(NameStop::BadDns);
    }
    Ok(Content::Address(Addr(address)))
}

#[tactic(auto, unfolding(crate::specs::Reading::content_by))]
fn soa_of(
    alloc: Global,
    reader: &mut NameReader<'_>,
    place: usize,
    end: usize,
) -> Result<Content, NameStop>
    ensures reads { ReturnsRead (λ x. x) result
        (content_by Form.Soa reader.old place end) }
    ensures stays { reader.new ≡ reader.old }
{
    let (first, place) = reader.read(alloc, place)?;
    let (second, place) = reader.read(alloc, place)?;
    let (octets, after) = octets_of(alloc, reader, place, 20)?;
    if after != end {
        return Err(NameStop::BadDns);
    }
    Ok(Content::Soa(first, second, Items::of(octets)))
}

#[tactic(auto, unfolding(crate::specs::Reading::content_by))]
fn two_of(
    alloc: Global,
    reader: &mut NameReader<'_>,
    place: usize,
    end: usize,
) -> Result<Content, NameStop>
    ensures reads { ReturnsRead (λ x. x) result
        (content_by Form.Two reader.old place end) }
    ensures stays { reader.new ≡ reader.old }
{
    let (first, place) = reader.read(alloc, place)?;
    let (second, after) = reader.read(alloc, place)?;
    if after != end {
        return Err(NameStop::BadDns);
    }
    Ok(Content::Two(first, second))
}

#[tactic(auto, unfolding(crate::specs::Reading::content_by))]
fn mx_of(
    alloc: Global,
    reader: &mut NameReader<'_>,
    place: usize,
    end: usize,
) -> Result<Content, NameStop>
    ensures reads { ReturnsRead (λ x. x) result
        (content_by Form.Mx reader.old place end) }
    ensures stays { reader.new ≡ reader.old }
{
    let (preference, place) = u16_at(reader, place)?;
    let (name, after) = reader.read(alloc, place)?;
    if after != end {
        return Err(NameStop::BadDns);
    }
    Ok(Content::Mx(preference, name))
}

#[tactic(auto, unfolding(crate::specs::Reading::content_by))]
fn rest_of(
    alloc: Global,
    reader: &NameReader<'_>,
    place: usize,
    end: usize,
) -> Result<Content, NameStop>
    requires { place ≤ end }
    ensures { ReturnsRead (λ x. x) result
        (content_by Form.Octets reader.now place end) }
{
    let (octets, after) = octets_of(alloc, reader, place, end - place)?;
    if after != end {
        return Err(NameStop::BadDns);
    }
    Ok(Content::Octets(Items::of(octets)))
}

fn content_of(
    alloc: Global,
    form: Form,
    reader: &mut NameReader<'_>,
    place: usize,
    end: usize,
) -> Result<Content, NameStop>
    requires { place ≤ end }
    ensures reads { ReturnsRead (λ x. x) result
        (content_by form reader.old place end) }
    ensures stays { reader.new ≡ reader.old }
{
    match form {
        Form::Address => one_address(reader, place, end),
        Form::One => one_of(alloc, reader, place, end),
        Form::Soa => soa_of(alloc, reader, place, end),
        Form::Two => two_of(alloc, reader, place, end),
        Form::Mx => mx_of(alloc, reader, place, end),
        Form::Octets => rest_of(alloc, reader, place, end),
    }
}

/// The place after so many octets, where they are there.
fn place_behind(reader: &NameReader<'_>, place: usize, count: usize) -> Result<usize, NameStop>
    ensures { ReturnsRead (λ after. (take count (drop place reader.now), after))
        result (octets_at reader.now place count) }
{
    let message = reader.message();
    if place > message.len() || message.len() - place < count {
        return Err(NameStop::BadDns);
    }
    Ok(place + count)
}

#[tactic(auto, unfolding(crate::specs::Reading::resource_at))]
fn resource_of(
    alloc: Global,
    reader: &mut NameReader<'_>,
    place: usize,
) -> Result<(Resource, usize), NameStop>
    ensures reads { ReturnsRead (λ x. (x.0, x.1)) result
        (resource_at reader.old place) }
    ensures stays { reader.new ≡ reader.old }
{
    let (name, place) = reader.read(alloc, place)?;
    let (kind, place) = u16_at(reader, place)?;
    let (class, place) = u16_at(reader, place)?;
    let (lifetime, place) = u32_at(reader, place)?;
    let (count, place) = u16_at(reader, place)?;
    let count = count as usize;
    let end = place_behind(reader, place, count)?;
    let content = content_of(alloc, form_at(kind, class, count), reader, place, end)?;
    Ok((
        Resource {
            name,
            kind,
            class,
            lifetime,
            content,
        },
        end,
    ))
}

fn resources_of(
    alloc: Global,
    count: u16,
    reader: &mut NameReader<'_>,
    place: usize,
) -> Result<(Vec<Resource>, usize), NameStop>
    ensures reads { ReturnsRead (λ x. (x.0.items, x.1)) result
        (resources_at count reader.old place) }
    ensures stays { reader.new ≡ reader.old }
{
    let mut resources = Vec::new(alloc);
    let mut at = place;
    for _ in 0..count {
        let (resource, after) = resource_of(alloc, reader, at)?;
        resources.push(resource)?;
        at = after;
    }
    Ok((resources, at))
}

#[tactic(auto, unfolding(crate::specs::Reading::resources_at))]
fn list_of(
    alloc: Global,
    count: u16,
    reader: &mut NameReader<'_>,
    place: usize,
) -> Result<(Resources, usize), NameStop>
    ensures reads { ReturnsRead (λ x. (x.0, x.1)) result
        (resources_at count reader.old place) }
    ensures stays { reader.new ≡ reader.old }
{
    if count == 0 {
        return Ok((Resources::none(), place));
    }
    let (resources, after) = resources_of(alloc, count, reader, place)?;
    Ok((Resources::of(resources), after))
}

#[tactic(auto, unfolding(crate::specs::Reading::question_at))]
fn question_of(
    alloc: Global,
    reader: &mut NameReader<'_>,
    place: usize,
) -> Result<(Question, usize), NameStop>
    ensures reads { ReturnsRead (λ x. (x.0, x.1)) result
        (question_at reader.old place) }
    ensures stays { reader.new ≡ reader.old }
{
    let (name, place) = reader.read(alloc, place)?;
    let (kind, place) = u16_at(reader, place)?;
    let (class, place) = u16_at(reader, place)?;
    Ok((Question { name, kind, class }, place))
}

#[tactic(auto, unfolding(crate::specs::Reading::questions_at))]
fn questions_of(
    alloc: Global,
    count: u16,
    reader: &mut NameReader<'_>,
    place: usize,
) -> Result<(Option<Question>, usize), NameStop>
    ensures reads { ReturnsRead (λ x. (x.0, x.1)) result
        (questions_at count reader.old place) }
    ensures stays { reader.new ≡ reader.old }
{
    if count == 0 {
        return Ok((None, place));
    }
    if count > 1 {
        return Err(NameStop::BadDns);
    }
    let (question, after) = question_of(alloc, reader, place)?;
    Ok((Some(question), after))
}

#[tactic(auto, unfolding(crate::specs::Reading::message_at))]
fn message_of(alloc: Global, reader: &mut NameReader<'_>) -> Result<Message, NameStop>
    ensures reads { ReturnsRead (λ m. m) result (message_at reader.old) }
    ensures stays { reader.new ≡ reader.old }
{
    let (id, place) = u16_at(reader, 0)?;
    let (flags, place) = u16_at(reader, place)?;
    let (asked, place) = u16_at(reader, place)?;
    let (answered, place) = u16_at(reader, place)?;
    let (backed, place) = u16_at(reader, place)?;
    let (added, place) = u16_at(reader, place)?;
    let (question, place) = questions_of(alloc, asked, reader, place)?;
    let (answers, place) = list_of(alloc, answered, reader, place)?;
    let (authority, place) = list_of(alloc, backed, reader, place)?;
    let (additional, place) = list_of(alloc, added, reader, place)?;
    if place != reader.message().len() {
        return Err(NameStop::BadDns);
    }
    Ok(Message {
        id,
        flags,
        question,
        answers,
        authority,
        additional,
    })
}

/// The message that the octets are. `BadDns` exactly where they are none. There they end too early, or hold a second question,
/// octets behind the last record, or a place with no name. Or data don't end where their length says.
pub fn read_message(alloc: Global, octets: &[u8]) -> Result<Message, NameStop>
    ensures found { IfOk result (λ m. IsMessage octets.now m) }
    ensures none { result ≡ Err NameStop.BadDns
        → (m : Message)
        → IsMessage octets.now m
        → ⊥ }
    ensures exact { ReturnsRead (λ m. m) result (message_at octets.now) }
    // It has the form that a message needs to be written.
    ensures suits { IfOk result MessageSuits }
{
    let mut reader = NameReader::of(alloc, octets)?;
    message_of(alloc, &mut reader)
}
