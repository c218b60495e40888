// A message with the images of its addresses (RFC 2694).
ghost use Rattle.std.specs.Prelude.{◌≡◌, ◌+◌, ◌≤◌, length, option_map, option_to_list, IfOk, OnOk};
ghost use Rattle.dns_messages.specs.Suits.{MessageSuits};
ghost use Rattle.dns_gateway.specs.Addresses.{question_addresses, resource_addresses, resources_addresses, message_addresses};
ghost use Rattle.dns_gateway.specs.Renaming.{image_at, image_of, resource_renamed, resources_renamed, question_renamed, message_renamed};

use crate::addresses::address_in;
use dns_messages::{Content, Message, Question, Resource, Resources};
use dns_names::{address_of, reverse_of};
use gate_base::{Addr, OutOfMemory};
use std::alloc::Global;
use std::mem::replace;

fn image_at(images: &[Option<Addr>], place: usize) -> Option<Addr>
    ensures { result ≡ image_at images.now place }
{
    match images.get(place) {
        Some(image) => *image,
        None => None,
    }
}

fn image_of(address: Option<Addr>, images: &[Option<Addr>], place: usize) -> Option<Addr>
    ensures { result ≡ image_of (option_map (λ a. a.0) address) images.now place }
{
    match address {
        Some(_) => image_at(images, place),
        None => None,
    }
}

/// How many images an address takes.
fn count_of(address: Option<Addr>) -> usize
    ensures count { result ≡ length (option_to_list (option_map (λ a. a.0) address)) }
    ensures small { result ≤ 1 }
{
    match address {
        Some(_) => 1,
        None => 0,
    }
}

/// Gives a record its images, which stand from a place on, and answers the place after them.
fn rename_resource(
    alloc: Global,
    resource: &mut Resource,
    images: &[Option<Addr>],
    place: usize,
) -> Result<usize, OutOfMemory>
    requires { place + length (resource_addresses resource.old) ≤ length images.now }
    ensures renamed { OnOk result
        (resource.new ≡ resource_renamed images.now place resource.old) }
    ensures after { IfOk result
        (λ x. x ≡ place + length (resource_addresses resource.old)) }
{
    let owner = address_of(&resource.name);
    let value = address_in(&resource.content);
    let behind = place + count_of(owner);
    let after = behind + count_of(value);
    let owner = image_of(owner, images, place);
    let value = image_of(value, images, behind);
    // The TTL of a renamed record is 0: an image holds no longer than its binding (RFC 2694).
    if owner.is_some() || value.is_some() {
        resource.lifetime = 0;
    }
    if let Some(address) = owner {
        resource.name = reverse_of(alloc, address, &resource.name)?;
    }
    if let Some(address) = value {
        resource.content = Content::Address(address);
    }
    Ok(after)
}

/// Gives records their images, which stand from a place on, and answers the place after them.
fn rename_resources(
    alloc: Global,
    resources: &mut [Resource],
    images: &[Option<Addr>],
    start: usize,
) -> Result<usize, OutOfMemory>
    requires { start + length (resources_addresses resources.old)
        ≤ length images.now }
    ensures renamed { OnOk result
        (resources.new ≡ resources_renamed images.now start resources.old) }
    ensures after { IfOk result
        (λ x. x ≡ start + length (resources_addresses resources.old)) }
{
    let mut place = start;
    for resource in resources.iter_mut() {
        place = rename_resource(alloc, resource, images, place)?;
    }
    Ok(place)
}

/// Gives a list its images, which stand from a place on, and answers the place after them.
fn rename_list(
    alloc: Global,
    list: &mut Resources,
    images: &[Option<Addr>],
    start: usize,
) -> Result<usize, OutOfMemory>
    requires { start + length (resources_addresses list.old) ≤ length images.now }
    ensures renamed { OnOk result
        (list.new ≡ resources_renamed images.now start list.old) }
    ensures after { IfOk result
        (λ x. x ≡ start + length (resources_addresses list.old)) }
{
    let Some(mut items) = replace(list, Resources::none()).into_items() else {
        return Ok(start);
    };
    let after = rename_resources(alloc, &mut items, images, start)?;
    *list = Resources::of(items);
    Ok(after)
}

/// Gives a question its image, which stands first, and answers the place after it.
fn rename_question(
    alloc: Global,
    question: &mut Option<Question>,
    images: &[Option<Addr>],
) -> Result<usize, OutOfMemory>
    ensures renamed { OnOk result
        (question.new ≡ question_renamed images.now question.old) }
    ensures after { IfOk result (λ x. x ≡ length (question_addresses question.old)) }
{
    let Some(question) = question else {
        return Ok(0);
    };
    let address = address_of(&question.name);
    if let Some(image) = image_of(address, images, 0) {
        question.name = reverse_of(alloc, image, &question.name)?;
    }
    Ok(count_of(address))
}

/// Gives a message the images of the addresses that `addresses_of` lists, in their order. No image keeps an address; an image takes its
/// place, and makes the lifetime of its record 0. The error is that there is too little memory: the message is no longer whole then.
pub fn rename(
    alloc: Global,
    message: &mut Message,
    images: &[Option<Addr>],
) -> Result<(), OutOfMemory>
    requires { length images.now ≡ length (message_addresses message.old) }
    ensures renamed { OnOk result
        (message.new ≡ message_renamed images.now message.old) }
    // It keeps the form that a message needs to be written.
    ensures suits { MessageSuits message.old
        → OnOk result (MessageSuits message.new) }
{
    let place = rename_question(alloc, &mut message.question, images)?;
    let place = rename_list(alloc, &mut message.answers, images, place)?;
    let place = rename_list(alloc, &mut message.authority, images, place)?;
    rename_list(alloc, &mut message.additional, images, place)?;
    Ok(())
}
