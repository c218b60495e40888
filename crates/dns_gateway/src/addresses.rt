// The addresses in a message that are renamed.
ghost use Rattle.std.specs.Prelude.{◌≡◌, ◌++◌, map, IfOk, OnOk, option_map, option_to_list};
ghost use Rattle.dns_gateway.specs.Addresses.{content_address, question_addresses, resource_addresses, resources_addresses, message_addresses};

use dns_messages::{Content, Message, Question, Resource};
use dns_names::address_of;
use gate_base::{Addr, OutOfMemory};
use std::alloc::Global;

/// The address in data of type 1 in class 1.
pub fn address_in(content: &Content) -> Option<Addr>
    ensures { option_map (λ a. a.0) result ≡ content_address content.now }
{
    match content {
        Content::Address(address) => Some(*address),
        _ => None,
    }
}

fn add(addresses: &mut Vec<Addr>, address: Option<Addr>) -> Result<(), OutOfMemory>
    ensures { OnOk result (map (λ a. a.0) addresses.new.items
        ≡ map (λ a. a.0) addresses.old.items
        ++ option_to_list (option_map (λ a. a.0) address)) }
{
    if let Some(address) = address {
        addresses.push(address)?;
    }
    Ok(())
}

fn add_question(addresses: &mut Vec<Addr>, question: &Option<Question>) -> Result<(), OutOfMemory>
    ensures { OnOk result (map (λ a. a.0) addresses.new.items
        ≡ map (λ a. a.0) addresses.old.items ++ question_addresses question.now) }
{
    match question {
        None => Ok(()),
        Some(question) => add(addresses, address_of(&question.name)),
    }
}

fn add_resource(addresses: &mut Vec<Addr>, resource: &Resource) -> Result<(), OutOfMemory>
    ensures { OnOk result (map (λ a. a.0) addresses.new.items
        ≡ map (λ a. a.0) addresses.old.items ++ resource_addresses resource.now) }
{
    add(addresses, address_of(&resource.name))?;
    add(addresses, address_in(&resource.content))?;
    Ok(())
}

#[inline(always)]
fn add_resources(addresses: &mut Vec<Addr>, resources: &[Resource]) -> Result<(), OutOfMemory>
    ensures { OnOk result (map (λ a. a.0) addresses.new.items
        ≡ map (λ a. a.0) addresses.old.items ++ resources_addresses resources.now) }
{
    for resource in resources {
        add_resource(addresses, resource)?;
    }
    Ok(())
}

/// The addresses in a message that are renamed, in its order, as often as they stand there. They are those whose full reverse
/// name is the question's or the owner's of a record, and the data of records of type 1 in class 1. The data follow the owner's.
#[inline(always)]
pub fn addresses_of(alloc: Global, message: &Message) -> Result<Vec<Addr>, OutOfMemory>
    ensures { IfOk result (λ addresses. map (λ a. a.0) addresses.items
        ≡ message_addresses message.now) }
{
    let mut addresses = Vec::new(alloc);
    add_question(&mut addresses, &message.question)?;
    add_resources(&mut addresses, message.answers.items())?;
    add_resources(&mut addresses, message.authority.items())?;
    add_resources(&mut addresses, message.additional.items())?;
    Ok(addresses)
}
