// The images of units, by the list of their sender once what they name is entered.
ghost use Rattle.std.specs.Prelude.{◌≡◌, ◌++◌, map, is_none, IfOk, IfSome};
ghost use Rattle.std.specs.List.{list_any};
ghost use Rattle.dialogue.specs.Prelude.{AreImages};
ghost use Rattle.dns_stream.specs.Prelude.{dns_units, image_in};
ghost use Rattle.gate_model.specs.Prelude.{grows_too_much};
ghost use Rattle.dns_plans.specs.Steps.{image_unit};
ghost use Rattle.dns_plans.specs.Inside.Steps.{AreRead, IsRead, unit_of};

use crate::named::ReadUnit;
use crate::sender::Sender;
use crate::session::Session;
use dialogue::UnitImage;
use dns_gateway::addresses_of;
use dns_stream::{RenameList, unit_renamed};
use gate_base::{Addr, OutOfMemory};
use std::alloc::Global;

/// The image of an address by the sender's list and what is new to it. None where it is kept, and where it isn't listed.
fn image_in<S: Session>(sender: &Sender<'_, S>, new: &RenameList, address: Addr) -> Option<Addr>
    ensures { result
        ≡ image_in (S.rules.listed sender.now.host sender.now.session.now ++ new.now)
        address.0 }
{
    match sender.image_of(address) {
        Some(image) => image,
        None => new.image_of(address).unwrap_or(None),
    }
}

/// The images of addresses, in their order.
fn images_in<S: Session>(
    alloc: Global,
    sender: &Sender<'_, S>,
    new: &RenameList,
    addresses: &[Addr],
) -> Result<Vec<Option<Addr>>, OutOfMemory>
    ensures { IfOk result (λ images. images.items
        ≡ map (image_in
        (S.rules.listed sender.now.host sender.now.session.now ++ new.now))
        (map (λ a. a.0) addresses.now)) }
{
    let mut images = Vec::with_capacity(alloc, addresses.len())?;
    for address in addresses {
        images.push(image_in(sender, new, *address))?;
    }
    Ok(images)
}

/// A unit with its image. None exactly where that would have more than one and a half times the unit's octets.
fn unit_image<S: Session>(
    alloc: Global,
    sender: &Sender<'_, S>,
    new: &RenameList,
    read: ReadUnit,
) -> Result<Option<UnitImage>, OutOfMemory>
    requires { IsRead read }
    ensures grows { IfOk result (λ image. is_none image
        ≡ grows_too_much
        (S.rules.listed sender.now.host sender.now.session.now ++ new.now)
        read.unit.items) }
    ensures unit { IfOk result
        (λ image. IfSome image (λ one. one.unit.items ≡ unit_of read)) }
    ensures image { IfOk result (λ image. IfSome image (λ one. one.image.items
        ≡ (dns_units
        (S.rules.listed sender.now.host sender.now.session.now ++ new.now)).image
        one.unit.items)) }
{
    let ReadUnit { unit, message } = read;
    let addresses = addresses_of(alloc, &message)?;
    let images = images_in(alloc, sender, new, &addresses)?;
    match unit_renamed(alloc, &unit, message, &images)? {
        Some(image) => Ok(Some(UnitImage { unit, image })),
        None => Ok(None),
    }
}

/// Units with their images, in their order. None exactly where one would have more than one and a half times its octets.
pub fn unit_images<S: Session>(
    alloc: Global,
    sender: &Sender<'_, S>,
    new: &RenameList,
    units: Vec<ReadUnit>,
) -> Result<Option<Vec<UnitImage>>, OutOfMemory>
    requires { AreRead units.items }
    ensures grows { IfOk result (λ images. is_none images
        ≡ list_any (grows_too_much
        (S.rules.listed sender.now.host sender.now.session.now ++ new.now))
        (map unit_of units.items)) }
    ensures units { IfOk result (λ images. IfSome images (λ these.
        map image_unit these.items ≡ map unit_of units.items)) }
    ensures images { IfOk result (λ images. IfSome images (λ these. AreImages
        (dns_units (S.rules.listed sender.now.host sender.now.session.now ++ new.now))
        these.items)) }
{
    let mut images = Vec::with_capacity(alloc, units.len())?;
    for read in units {
        match unit_image(alloc, sender, new, read)? {
            Some(image) => images.push(image)?,
            None => return Ok(None),
        }
    }
    Ok(Some(images))
}
