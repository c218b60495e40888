// The longest suffix of a name that was written already.
ghost use Rattle.std.specs.Prelude.{◌≡◌, ◌≤◌, ℕ, length};
ghost use Rattle.dns_names.specs.Inside.Ends.{key_of};
ghost use Rattle.dns_names.specs.Inside.Longest.{IsClosed, IsEdge, IsLongest};
ghost use Rattle.dns_names.specs.Inside.Met.{AreMet};
ghost use Rattle.dns_names.specs.Inside.Writers.{starts_in, place_in, FindsBy};

use crate::met::{MetSuffixes, Steps};
use crate::reverse::behind_label;
use crate::suffix::Suffix;
use crate::targets::{ROOT, Targets};

/// A suffix that can be pointed to, while its rest can't, and its place. Without octets there is none.
#[derive(Clone, Copy)]
pub struct Edge<'a> {
    pub(crate) octets: &'a [u8],
    pub(crate) place: u16,
}

fn place_of<'a>(places: &Targets<'a>, octets: &'a [u8], behind: u16) -> Option<u16>
    ensures { result ≡ place_in places.now (key_of behind octets.now) }
{
    places.get(&Suffix::new(octets, behind))
}

/// How many labels come before the longest suffix of a name that was written already, and the lowest place of that suffix. If no
/// suffix was written, there is no place, and the number may exceed that of the labels.
///
/// The name is gone through from its end: behind each label either nothing can be written before that wasn't, or what stands there is
/// known, and the label is sought in front of that. A suffix that was met before is known by the place of its first label in the message.
pub(crate) fn longest<'a>(
    places: &Targets<'a>,
    edge: Edge<'a>,
    met: &mut MetSuffixes<'a>,
    name: &'a [u8],
    steps: Steps<'_>,
) -> (usize, Option<u16>)
    requires finds { FindsBy (starts_in places.now) places.now }
    requires edge { IsEdge (starts_in places.now) edge }
    requires closed { (limit : ℕ) × IsClosed (starts_in places.now) edge.octets.now limit }
    requires met { AreMet (starts_in places.now) met.old }
    ensures longest { IsLongest (starts_in places.now) name.now result.0 result.1 }
    ensures few { result.0 ≤ length name.now }
    ensures met { AreMet (starts_in places.now) met.new }
{
    if name.is_empty() {
        return (0, None);
    }
    if places.is_empty() {
        return (name.len(), None);
    }
    let first = steps.first();
    if let Some(place) = met.place_of(first, name) {
        return (0, Some(place));
    }
    let next = steps.behind(met);
    let (count, place) = longest(places, edge, met, behind_label(name), next);
    if count > 0 {
        if name == edge.octets {
            met.keep(first, name, edge.place as usize, next.first());
            return (0, Some(edge.place));
        }
        return (count + 1, place);
    }
    let Some(here) = place_of(places, name, place.unwrap_or(ROOT)) else {
        return (1, place);
    };
    met.keep(first, name, here as usize, next.first());
    (0, Some(here))
}
