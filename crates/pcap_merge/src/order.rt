// Which side is read next, and which record is given next.
ghost use Rattle.std.specs.Prelude.{◌≡◌};
ghost use Rattle.pcap_merge.specs.Order.{is_unread};
ghost use Rattle.pcap_merge.specs.Inside.Order.{earlier};

use gate_base::Side;

/// What the last advance of a merge answered.
#[derive(Clone, Copy, Debug, PartialEq, Eq)]
pub enum Last {
    /// Nothing yet: both sides are to be read.
    Nothing,
    /// An event of this side, which alone is to be read next.
    Event(Side),
    /// That both sides are at their ends: nothing more is read.
    End,
}

/// Whether the side is to be read before the next event.
pub fn is_unread(side: Side, last: Last) -> bool
    ensures { result ≡ is_unread side last }
{
    match last {
        Last::Nothing => true,
        Last::Event(given) => given == side,
        Last::End => false,
    }
}

/// The side of the record that is given next, and its stamp, by the stamps of both sides: the left one where the right one isn't smaller.
pub fn earlier(left: Option<u64>, right: Option<u64>) -> Option<(Side, u64)>
    ensures { result ≡ earlier left right }
{
    match (left, right) {
        (Some(left), Some(right)) if right < left => Some((Side::Right, right)),
        (Some(left), _) => Some((Side::Left, left)),
        (None, Some(right)) => Some((Side::Right, right)),
        (None, None) => None,
    }
}
