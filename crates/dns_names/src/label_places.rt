// Where the labels of a name stand in the message from which it was read. These are hints: no clause rests on them.
use std::alloc::Global;

/// No place of a message.
pub(crate) const NOWHERE: u16 = u16::MAX;

/// What stands for the place of each name's first label in a short message, and in a copy: no label stands at this place.
pub(crate) const SHORT: u16 = 0;

/// The places of a name's labels that no name before it led to, the last one first, and the place of the label behind them.
#[derive(Drop)]
pub struct LabelPlaces {
    pub(crate) new: Vec<u16>,
    pub(crate) joined: u16,
}

impl LabelPlaces {
    /// The places of a name of a short message, or of a copy.
    pub(crate) fn short(alloc: Global) -> LabelPlaces {
        LabelPlaces {
            new: Vec::new(alloc),
            joined: SHORT,
        }
    }
    /// The places of a name that goes out for this one: only its first label has a place.
    pub(crate) fn of_image(&self, alloc: Global) -> LabelPlaces {
        let joined = match self.new.last() {
            Some(place) => *place,
            None => self.joined,
        };
        LabelPlaces {
            new: Vec::new(alloc),
            joined,
        }
    }
}
