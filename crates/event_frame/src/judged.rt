// A frame by itself: judged as far as it asks for nothing that is known.
ghost use Rattle.gate_base.specs.Prelude.{event_of};
ghost use Rattle.event_frame.specs.Frames.{JudgedBy};

use crate::content::{Content, content_of, datagram_in, datagram_refusal};
use ether_frames::octets_in;
use gate_base::{Event, get_u16};
use ipv4_frames::IpView;
use verdicts::Refusal;

/// A datagram whose headers are good, and the octets in which it stands.
#[derive(Drop)]
pub struct Judged<'a> {
    pub octets: &'a [u8],
    pub datagram: IpView<'a>,
    pub content: Content<'a>,
}

/// The datagram of a frame, or the first reason to refuse it that asks for nothing that is known.
#[inline(always)]
pub fn judge<'a>(event: &Event<'a>) -> Result<Judged<'a>, Refusal>
    ensures { JudgedBy (event_of event.now) result }
{
    let octets = octets_in(event);
    let datagram = datagram_in(event, octets)?;
    if let Some(refusal) = datagram_refusal(&datagram) {
        return Err(refusal);
    }
    let content = content_of(&datagram)?;
    let total = usize::from(get_u16(octets, 2));
    Ok(Judged {
        octets: &octets[..total],
        datagram,
        content,
    })
}
