// The head of a capture.
ghost use Rattle.std.specs.Prelude.{◌≡◌, ◌≤◌, length};
ghost use Rattle.gate_desk.specs.Outside.{CanRead};
ghost use Rattle.pcap_files.specs.Capture.{layout_at, link_of, head_of};
ghost use Rattle.pcap_files.specs.Inside.Heads.{head_answer, TakesCaptureHead};
ghost use Rattle.pcap_files.specs.Reader.{LeavesCounts};

use crate::{CaptureFault, Form, Order, Precision, ReadStop};
use gate_base::Link;
use gate_desk::{Desk, Slot, read_full};

/// The octets of a capture's head.
pub const HEAD: usize = 24;

const MICROSECONDS: u32 = 0xa1b2_c3d4;

const NANOSECONDS: u32 = 0xa1b2_3c4d;

fn layout(head: &[u8]) -> Option<(Order, Precision)>
    requires { 4 ≤ length head.now }
    ensures { result ≡ layout_at head.now }
{
    let little = Order::Little.number(head, 0);
    let big = Order::Big.number(head, 0);
    if little == MICROSECONDS {
        Some((Order::Little, Precision::Microseconds))
    } else if little == NANOSECONDS {
        Some((Order::Little, Precision::Nanoseconds))
    } else if big == MICROSECONDS {
        Some((Order::Big, Precision::Microseconds))
    } else if big == NANOSECONDS {
        Some((Order::Big, Precision::Nanoseconds))
    } else {
        None
    }
}

fn link(number: u32) -> Option<Link>
    ensures { result ≡ link_of number }
{
    match number {
        1 => Some(Link::Ethernet),
        101 => Some(Link::Raw),
        _ => None,
    }
}

/// The form that the head of a capture says, or the head's first fault.
#[tactic(auto, unfolding(crate::specs::Capture::head_of))]
fn form(head: &[u8]) -> Result<Form, CaptureFault>
    requires { length head.now ≡ 24 }
    ensures { head_answer result ≡ head_of head.now }
{
    let Some((order, precision)) = layout(head) else {
        return Err(CaptureFault::Magic);
    };
    let Some(link) = link(order.number(head, 20)) else {
        return Err(CaptureFault::Link);
    };
    Ok(Form {
        order,
        precision,
        link,
    })
}

/// Reads the head of a capture.
pub fn read_capture_head<D: Desk>(desk: &mut D, slot: Slot) -> Result<Form, ReadStop>
    requires { CanRead (D.outside desk.old) slot }
    ensures takes { TakesCaptureHead result slot (D.outside desk.old)
        (D.outside desk.new) }
    ensures leaves { LeavesCounts result (D.outside desk.old) (D.outside desk.new) }
{
    let mut head = [0u8; HEAD];
    let n = match read_full(desk, slot, &mut head) {
        Ok(n) => n,
        Err(_) => return Err(ReadStop::Desk(slot)),
    };
    if n < HEAD {
        return Err(ReadStop::Fault(CaptureFault::NoHead, 0));
    }
    match form(&head) {
        Ok(form) => Ok(form),
        Err(fault) => Err(ReadStop::Fault(fault, 0)),
    }
}
