// A capture, record by record.
ghost use Rattle.std.specs.Prelude.{◌≡◌, Some, None, Err, IfSome, IsSome, option_map};
ghost use Rattle.gate_desk.specs.Outside.{CanRead};
ghost use Rattle.pcap_files.specs.Reader.{Advances, Begins, LeavesCounts};

use crate::head::{HEAD, read_capture_head};
use crate::record::{LONGEST_RECORD, RECORD_HEAD, RecordHead, read_record};
use crate::{Form, ReadStop};
use gate_base::Link;
use gate_desk::{Desk, Slot};
use std::alloc::Global;
use std::marker::Model;

/// One record of a capture.
#[derive(Clone, Copy)]
pub struct Packet<'a> {
    /// Nanoseconds since the epoch of the capture, below 2^32 times 10^9.
    pub stamp: u64,
    /// Whether the capture kept all octets of the frame.
    pub whole: bool,
    /// The octets that the capture kept, at most `LONGEST_RECORD`.
    pub octets: &'a [u8],
}

/// Reads a capture from a slot of a desk, one record at a time.
#[derive(Drop)]
pub struct CaptureReader {
    slot: Slot,
    form: Form,
    place: u64,
    buffer: Vec<u8>,
    current: Option<RecordHead>,
    stopped: Option<ReadStop>,
}

impl Model for CaptureReader {
    ghost use Rattle.std.specs.Prelude.{◌≡◌, ◌≤◌, ◌^◌, option_map, take, length, IfSome};
    ghost use Rattle.pcap_files.specs.Reader.{Reading};
    ghost use Rattle.pcap_files.specs.declared.record.TheConstants.{LONGEST_CAPTURE, LONGEST_RECORD};

    ghost Value = { Reading };

    ghost view = { λ r. record {
      slot = r.slot;
      form = r.form;
      place = r.place;
      packet = option_map (λ h. record { stamp = h.stamp; whole = h.whole; octets = take h.kept r.buffer.items }) r.current;
      stop = r.stopped;
    } };

    ghost invariant = { λ r. (length r.buffer.items ≡ LONGEST_RECORD)
        × IfSome r.current (λ h. h.kept ≤ LONGEST_RECORD) × (r.place ≤ LONGEST_CAPTURE) };
}

impl CaptureReader {
    ghost use Rattle.pcap_files.specs.Packets.{packet_of};

    /// Reads the head of a capture and takes room for one record. No other call takes memory.
    pub fn begin<D: Desk>(
        alloc: Global,
        desk: &mut D,
        slot: Slot,
    ) -> Result<CaptureReader, ReadStop>
        requires { CanRead (D.outside desk.old) slot }
        ensures begins { Begins result slot (D.outside desk.old)
            (D.outside desk.new) }
        ensures leaves { LeavesCounts result (D.outside desk.old)
            (D.outside desk.new) }
    {
        let form = match read_capture_head(desk, slot) {
            Ok(form) => form,
            Err(stop) => return Err(stop),
        };
        let Ok(buffer) = vec![in alloc; 0; LONGEST_RECORD] else {
            return Err(ReadStop::OutOfMemory);
        };
        Ok(CaptureReader {
            slot,
            form,
            place: HEAD as u64,
            buffer,
            current: None,
            stopped: None,
        })
    }

    /// What the frames of the capture are.
    pub fn link(&self) -> Link
        ensures { result ≡ self.now.form.link }
    {
        self.form.link
    }

    /// Reads the next record: true where there is one, false at the end of the capture. After a stop each call answers the same stop, and reads nothing.
    #[inline(always)]
    pub fn advance<D: Desk>(&mut self, desk: &mut D) -> Result<bool, ReadStop>
        requires { CanRead (D.outside desk.old) self.old.slot }
        ensures first { self.old.stop ≡ None
            → Advances result self.old self.new (D.outside desk.old)
            (D.outside desk.new) }
        ensures leaves { LeavesCounts result (D.outside desk.old)
            (D.outside desk.new) }
        ensures again { IfSome self.old.stop (λ stop. (result ≡ Err stop)
            × (self.new ≡ self.old) × (D.outside desk.new ≡ D.outside desk.old)) }
    {
        if let Some(stop) = self.stopped {
            return Err(stop);
        }
        self.current = None;
        match read_record(desk, self.slot, self.form, self.place, &mut self.buffer) {
            Ok(None) => Ok(false),
            Ok(Some(head)) => {
                self.place += (RECORD_HEAD + head.kept) as u64;
                self.current = Some(head);
                Ok(true)
            }
            Err(stop) => {
                self.stopped = Some(stop);
                Err(stop)
            }
        }
    }

    /// The stamp of the record that the last advance read, where there was one.
    pub fn stamp(&self) -> Option<u64>
        ensures { result ≡ option_map (λ p. p.stamp) self.now.packet }
    {
        match self.current {
            Some(head) => Some(head.stamp),
            None => None,
        }
    }

    /// The record that the last advance read, which answered true.
    pub fn packet(&self) -> Packet<'_>
        requires { IsSome self.now.packet }
        ensures { self.now.packet ≡ Some (packet_of result) }
    {
        let head = self.current.unwrap();
        Packet {
            stamp: head.stamp,
            whole: head.whole,
            octets: &self.buffer[..head.kept],
        }
    }
}
