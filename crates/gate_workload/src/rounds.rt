// The workload, frame by frame and round by round.
ghost use Rattle.std.specs.Prelude.{◌≡◌, ◌+◌, ◌*◌, ◌^◌, ◌<◌, ◌≤◌, length, IfOk, OnOk, decimal};
ghost use Rattle.gate_workload.specs.Draws.{drawn};
ghost use Rattle.gate_workload.specs.Datagrams.{AreShortOptions, udp_datagram, tcp_datagram};
ghost use Rattle.gate_workload.specs.Rounds as spec;

use crate::capture::capture_head;
use crate::datagram::{Segment, append_segment, append_udp};
use crate::draw::{drawn, next_random};
use crate::flow::Flow;
use crate::payload::{
    SEGMENT_SIZE, client_flow, leftward, names, names_flow, plain_flow, port_line, server_flow,
    trap,
};
use gate_base::{OutOfMemory, SNMP_PORT, TRAP_PORT};
use itoa::Buffer;
use std::alloc::Global;
use std::marker::Model;

/// The octet of flags of TCP that has SYN alone (RFC 9293, 3.1).
pub const SYN: u8 = 2;

/// The octet of flags that has PSH alone.
pub const PSH: u8 = 8;

/// The octet of flags that has ACK alone.
pub const ACK: u8 = 16;

/// The first address of the block from which the name server answers, 10.1.0.1.
pub const FIRST_NAMED: u32 = 0x0a01_0001;

/// By how many octets the image of the client's line is longer than the line.
const GROWTH: u32 = 2;

/// What is known between two frames of the workload.
#[derive(Drop)]
pub(crate) struct Making {
    /// The state of the draw.
    random: u64,
    /// How many frames there are.
    frames: u64,
    /// The client's next sequence number, and the server's.
    client: u32,
    server: u32,
    /// The sequence number that follows the image of the client's stream, which the server gets.
    image: u32,
    left: Vec<u8>,
    right: Vec<u8>,
}

impl Model for Making {
    ghost use Rattle.gate_workload.specs.Rounds.{State};

    ghost Value = { State };

    ghost view = { λ m. record { random = m.random; frames = m.frames; client = m.client; server = m.server; image = m.image; left = m.left.items; right = m.right.items } };
}

impl Making {
    /// The handshake and the first rounds, so many.
    #[tactic(auto, unfolding(crate::specs::Rounds::made))]
    pub(crate) fn of(alloc: Global, number: u32, count: u32) -> Result<Making, OutOfMemory>
        ensures { IfOk result (λ m. m ≡ spec.made number count) }
    {
        let mut making = Making::opening(alloc, number)?;
        making.shake()?;
        making.run(alloc, count)?;
        Ok(making)
    }

    /// The state before the handshake.
    fn opening(alloc: Global, number: u32) -> Result<Making, OutOfMemory>
        ensures { IfOk result (λ m. m ≡ spec.opening number) }
    {
        let left = Vec::from_slice(alloc, &capture_head())?;
        let right = Vec::from_slice(alloc, &capture_head())?;
        Ok(Making {
            random: u64::from(number),
            frames: 0,
            client: 1001,
            server: 5001,
            image: 1001,
            left,
            right,
        })
    }

    /// The captures of the left side and of the right side.
    pub(crate) fn captures(self) -> (Vec<u8>, Vec<u8>)
        ensures left { result.0.items ≡ self.left }
        ensures right { result.1.items ≡ self.right }
    {
        (self.left, self.right)
    }

    /// Draws a number below a bound.
    fn draw(&mut self, bound: u64) -> u64
        requires { 0 < bound }
        ensures state { self.new ≡ spec.stepped self.old }
        ensures number { result ≡ drawn self.new.random bound }
        ensures below { result < bound }
    {
        self.random = next_random(self.random);
        drawn(self.random, bound)
    }

    fn left_udp(&mut self, flow: &Flow, payload: &[u8]) -> Result<(), OutOfMemory>
        requires early { self.old.frames < 2 ^ 40 }
        requires short { length payload.now ≤ 1000 }
        ensures { OnOk result
            (self.new ≡ spec.on_left (udp_datagram flow.now payload.now) self.old) }
    {
        append_udp(&mut self.left, self.frames, flow, payload)?;
        self.frames += 1;
        Ok(())
    }

    fn right_udp(&mut self, flow: &Flow, payload: &[u8]) -> Result<(), OutOfMemory>
        requires early { self.old.frames < 2 ^ 40 }
        requires short { length payload.now ≤ 1000 }
        ensures { OnOk result
            (self.new ≡ spec.on_right (udp_datagram flow.now payload.now) self.old) }
    {
        append_udp(&mut self.right, self.frames, flow, payload)?;
        self.frames += 1;
        Ok(())
    }

    fn left_segment(&mut self, segment: &Segment<'_>) -> Result<(), OutOfMemory>
        requires early { self.old.frames < 2 ^ 40 }
        requires options { AreShortOptions segment.now.options.now }
        requires short { length segment.now.octets.now ≤ 1000 }
        ensures { let s = segment.now in
            OnOk result (self.new
            ≡ spec.on_left
            (tcp_datagram s.flow s.options.now s.sequence s.acknowledgement
            s.flags s.octets.now) self.old) }
    {
        append_segment(&mut self.left, self.frames, segment)?;
        self.frames += 1;
        Ok(())
    }

    fn right_segment(&mut self, segment: &Segment<'_>) -> Result<(), OutOfMemory>
        requires early { self.old.frames < 2 ^ 40 }
        requires options { AreShortOptions segment.now.options.now }
        requires short { length segment.now.octets.now ≤ 1000 }
        ensures { let s = segment.now in
            OnOk result (self.new
            ≡ spec.on_right
            (tcp_datagram s.flow s.options.now s.sequence s.acknowledgement
            s.flags s.octets.now) self.old) }
    {
        append_segment(&mut self.right, self.frames, segment)?;
        self.frames += 1;
        Ok(())
    }

    /// The handshake.
    #[tactic(auto, unfolding(crate::specs::Rounds::shaken))]
    fn shake(&mut self) -> Result<(), OutOfMemory>
        requires { self.old.frames < 2 ^ 39 }
        ensures state { OnOk result (self.new ≡ spec.shaken self.old) }
        ensures frames { OnOk result (self.new.frames ≡ self.old.frames + 3) }
    {
        self.left_segment(&Segment {
            flow: client_flow(),
            options: &SEGMENT_SIZE,
            sequence: 1000,
            acknowledgement: 0,
            flags: SYN,
            octets: &[],
        })?;
        self.right_segment(&Segment {
            flow: server_flow(),
            options: &SEGMENT_SIZE,
            sequence: 5000,
            acknowledgement: 1001,
            flags: SYN | ACK,
            octets: &[],
        })?;
        self.left_segment(&Segment {
            flow: client_flow(),
            options: &[],
            sequence: 1001,
            acknowledgement: 5001,
            flags: ACK,
            octets: &[],
        })
    }

    /// The left host sends the number of the round.
    #[tactic(auto, unfolding(crate::specs::Rounds::plain_round))]
    fn plain_round(&mut self, k: u32) -> Result<(), OutOfMemory>
        requires { self.old.frames < 2 ^ 39 }
        ensures state { OnOk result (self.new ≡ spec.plain_round k self.old) }
        ensures frames { OnOk result (self.new.frames ≤ self.old.frames + 2) }
    {
        let mut buffer = Buffer::new();
        self.left_udp(&plain_flow(k), buffer.format(k).as_bytes())
    }

    /// The name server answers with an address that is drawn.
    #[tactic(auto, unfolding(crate::specs::Rounds::names_round))]
    fn names_round(&mut self) -> Result<(), OutOfMemory>
        requires { self.old.frames < 2 ^ 39 }
        ensures state { OnOk result (self.new ≡ spec.names_round self.old) }
        ensures frames { OnOk result (self.new.frames ≤ self.old.frames + 2) }
    {
        let host = self.draw(200) as u32;
        self.right_udp(&names_flow(), &names(FIRST_NAMED + host))
    }

    /// The client sends a line, and acknowledges all that the server sent.
    #[tactic(auto, unfolding(crate::specs::Rounds::line_sent))]
    fn send_line(&mut self, alloc: Global, number: u64) -> Result<(), OutOfMemory>
        requires { self.old.frames < 2 ^ 39 }
        ensures state { OnOk result (self.new ≡ spec.line_sent number self.old) }
        ensures frames { OnOk result (self.new.frames ≡ self.old.frames + 1) }
    {
        let line = port_line(alloc, number)?;
        let segment = Segment {
            flow: client_flow(),
            options: &[],
            sequence: self.client,
            acknowledgement: self.server,
            flags: ACK | PSH,
            octets: &line,
        };
        self.left_segment(&segment)?;
        let len = line.len() as u32;
        self.client = self.client.wrapping_add(len);
        self.image = self.image.wrapping_add(len + GROWTH);
        Ok(())
    }

    /// The server answers, and acknowledges the whole image.
    #[tactic(auto, unfolding(crate::specs::Rounds::reply_sent))]
    fn send_reply(&mut self) -> Result<(), OutOfMemory>
        requires { self.old.frames < 2 ^ 40 }
        ensures state { OnOk result (self.new ≡ spec.reply_sent self.old) }
        ensures frames { OnOk result (self.new.frames ≡ self.old.frames + 1) }
    {
        let reply = b"200 ok\r\n";
        let segment = Segment {
            flow: server_flow(),
            options: &[],
            sequence: self.server,
            acknowledgement: self.image,
            flags: ACK | PSH,
            octets: reply,
        };
        self.right_segment(&segment)?;
        self.server = self.server.wrapping_add(reply.len() as u32);
        Ok(())
    }

    /// The client names a port that is drawn, and the server answers.
    fn line_round(&mut self, alloc: Global) -> Result<(), OutOfMemory>
        requires { self.old.frames < 2 ^ 39 }
        ensures state { OnOk result (self.new ≡ spec.line_round self.old) }
        ensures frames { OnOk result (self.new.frames ≤ self.old.frames + 2) }
    {
        let number = self.draw(250);
        self.send_line(alloc, number)?;
        self.send_reply()
    }

    /// The left host sends a trap.
    #[tactic(auto, unfolding(crate::specs::Rounds::trap_round))]
    fn trap_round(&mut self) -> Result<(), OutOfMemory>
        requires { self.old.frames < 2 ^ 39 }
        ensures state { OnOk result (self.new ≡ spec.trap_round self.old) }
        ensures frames { OnOk result (self.new.frames ≤ self.old.frames + 2) }
    {
        self.left_udp(&leftward(SNMP_PORT, TRAP_PORT), &trap())
    }

    /// Round `k` of a kind from 0 to 3.
    fn round_of(&mut self, alloc: Global, kind: u64, k: u32) -> Result<(), OutOfMemory>
        requires { self.old.frames < 2 ^ 39 }
        ensures state { OnOk result (self.new ≡ spec.round_of kind k self.old) }
        ensures frames { OnOk result (self.new.frames ≤ self.old.frames + 2) }
    {
        match kind {
            0 => self.plain_round(k),
            1 => self.names_round(),
            2 => self.line_round(alloc),
            _ => self.trap_round(),
        }
    }

    /// Round `k`, of a kind that is drawn.
    #[tactic(auto, unfolding(crate::specs::Rounds::round))]
    fn round(&mut self, alloc: Global, k: u32) -> Result<(), OutOfMemory>
        requires { self.old.frames < 2 ^ 39 }
        ensures state { OnOk result (self.new ≡ spec.round k self.old) }
        ensures frames { OnOk result (self.new.frames ≤ self.old.frames + 2) }
    {
        let kind = self.draw(4);
        self.round_of(alloc, kind, k)
    }

    /// The first rounds, so many.
    #[tactic(auto, unfolding(crate::specs::Rounds::rounds))]
    fn run(&mut self, alloc: Global, count: u32) -> Result<(), OutOfMemory>
        requires { self.old.frames < 2 ^ 38 }
        ensures { OnOk result (self.new ≡ spec.rounds count self.old) }
    {
        for k in 0..count {
            self.round(alloc, k)?;
        }
        Ok(())
    }
}
