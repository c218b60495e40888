// One event of the auditor, and the records that are given for it.
ghost use Rattle.std.specs.Prelude.{◌≡◌, ◌^◌, ◌<◌, [], length, true, false, All, IfOk, OnOk, OnErr};
ghost use Rattle.gate_base.specs.Prelude.{IsMoment, event_of, other};
ghost use Rattle.gate_settings.specs.Prelude.{IsSound, HasForms, HaveMacAddresses};
ghost use Rattle.gate_model.specs.Prelude.{whole_rules, verdict, verdict_of, at_moment};
ghost use Rattle.lawful_files.specs.Prelude.{begun, behind, is_closed, Exactly};
ghost use Rattle.gate_audit.specs.Auditing.{IsOpening, Expects, whole_world};
ghost use Rattle.gate_audit.specs.Inside.Given.{IsWhole};
ghost use Rattle.gate_audit.specs.Memory.{AuditorMayWant};
ghost use Rattle.event_state.specs.Given.{given_by, refusal_of};
ghost use Rattle.audit_sessions.specs.Gives.{heard_gives};

use audit_records::{Expected, Pieces};
use audit_sessions::AuditedSession;
use event_outbox::Datagrams;
use event_state::{State, Taken};
use expiring_table::Seed;
use gate_base::{Event, Moment, OutOfMemory, Side};
use gate_settings::Settings;
use pcap_files::Packet;
use std::alloc::Global;
use std::marker::Model;
use verdicts::Verdict;

/// The settings, what is known, and what is wanted of the last frame.
pub struct Auditor {
    settings: Settings,
    state: State<AuditedSession>,
    outbox: Datagrams,
    expected: Expected,
    // memory ran out in the middle of an event: nothing is said of what is known any more
    lost: bool,
}

// By a call of its own, since a drop that is written out wherever it happens is slow to prove.
impl Drop for Auditor {
    fn drop(self) {
        let Self {
            settings,
            state,
            outbox,
            expected,
            lost,
        } = self;
    }
}

impl Model for Auditor {
    ghost use Rattle.std.specs.Prelude.{◌≡◌, false};
    ghost use Rattle.gate_model.specs.Prelude.{KeepsListed};
    ghost use Rattle.gate_settings.specs.Prelude.{HaveMacAddresses};
    ghost use Rattle.audit_sessions.specs.Heard.{heard_rules};
    ghost use Rattle.gate_audit.specs.Auditing.{Auditing};
    ghost use Rattle.event_state.specs.Knowing.{world_in};

    ghost Value = { Auditing };

    ghost view = { λ a. record { settings = a.settings; world = world_in a.state; expecting = a.expected; lost = a.lost } };

    ghost invariant = { λ a. HaveMacAddresses a.settings
        × (a.lost ≡ false → KeepsListed heard_rules (world_in a.state)) };
}

impl Auditor {
    /// An auditor to which nothing has come. The seed spreads the keys of the tables, and changes no answer. The error is that there
    /// is too little memory.
    pub fn new(alloc: Global, settings: Settings, seed: u64) -> Result<Auditor, OutOfMemory>
        requires sound { IsSound settings }
        requires forms { HasForms settings }
        ensures { IfOk result (IsOpening settings) }
    {
        // For the proof alone.
        have_mac_addresses(&settings);
        Ok(Auditor {
            state: State::new(alloc, &settings, Seed::from_number(seed))?,
            outbox: Datagrams::new(alloc)?,
            expected: Expected::new(alloc)?,
            lost: false,
            settings,
        })
    }

    /// The settings.
    pub fn settings(&self) -> &Settings
        ensures value { result.now ≡ self.now.settings }
        ensures macs { HaveMacAddresses self.now.settings }
    {
        &self.settings
    }

    /// Takes an event, whose moment isn't before that of an earlier one: the gateway's verdict on its frame. What the gateway sends for it
    /// is expected then. After OutOfMemory the auditor isn't used again.
    pub fn expect(&mut self, event: &Event<'_>) -> Result<Verdict, OutOfMemory>
        requires moment { IsMoment event.now.moment.0 }
        requires kept { self.old.lost ≡ false }
        ensures verdict { IfOk result (λ v. v
            ≡ verdict whole_rules (whole_world self.old) (event_of event.now)) }
        ensures next { OnOk result (Expects self.old self.new (event_of event.now)) }
        ensures wants { OnErr result (AuditorMayWant
            (at_moment (whole_world self.old) event.now.moment.0)
            (event_of event.now)) }
    {
        // For the proof alone.
        are_octets(event.octets);
        self.lost = true;
        self.state.expire(event.moment);
        self.outbox.clear();
        let taken = self.state.take_frame(event, &mut self.outbox)?;
        let verdict = want(
            &mut self.expected,
            event.side,
            event.moment,
            taken,
            &self.outbox,
        );
        self.lost = false;
        Ok(verdict)
    }

    /// A frame that stays before the gate, a fragment that is held or refused: nothing is wanted of it, and nothing that is known changes.
    pub fn expect_nothing(&mut self, side: Side, moment: Moment)
        requires kept { self.old.lost ≡ false }
        ensures { self.new
            ≡ record self.old {
              expecting = record {
                side = side;
                moment = moment.0;
                wanted = Exactly [];
                so_far = begun;
              };
            } }
    {
        self.expected.want_nothing(side, moment);
    }

    /// Takes a record of the last frame's: whether those that came are the front of a lawful list's. It takes no memory.
    pub fn frame(&mut self, packet: &Packet<'_>) -> bool
        requires kept { self.old.lost ≡ false }
        requires count { self.old.expecting.so_far.count < 2 ^ 32 }
        requires carried { self.old.expecting.so_far.carried < 2 ^ 62 }
        ensures next { self.new
            ≡ record self.old {
              expecting = record self.old.expecting {
                so_far = behind self.old.settings (other self.old.expecting.side)
                    self.old.expecting.moment self.old.expecting.wanted
                    self.old.expecting.so_far (record {
                      stamp = packet.now.stamp;
                      whole = packet.now.whole;
                      octets = packet.now.octets.now;
                    });
              };
            } }
        ensures answer { result ≡ self.new.expecting.so_far.right }
    {
        self.expected.frame(&self.settings, packet)
    }

    /// Whether the records that came are those of a lawful list, all of them.
    pub fn closed(&self) -> bool
        requires kept { self.now.lost ≡ false }
        ensures { result
            ≡ is_closed self.now.expecting.wanted self.now.expecting.so_far }
    {
        self.expected.closed()
    }

    /// The greatest number of changed lines or messages that ever waited in one direction to be acknowledged.
    pub fn pending(&self) -> u64
        requires kept { self.now.lost ≡ false }
        ensures { result ≡ (whole_world self.now).pending }
    {
        self.state.pending
    }
}

/// A MAC address has six octets.
fn has_six_octets(address: &[u8; 6])
    ensures { length address.now ≡ 6 }
{
    // The proof knows the length of an array by a look at it.
    let _ = address.len();
}

/// The two MAC addresses of each realm have six octets.
fn have_mac_addresses(settings: &Settings)
    ensures { HaveMacAddresses settings.now }
{
    has_six_octets(&settings.left.gateway_mac);
    has_six_octets(&settings.left.next_mac);
    has_six_octets(&settings.right.gateway_mac);
    has_six_octets(&settings.right.next_mac);
}

/// The octets of a frame are numbers below 256.
fn are_octets(octets: &[u8])
    ensures { All (λ octet. octet < 256) octets.now }
{}

/// Expects what is wanted of an event that was taken so, and answers the verdict on it.
fn want(
    expected: &mut Expected,
    side: Side,
    moment: Moment,
    taken: Taken<Pieces>,
    outbox: &Datagrams,
) -> Verdict
    requires { IsWhole taken outbox.now }
    ensures wanted { expected.new
        ≡ record {
          side = side;
          moment = moment.0;
          wanted = given_by heard_gives taken outbox.now;
          so_far = begun;
        } }
    ensures verdict { result ≡ verdict_of (refusal_of taken) }
{
    match taken {
        Taken::Refused(refusal) => {
            expected.want_nothing(side, moment);
            Verdict::Refused(refusal)
        }
        Taken::Whole => {
            expected.want_datagram(side, moment, outbox.datagram(0));
            Verdict::Pass
        }
        Taken::Cut(pieces) => {
            expected.want_pieces(side, moment, pieces);
            Verdict::Pass
        }
    }
}
