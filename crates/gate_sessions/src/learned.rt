// A connection of DNS that learns what its units name.
ghost use Rattle.std.specs.Prelude.{◌≡◌, ◌≤◌, ◌<◌, [], false, length, map, None, IfOk, OnOk, OnErr};
ghost use Rattle.gate_base.specs.Prelude.{peer};
ghost use Rattle.dialogue.specs.Prelude.{is_listed, AreImages};
ghost use Rattle.dialogue.specs.declared.TheConstants.{MOST_ENTRIES};
ghost use Rattle.dns_stream.specs.Prelude.{dns_units};
ghost use Rattle.gate_model.specs.Prelude.{segment_of, sent_as, tcp_of};
ghost use Rattle.compact_stream.specs.Prelude.{kept_ends, kept_refusal};
ghost use Rattle.dns_plans.specs.Prelude.{enter_one, entered_all};
ghost use Rattle.gate_sessions.specs.Inside.Directions.{listed_of, IsListedSide, with_entered, dns_next, dns_out, DnsCompletes};

use crate::kinds::DnsSession;
use crate::segments::put_segments;
use crate::session::Passing;
use dns_plans::{Completed, Entry};
use event_outbox::{Datagrams, Scratch};
use gate_base::{Addr, Host, OutOfMemory};

/// Whether a host's list has an entry of an address.
fn knows(session: &DnsSession, host: Host, address: Addr) -> bool
    ensures { result ≡ is_listed (listed_of host session.now) address.0 }
{
    session.image_of(host, address).is_some()
}

/// Enters an address into a host's list, unless it is listed.
fn learn_one(session: &mut DnsSession, host: Host, one: Entry)
    requires few { is_listed (listed_of host session.old) one.0.0 ≡ false
        → length (listed_of host session.old) < MOST_ENTRIES }
    requires stream { IsListedSide host session.old }
    ensures list { listed_of host session.new
        ≡ enter_one (listed_of host session.old) one }
    ensures other { listed_of (peer host) session.new
        ≡ listed_of (peer host) session.old }
    ensures kept { session.new.kept ≡ session.old.kept }
    ensures stream { IsListedSide host session.new }
{
    if knows(session, host, one.0) {
        return;
    }
    session.learn(host, one.0, one.1);
}

/// Enters addresses into a host's list, one after the other.
fn learn_all(session: &mut DnsSession, host: Host, named: &[Entry])
    requires few { length (entered_all (listed_of host session.old) named.now)
        ≤ MOST_ENTRIES }
    requires stream { IsListedSide host session.old }
    ensures list { listed_of host session.new
        ≡ entered_all (listed_of host session.old) named.now }
    ensures other { listed_of (peer host) session.new
        ≡ listed_of (peer host) session.old }
    ensures kept { session.new.kept ≡ session.old.kept }
{
    for one in named {
        learn_one(session, host, *one);
    }
}

/// Enters addresses into the list of a segment's sender, and passes the segment: puts what goes out into the outbox, and says whether the
/// session ends. Where there is too little memory nothing has changed, the list neither.
#[inline(never)]
pub fn step_units(
    session: &mut DnsSession,
    passing: &Passing<'_>,
    completed: Completed<'_>,
    outbox: &mut Datagrams,
    scratch: &mut Scratch,
) -> Result<bool, OutOfMemory>
    requires few { length
        (entered_all (listed_of passing.now.from session.old) completed.entries.now)
        ≤ MOST_ENTRIES }
    requires images { AreImages
        (dns_units (entered_all (listed_of passing.now.from session.old)
        completed.entries.now)) completed.images.items }
    requires stream { IsListedSide passing.now.from session.old }
    requires empty { outbox.old ≡ [] }
    requires segment { passing.now.segment.now.tcp.now
        ≡ tcp_of passing.now.segment.now.datagram.now }
    requires alive { 1 ≤ passing.now.segment.now.datagram.now.lifetime }
    requires passes { kept_refusal passing.now.from session.old.kept
        (segment_of passing.now.segment.now.datagram.now) ≡ None }
    ensures next { OnOk result (session.new
        ≡ dns_next passing.now.from
        (with_entered passing.now.from completed.entry.entries.now session.old)
        (segment_of passing.now.segment.now.datagram.now)) }
    ensures out { OnOk result (outbox.new
        ≡ map
        (sent_as passing.now.segment.now.datagram.now passing.now.source.0
        passing.now.destination.0) (dns_out passing.now.from
        (with_entered passing.now.from completed.entry.entries.now session.old)
        (segment_of passing.now.segment.now.datagram.now))) }
    ensures over { IfOk result (λ b. b
        ≡ kept_ends passing.now.from session.old.kept
        (segment_of passing.now.segment.now.datagram.now)) }
    ensures memory { OnErr result (DnsCompletes passing.now.from
        (with_entered passing.now.from completed.entry.entries.now session.old)
        (segment_of passing.now.segment.now.datagram.now)) }
    ensures same { OnErr result (session.new ≡ session.old) }
    ensures nothing { OnErr result (outbox.new ≡ []) }
{
    let from = passing.from;
    let listed = session.listed(from);
    let Completed { entries, images } = completed;
    learn_all(session, from, entries);
    session.expect(from, images);
    match put_segments(session, passing, outbox, scratch) {
        Ok(over) => Ok(over),
        Err(error) => {
            session.forget_from(from, listed);
            Err(error)
        }
    }
}
