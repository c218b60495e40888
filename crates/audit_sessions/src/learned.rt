// A connection of DNS that learns what its units name.
ghost use Rattle.std.specs.Prelude.{◌≡◌, ◌≤◌, ◌<◌, ◌∷◌, [], false, length, None, IfOk, OnOk};
ghost use Rattle.dialogue.specs.Prelude.{is_listed, AreImages};
ghost use Rattle.dialogue.specs.declared.TheConstants.{MOST_ENTRIES};
ghost use Rattle.dns_stream.specs.Prelude.{dns_units};
ghost use Rattle.stream_model.specs.Prelude.{segment_refusal, session_ends, session_sent, segment_in};
ghost use Rattle.audit_streams.specs.Sending.{handed};
ghost use Rattle.dns_plans.specs.Prelude.{entered_all};
ghost use Rattle.audit_sessions.specs.Inside.Sessions.{listed_of, streams_of, IsListedSide, with_entered, HasPassed};

use crate::kinds::DnsSession;
use audit_streams::Sent;
use dns_plans::{Completed, Entry};
use gate_base::{Addr, Host, OutOfMemory};
use tcp_segments::TcpView;

/// Whether a host's list has an entry of an address.
fn knows(session: &DnsSession, host: Host, address: Addr) -> bool
    ensures { result ≡ is_listed (listed_of host session.now) address.0 }
{
    session.image_of(host, address).is_some()
}

/// Enters an address into a host's list, unless it is listed.
fn learn_one(session: &mut DnsSession, host: Host, one: Entry)
    requires few { is_listed (listed_of host session.old) one.0.0 ≡ false
        → length (listed_of host session.old) < MOST_ENTRIES }
    requires listed { IsListedSide host session.old }
    ensures { session.new ≡ with_entered host (one ∷ []) session.old }
{
    if knows(session, host, one.0) {
        return;
    }
    session.learn(host, one.0, one.1);
}

/// Enters addresses into a host's list, one after the other.
fn learn_all(session: &mut DnsSession, host: Host, named: &[Entry])
    requires few { length (entered_all (listed_of host session.old) named.now)
        ≤ MOST_ENTRIES }
    requires listed { IsListedSide host session.old }
    ensures { session.new ≡ with_entered host named.now session.old }
{
    for one in named {
        learn_one(session, host, *one);
    }
}

/// Enters addresses into the list of a segment's sender, and passes the segment: what is sent for it, or OutOfMemory. After
/// OutOfMemory the session must not be used again.
pub fn step_units(
    session: &mut DnsSession,
    from: Host,
    segment: &TcpView<'_>,
    completed: Completed<'_>,
) -> Result<Sent, OutOfMemory>
    requires few { length
        (entered_all (listed_of from session.old) completed.entries.now)
        ≤ MOST_ENTRIES }
    requires images { AreImages
        (dns_units (entered_all (listed_of from session.old) completed.entries.now))
        completed.images.items }
    requires listed { IsListedSide from session.old }
    requires passes { segment_refusal from (streams_of session.old)
        (segment_in segment.now) ≡ None }
    ensures next { OnOk result (HasPassed from
        (with_entered from completed.entry.entries.now session.old) session.new
        (segment_in segment.now)) }
    ensures sent { let learned = streams_of
        (with_entered from completed.entry.entries.now session.old) in
        IfOk result (λ s. s
        ≡ handed (session_sent from learned (segment_in segment.now))
        (session_ends from learned (segment_in segment.now))) }
{
    let Completed { entries, images } = completed;
    learn_all(session, from, entries);
    session.expect(from, images);
    session.step(from, segment)
}
