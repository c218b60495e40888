// Sessions before their first segment.
use dns_plans::{Session, UnitOctets};
use gate_base::{Addr, Host, OutOfMemory, Pair};
use gate_sessions::AnySession;
use std::alloc::Global;
use std::test::Fail;
use tcp_segments::TcpView;
use verdicts::Refusal;

const CLIENT: Addr = Addr(0x0a00_0005);

const SERVER_ALIAS: Addr = Addr(0xc0a8_c835);

const PAIR: Pair = Pair {
    client: CLIENT,
    client_alias: Addr(0xac10_0901),
    server: Addr(0x0a00_0035),
    server_alias: SERVER_ALIAS,
};

/// A SYN from port 40001 to port 53, number 1000.
const SYN: &[u8] = b"\x9cA\0\x35\0\0\x03\xe8\0\0\0\0\x50\x02\x20\0\x5c\xa1\0\0";

/// A segment behind it, with a question of 29 octets behind its length.
const QUESTION: &[u8] = b"\x9cA\0\x35\0\0\x03\xe9\0\0\x13\x89\x50\x18\x20\0\x74\x50\0\0\
    \0\x1d\0\x01\x01\0\0\x01\0\0\0\0\0\0\x03ftp\x07example\0\0\x01\0\x01";

/// Why the session that a SYN to a port makes refuses a segment, in how many octets one that it takes may complete units, and its
/// entries.
fn judged(
    alloc: Global,
    port: u16,
    segment: &TcpView<'_>,
) -> Result<(Option<Refusal>, usize, usize), OutOfMemory> {
    let session = AnySession::opened(alloc, port, PAIR, 1000, 1460)?;
    let mut octets = UnitOctets::new(alloc)?;
    let verdict = session.refusal(Host::Client, segment);
    match verdict {
        None => session.put_octets(Host::Client, segment, &mut octets),
        Some(_) => {}
    }
    Ok((
        verdict,
        octets.octets().len(),
        session.listed(Host::Client) + session.listed(Host::Server),
    ))
}

#[test]
fn sessions_begin(rt: HostRuntime) -> Result<(), Fail> {
    let alloc = rt.alloc();
    let Ok(syn) = TcpView::of(SYN, CLIENT, SERVER_ALIAS) else {
        assert!(rt; false, "syn");
        return Ok(());
    };
    let Ok(question) = TcpView::of(QUESTION, CLIENT, SERVER_ALIAS) else {
        assert!(rt; false, "question");
        return Ok(());
    };
    let unknown = Some(Refusal::NoSession);
    assert!(rt; judged(alloc, 53, &syn).ok() == Some((None, 0, 0)));
    assert!(rt; judged(alloc, 53, &question).ok() == Some((unknown, 0, 0)));
    assert!(rt; judged(alloc, 21, &question).ok() == Some((unknown, 0, 0)));
    let session = AnySession::opened(alloc, 53, PAIR, 1000, 1460)?;
    assert!(rt; session.pending() == 0 && session.inner(Host::Client, 1000) == Some(1000));
    Ok(())
}
