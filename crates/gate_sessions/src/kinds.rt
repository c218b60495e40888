// The two kinds of sessions.
use dns_stream::DnsUnits;
use ftp_lines::{ClientLines, ServerLines};
use stream_gate::StreamGate;

/// A control connection of FTP, which holds back at most 511 octets of each host.
pub type FtpSession = StreamGate<ClientLines, ServerLines>;

/// A connection of DNS over TCP, which holds back at most 8,193.
pub type DnsSession = StreamGate<DnsUnits, DnsUnits>;

/// What is kept of a session, by what its hosts speak.
#[derive(Drop)]
pub enum SessionKind {
    Lines(FtpSession),
    Units(DnsSession),
}
