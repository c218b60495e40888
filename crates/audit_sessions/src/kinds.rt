// The two kinds of sessions.
use audit_streams::WholeStreams;
use dns_stream::DnsUnits;
use ftp_lines::{ClientLines, ServerLines};

/// A control connection of FTP.
pub type FtpSession = WholeStreams<ClientLines, ServerLines>;

/// A connection of DNS over TCP.
pub type DnsSession = WholeStreams<DnsUnits, DnsUnits>;

/// What was heard of both hosts, by what they speak.
#[derive(Drop)]
pub enum SessionKind {
    Lines(FtpSession),
    Units(DnsSession),
}
