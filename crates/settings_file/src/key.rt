// The keys of a settings document.
ghost use Rattle.std.specs.Prelude.{◌≡◌, ◌+◌, ◌≤◌, ◌++◌, length};
ghost use Rattle.settings_file.specs.Keys.{key_text, name_of};

use arrayvec::ArrayString;
use gate_base::Side;
use itoa::Buffer;
use std::fmt;

/// The text of a key, as it stands from the top of the document. There is room for 60 octets.
pub type KeyText = ArrayString<60>;

/// A key of the settings document. Entries of `static` and of `oid` are numbered from 1.
#[derive(Clone, Copy)]
pub enum Key {
    /// `report`
    Report,
    /// `fragments`
    Fragments,
    /// `same`
    Same,
    /// The table of a realm: `left` or `right`.
    Table(Side),
    /// `left.pool_first` or `right.pool_first`
    PoolFirst(Side),
    /// `left.pool_last` or `right.pool_last`
    PoolLast(Side),
    /// `left.link` or `right.link`
    Link(Side),
    /// `left.gateway_mac` or `right.gateway_mac`
    GatewayMac(Side),
    /// `left.next_mac` or `right.next_mac`
    NextMac(Side),
    /// `static`
    Statics,
    /// `side` in an entry of `static`
    StaticSide(u32),
    /// `host` in an entry of `static`
    StaticHost(u32),
    /// `alias` in an entry of `static`
    StaticAlias(u32),
    /// `oid`
    Oids,
    /// `prefix` in an entry of `oid`
    OidPrefix(u32),
    /// `skip` in an entry of `oid`
    OidSkip(u32),
}

impl Key {
    /// The key as it stands in its own table.
    #[tactic(auto, unfolding(crate::specs::Keys::name_of), using(crate::proofs::Names::side_short))]
    pub fn name(self) -> &'static str
        ensures name { result.now ≡ name_of self }
        ensures short { length result.now ≤ 11 }
    {
        match self {
            Key::Report => "report",
            Key::Fragments => "fragments",
            Key::Same => "same",
            Key::Table(side) => side.name(),
            Key::PoolFirst(_) => "pool_first",
            Key::PoolLast(_) => "pool_last",
            Key::Link(_) => "link",
            Key::GatewayMac(_) => "gateway_mac",
            Key::NextMac(_) => "next_mac",
            Key::Statics => "static",
            Key::StaticSide(_) => "side",
            Key::StaticHost(_) => "host",
            Key::StaticAlias(_) => "alias",
            Key::Oids => "oid",
            Key::OidPrefix(_) => "prefix",
            Key::OidSkip(_) => "skip",
        }
    }

    /// The key as it stands from the top of the document.
    #[tactic(auto, unfolding(crate::specs::Keys::key_text), using(crate::proofs::Names::side_short))]
    pub fn text(self) -> KeyText
        ensures { result.bytes ≡ key_text self }
    {
        match self {
            Key::Report | Key::Fragments | Key::Same | Key::Table(_) | Key::Statics | Key::Oids => {
                self.behind("", "", "")
            }
            Key::PoolFirst(side)
            | Key::PoolLast(side)
            | Key::Link(side)
            | Key::GatewayMac(side)
            | Key::NextMac(side) => self.behind("", side.name(), "."),
            Key::StaticSide(number) | Key::StaticHost(number) | Key::StaticAlias(number) => {
                self.behind("static.", Buffer::new().format(number), ".")
            }
            Key::OidPrefix(number) | Key::OidSkip(number) => {
                self.behind("oid.", Buffer::new().format(number), ".")
            }
        }
    }

    // The key's own name behind three texts.
    fn behind(self, first: &str, second: &str, third: &str) -> KeyText
        requires { length first.now + length second.now + length third.now ≤ 49 }
        ensures { result.bytes ≡ first.now ++ second.now ++ third.now ++ name_of self }
    {
        let mut text = KeyText::new();
        text.push_str(first);
        text.push_str(second);
        text.push_str(third);
        text.push_str(self.name());
        text
    }
}

impl fmt::Display for Key {
    ghost use Rattle.std.specs.Prelude.{Some};

    ghost output = { λ key. Some (key_text key) };

    fn fmt<W: fmt::Write>(&self, f: &mut fmt::Formatter<W>) -> fmt::Result {
        f.pad(self.text().as_str())
    }
}
