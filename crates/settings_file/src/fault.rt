// What is wrong with a settings document.
ghost use Rattle.std.specs.Prelude.{◌≡◌, ◌+◌, ◌≤◌, ◌++◌, decimal, length};
ghost use Rattle.settings_file.specs.Faults.{text_of};
ghost use Rattle.settings_file.specs.declared.fault.ReadSettings.TheVariants.{Fault, OutOfMemory as memory};

use crate::key::Key;
use arrayvec::ArrayString;
use gate_base::{OutOfMemory, Side};
use itoa::Buffer;
use std::alloc::{AllocError, AllocFailed};
use std::fmt;

/// The text of a fault. There is room for 75 octets.
pub type FaultText = ArrayString<75>;

/// What is wrong with a settings document. This is the order of testing, but that `Missing`, `Kind` and `BadAddress`
/// are tested together, key by key in the order of `Key`. Where a fault names a realm the left one is tested first, and
/// where it names an entry of `static`, numbered from 1, it is the first such entry.
#[derive(Clone, Copy)]
pub enum SettingsFault {
    /// It has more than 1,048,576 octets.
    TooLong,
    /// It isn't UTF-8, or isn't a TOML document.
    NotToml,
    /// A key that must be there isn't.
    Missing(Key),
    /// A value is no text, table or array where its key wants one, or its text is no form of its key.
    Kind(Key),
    /// A text is no IPv4 address of a host, or no block of addresses.
    BadAddress(Key),
    /// The pool's last address is below its first, or the pool has more than `LARGEST_POOL` addresses.
    PoolSize(Side),
    /// A block of `same` shares an address with the realm's pool.
    SameInPool(Side),
    /// The static's host lies in the pool of its own realm, or in a block of `same`.
    HostInPool(u32),
    /// The static's alias lies outside the pool of the other realm.
    StaticOutsidePool(u32),
    /// An earlier static of the same realm has the static's host or its alias.
    StaticRepeated(u32),
    /// The realm's link is Ethernet, and `gateway_mac` or `next_mac` isn't given.
    MacMissing(Side),
}

/// Why there are no settings.
#[derive(Clone, Copy)]
pub enum ReadSettings {
    /// The document's first fault.
    Fault(SettingsFault),
    /// Memory ran out.
    OutOfMemory,
}

impl From<SettingsFault> for ReadSettings {
    ghost from_gives = { λ f e. e ≡ Fault f };

    fn from(fault: SettingsFault) -> ReadSettings {
        ReadSettings::Fault(fault)
    }
}

impl From<OutOfMemory> for ReadSettings {
    ghost from_gives = { λ _ e. e ≡ memory };

    fn from(_error: OutOfMemory) -> ReadSettings {
        ReadSettings::OutOfMemory
    }
}

impl From<AllocError> for ReadSettings {
    ghost from_gives = { λ _ e. e ≡ memory };

    fn from(_error: AllocError) -> ReadSettings {
        ReadSettings::OutOfMemory
    }
}

impl<T: Drop> From<AllocFailed<T>> for ReadSettings {
    ghost from_gives = { λ _ e. e ≡ memory };

    fn from(_error: AllocFailed<T>) -> ReadSettings {
        ReadSettings::OutOfMemory
    }
}

// Two texts, one behind the other.
fn joined(label: &str, text: &str) -> FaultText
    requires { length label.now + length text.now ≤ 75 }
    ensures { result.bytes ≡ label.now ++ text.now }
{
    let mut joined = FaultText::new();
    joined.push_str(label);
    joined.push_str(text);
    joined
}

// A text, and behind it a number.
fn numbered(label: &str, number: u32) -> FaultText
    requires { length label.now ≤ 25 }
    ensures { result.bytes ≡ label.now ++ decimal number }
{
    joined(label, Buffer::new().format(number))
}

impl SettingsFault {
    /// The fault's name, and where it has one a space and its key, realm or static, as `Missing left.pool_first`.
    #[tactic(auto, unfolding(crate::specs::Faults::text_of), using(crate::proofs::Names::side_short))]
    pub fn text(self) -> FaultText
        ensures { result.bytes ≡ text_of self }
    {
        match self {
            SettingsFault::TooLong => joined("", "TooLong"),
            SettingsFault::NotToml => joined("", "NotToml"),
            SettingsFault::Missing(key) => joined("Missing ", key.text().as_str()),
            SettingsFault::Kind(key) => joined("Kind ", key.text().as_str()),
            SettingsFault::BadAddress(key) => joined("BadAddress ", key.text().as_str()),
            SettingsFault::PoolSize(side) => joined("PoolSize ", side.name()),
            SettingsFault::SameInPool(side) => joined("SameInPool ", side.name()),
            SettingsFault::HostInPool(number) => numbered("HostInPool static.", number),
            SettingsFault::StaticOutsidePool(number) => {
                numbered("StaticOutsidePool static.", number)
            }
            SettingsFault::StaticRepeated(number) => numbered("StaticRepeated static.", number),
            SettingsFault::MacMissing(side) => joined("MacMissing ", side.name()),
        }
    }
}

impl fmt::Display for SettingsFault {
    ghost use Rattle.std.specs.Prelude.{Some};

    ghost output = { λ fault. Some (text_of fault) };

    fn fmt<W: fmt::Write>(&self, f: &mut fmt::Formatter<W>) -> fmt::Result {
        f.pad(self.text().as_str())
    }
}
