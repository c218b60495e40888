// What the texts of a settings document stand for.
ghost use Rattle.std.specs.Prelude.{◌≡◌, ◌<◌, ◌+◌, length, IfSome};
ghost use Rattle.settings_file.specs.Texts.{report_text, join_text, link_text, side_text, address_text, block_text, hex_digit, hex_pair, mac_text};

use gate_base::{Addr, Link, Side, cut, is_unicast, read_number, read_quad};
use gate_settings::{Block, ReportForm};

/// The form of a report of this name.
#[tactic(auto, unfolding(crate::specs::Texts::report_text))]
pub fn read_report(text: &str) -> Option<ReportForm>
    ensures { result ≡ report_text text.now }
{
    if text == "json" {
        Some(ReportForm::Json)
    } else if text == "text" {
        Some(ReportForm::Text)
    } else {
        None
    }
}

/// Whether fragments are joined by a word for what becomes of them.
#[tactic(auto, unfolding(crate::specs::Texts::join_text))]
pub fn read_join(text: &str) -> Option<bool>
    ensures { result ≡ join_text text.now }
{
    if text == "join" {
        Some(true)
    } else if text == "refuse" {
        Some(false)
    } else {
        None
    }
}

/// The link of this name.
#[tactic(auto, unfolding(crate::specs::Texts::link_text))]
pub fn read_link(text: &str) -> Option<Link>
    ensures { result ≡ link_text text.now }
{
    if text == "raw" {
        Some(Link::Raw)
    } else if text == "ethernet" {
        Some(Link::Ethernet)
    } else {
        None
    }
}

/// The realm of this name.
#[tactic(auto, unfolding(crate::specs::Texts::side_text))]
pub fn read_side(text: &str) -> Option<Side>
    ensures { result ≡ side_text text.now }
{
    if text == "left" {
        Some(Side::Left)
    } else if text == "right" {
        Some(Side::Right)
    } else {
        None
    }
}

/// The address of a host.
#[tactic(auto, unfolding(crate::specs::Texts::address_text))]
pub fn read_address(text: &str) -> Option<Addr>
    ensures { result ≡ address_text text.now }
{
    let address = read_quad(text.as_bytes())?;
    if is_unicast(address) {
        Some(address)
    } else {
        None
    }
}

/// A block of addresses: an address, a slash and a number of bits.
#[tactic(auto, unfolding(crate::specs::Texts::block_text))]
pub fn read_block(text: &str) -> Option<Block>
    ensures { result ≡ block_text text.now }
{
    let (base, bits) = cut(text.as_bytes(), b'/')?;
    let base = read_quad(base)?;
    let bits = read_number(bits)?;
    if bits <= 32 && u64::from(base.0) % (1u64 << (32 - bits)) == 0 {
        Some(Block { base, bits })
    } else {
        None
    }
}

fn read_hex_digit(octet: u8) -> Option<u8>
    ensures value { result ≡ hex_digit octet }
    ensures small { IfSome result (λ digit. digit < 16) }
{
    match octet {
        b'0'..=b'9' => Some(octet - b'0'),
        b'A'..=b'F' => Some(octet - b'A' + 10),
        b'a'..=b'f' => Some(octet - b'a' + 10),
        _ => None,
    }
}

#[tactic(auto, unfolding(crate::specs::Texts::hex_pair))]
fn read_hex_pair(text: &[u8], place: usize) -> Option<u8>
    requires { place + 1 < length text.now }
    ensures { result ≡ hex_pair text.now place }
{
    let high = read_hex_digit(text[place])?;
    let low = read_hex_digit(text[place + 1])?;
    Some(16 * high + low)
}

/// A MAC address: six pairs of hexadecimal digits, joined by colons.
#[tactic(auto, unfolding(crate::specs::Texts::mac_text))]
pub fn read_mac(text: &[u8]) -> Option<[u8; 6]>
    ensures { result ≡ mac_text text.now }
{
    if text.len() != 17 {
        return None;
    }
    if text[2] == b':'
        && text[5] == b':'
        && text[8] == b':'
        && text[11] == b':'
        && text[14] == b':'
    {
        let a = read_hex_pair(text, 0)?;
        let b = read_hex_pair(text, 3)?;
        let c = read_hex_pair(text, 6)?;
        let d = read_hex_pair(text, 9)?;
        let e = read_hex_pair(text, 12)?;
        let f = read_hex_pair(text, 15)?;
        Some([a, b, c, d, e, f])
    } else {
        None
    }
}
