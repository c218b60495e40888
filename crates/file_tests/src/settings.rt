// Documents, and the settings or the first fault that they give.
use gate_base::{Addr, Link, OidRule, Side};
use gate_settings::{Block, Blocks, Fixed, OidRules, SameRanges, Settings, SideSettings, Statics};
use settings_file::{ReadSettings, read_settings};
use std::alloc::Global;
use std::test::Fail;

const BASE: &str = "left.pool_first = \"192.168.200.1\"
left.pool_last = \"192.168.200.254\"
left.link = \"raw\"
right.pool_first = \"172.16.9.1\"
right.pool_last = \"172.16.9.254\"
right.link = \"raw\"
";

const STATICS: &str = "static = [
{ side = \"left\", host = \"10.0.0.5\", alias = \"172.16.9.1\" },
{ side = \"right\", host = \"10.0.0.5\", alias = \"192.168.200.1\" },
{ side = \"right\", host = \"10.0.0.53\", alias = \"192.168.200.53\" },
]
";

/// A case a line: the key that the base document is to lack, statements to stand behind it, and the text of the fault.
const CASES: &str = r#"report | report = "text" | accepted
report | report = "json" | accepted
report | report = "xml" | Kind report
report | report = 1 | Kind report
report | report = | NotToml
fragments | fragments = "refuse" | accepted
fragments | fragments = "join" | accepted
fragments | fragments = "joined" | Kind fragments
fragments | fragments = true | Kind fragments
left.link | fragments = 5 ; same = 5 | Kind fragments
left.link | fragments = 5 ; report = 5 | Kind report
same | same = "11.0.0.0/8" | Kind same
same | same = ["x", 5] | Kind same
same | same = ["11.0.0.0"] | BadAddress same
same | same = ["11.0.0.1/8"] | BadAddress same
same | same = ["11.0.0.0/33"] | BadAddress same
same | same = ["11.0.0.0/08"] | BadAddress same
same | same = ["11.0.0.0/8", "224.0.0.0/4"] | accepted
same | same = ["11.0.0.0/8", "0.0.0.0/0"] | SameInPool left
same | same = ["192.168.200.254/32"] | SameInPool left
same | same = ["172.16.0.0/12"] | SameInPool right
left | | Missing left
left | left = 5 | Kind left
left.pool_first | | Missing left.pool_first
left.pool_first | left.pool_first = 5 | Kind left.pool_first
left.pool_first | left.pool_first = "010.0.0.1" | BadAddress left.pool_first
left.pool_first | left.pool_first = "10.0.0" | BadAddress left.pool_first
left.pool_first | left.pool_first = "10.0.0.256" | BadAddress left.pool_first
left.pool_first | left.pool_first = "127.0.0.1" | BadAddress left.pool_first
left.pool_first | left.pool_first = "224.0.0.1" | BadAddress left.pool_first
left.pool_first | left.pool_first = "0.0.0.1" | BadAddress left.pool_first
left.pool_last | | Missing left.pool_last
left.pool_last | left.pool_last = 5 | Kind left.pool_last
left.pool_last | left.pool_last = "10.0.0" | BadAddress left.pool_last
left.pool_last | left.pool_last = "192.168.200.0" | PoolSize left
left.pool_last | left.pool_last = "192.169.200.0" | accepted
left.pool_last | left.pool_last = "192.169.200.1" | PoolSize left
left.link | | Missing left.link
left.link | left.link = 5 | Kind left.link
left.link | left.link = "token" | Kind left.link
left.link | left.link = "ethernet" | MacMissing left
left.gateway_mac | left.gateway_mac = "02:00:5e:10:00" | Kind left.gateway_mac
left.gateway_mac | left.gateway_mac = 5 | Kind left.gateway_mac
left.next_mac | left.next_mac = "02:00:5e:10:00:0g" | Kind left.next_mac
right | | Missing right
right | right = 5 | Kind right
right.pool_first | | Missing right.pool_first
right.pool_last | | Missing right.pool_last
right.pool_last | right.pool_last = "172.16.9.0" | PoolSize right
right.link | | Missing right.link
right.link | right.link = "ethernet" ; right.gateway_mac = "02:00:5E:10:00:ff" | MacMissing right
static | static = 5 | Kind static
static | static = [{}, 5] | Kind static
static | static = [{}] | Missing static.1.side
static | static = [{ side = "up" }] | Kind static.1.side
static | static = [{ side = "left" }, { side = 5 }] | Missing static.1.host
static | static = [{ side = "left", host = 5 }] | Kind static.1.host
static | static = [{ side = "left", host = "x" }] | BadAddress static.1.host
static | static = [{ side = "left", host = "10.0.0.5" }] | Missing static.1.alias
static | static = [{ side = "left", host = "10.0.0.5", alias = "x" }] | BadAddress static.1.alias
static | static = [{ side = "left", host = "192.168.200.9", alias = "172.16.9.9" }] | HostInPool static.1
static | same = ["10.0.0.0/8"] ; static = [{ side = "left", host = "10.0.0.5", alias = "172.16.9.9" }] | HostInPool static.1
static | static = [{ side = "left", host = "10.0.0.5", alias = "192.168.200.9" }] | StaticOutsidePool static.1
static | static = [{ side = "left", host = "10.0.0.5", alias = "172.16.9.9" }, { side = "left", host = "10.0.0.6", alias = "172.16.9.9" }] | StaticRepeated static.2
static | static = [{ side = "left", host = "10.0.0.5", alias = "172.16.9.9" }, { side = "left", host = "10.0.0.5", alias = "172.16.9.8" }] | StaticRepeated static.2
static | static = [{ side = "left", host = "10.0.0.5", alias = "172.16.9.9" }, { side = "right", host = "10.0.0.5", alias = "192.168.200.9" }] | accepted
oid | oid = [{ prefix = "1.39.4294967295", skip = 0 }, { prefix = "2.4294967215", skip = 127 }] | accepted
oid | oid = 5 | Kind oid
oid | oid = [{}, 5] | Kind oid
oid | oid = [{ skip = 0 }] | Missing oid.1.prefix
oid | oid = [{ prefix = 1.3 }] | Kind oid.1.prefix
oid | oid = [{ prefix = "1", skip = 128 }] | Kind oid.1.prefix
oid | oid = [{ prefix = "3.1" }] | Kind oid.1.prefix
oid | oid = [{ prefix = "1.40" }] | Kind oid.1.prefix
oid | oid = [{ prefix = "2.4294967216" }] | Kind oid.1.prefix
oid | oid = [{ prefix = "1.3.4294967296" }] | Kind oid.1.prefix
oid | oid = [{ prefix = "1.03" }] | Kind oid.1.prefix
oid | oid = [{ prefix = "1.3." }] | Kind oid.1.prefix
oid | oid = [{ prefix = "1.3", skip = 1 }, { prefix = "1.3" }] | Missing oid.2.skip
oid | oid = [{ prefix = "1.3", skip = 128 }] | Kind oid.1.skip
oid | oid = [{ prefix = "1.3", skip = -1 }] | Kind oid.1.skip
oid | oid = [{ prefix = "1.3", skip = 1.5 }] | Kind oid.1.skip
left.pool_last | left.pool_last = "10.0.0.1" ; oid = 5 | Kind oid
left.pool_last | left.pool_last = "10.0.0.1" ; oid = 5 ; static = 5 | Kind static
left.link | report = 5 | Kind report
right.link | same = ["x"] | BadAddress same
right.link | left.gateway_mac = 5 | Kind left.gateway_mac
left.link | left.link = "ethernet" ; same = ["172.16.9.4/32"] | SameInPool right
left.pool_last | left.pool_last = "10.0.0.1" ; report = "json" | PoolSize left
left.link | left.link = "ethernet" ; report = "json" | MacMissing left"#;

/// The key, the statements and the fault of a case.
fn case(line: &'static str) -> Option<(&'static str, &'static str, &'static str)> {
    let (key, rest) = line.split_once('|')?;
    let (statements, fault) = rest.split_once('|')?;
    Some((key.trim(), statements, fault.trim()))
}

/// The base document without the lines of a key, and with some statements behind it.
fn document(alloc: Global, without: &str, statements: &str) -> Result<String, Fail> {
    let mut document = String::new(alloc);
    for line in BASE.lines() {
        if !line.starts_with(without) {
            document.push_str(line)?;
            document.push('\n')?;
        }
    }
    for statement in statements.split(';') {
        document.push_str(statement)?;
        document.push('\n')?;
    }
    Ok(document)
}

/// The text of a document's fault.
fn answer(alloc: Global, octets: &[u8]) -> Result<String, Fail> {
    match read_settings(alloc, octets) {
        Ok(_) => Ok(String::from_str(alloc, "accepted")?),
        Err(ReadSettings::OutOfMemory) => Err(Fail::from("memory")),
        Err(ReadSettings::Fault(fault)) => Ok(fault.to_string(alloc)?),
    }
}

fn read(alloc: Global, text: &str) -> Result<Settings, Fail> {
    let document = document(alloc, "-", text)?;
    match read_settings(alloc, document.as_bytes()) {
        Ok(settings) => Ok(settings),
        Err(_) => Err(Fail::from("refused")),
    }
}

/// Compares the answer to a document with its fault.
fn expect(alloc: Global, octets: &[u8], fault: &'static str) -> Result<(), Fail> {
    if answer(alloc, octets)?.as_str() == fault {
        Ok(())
    } else {
        Err(Fail::from(fault))
    }
}

fn reads_cases(alloc: Global) -> Result<(), Fail> {
    for line in CASES.lines() {
        let Some((without, statements, fault)) = case(line) else {
            return Err(Fail::from(line));
        };
        let document = document(alloc, without, statements)?;
        expect(alloc, document.as_bytes(), fault)?;
    }
    Ok(())
}

fn reads_other_octets(alloc: Global) -> Result<(), Fail> {
    let longest = vec![in alloc; b'#'; 1_048_577]?;
    expect(alloc, &longest, "TooLong")?;
    expect(alloc, &longest[1..], "Missing left")?;
    expect(alloc, b"", "Missing left")?;
    expect(alloc, b"a = \"\xff\"", "NotToml")
}

fn reads_side(alloc: Global) -> Result<bool, Fail> {
    let settings = read(alloc, "right.next_mac = \"02:00:5E:10:00:ff\"")?;
    let right = settings.side(Side::Right);
    let expected = SideSettings {
        first: Addr(0xac10_0901),
        last: Addr(0xac10_09fe),
        link: Link::Raw,
        gateway_mac: [0; 6],
        next_mac: [2, 0, 0x5e, 0x10, 0, 0xff],
    };
    Ok(*right == expected && right.contains(expected.last) && !right.contains(Addr(0xac10_09ff)))
}

fn reads_statics(alloc: Global) -> Result<bool, Fail> {
    let settings = read(alloc, STATICS)?;
    let (side, host, alias) = (Side::Left, Addr(0x0a00_0005), Addr(0xac10_0901));
    let first = settings.statics.items().first();
    Ok(
        first == Some(&Fixed { side, host, alias })
            && Statics::of(Vec::new(alloc)).items().is_empty(),
    )
}

fn reads_blocks(alloc: Global) -> Result<bool, Fail> {
    let settings = read(alloc, "same = [\"11.0.0.0/8\"]")?;
    let (base, bits) = (Addr(0x0b00_0000), 8);
    let first = settings.same.items().first();
    let same = SameRanges::of(alloc, settings.same.items())?;
    Ok(
        first == Some(&Block { base, bits })
            && same.contains(Addr(0x0bff_ffff))
            && !same.contains(Addr(0x0c00_0000))
            && Blocks::of(Vec::new(alloc)).items().is_empty(),
    )
}

/// A document with a rule whose prefix has 2 arcs and so many more.
fn long_prefix(alloc: Global, more: usize) -> Result<String, Fail> {
    let mut rule = String::from_str(alloc, "oid = [{ skip = 0, prefix = \"1.3")?;
    for _ in 0..more {
        rule.push_str(".6")?;
    }
    rule.push_str("\" }]")?;
    document(alloc, "-", rule.as_str())
}

fn reads_long_prefixes(alloc: Global) -> Result<(), Fail> {
    expect(alloc, long_prefix(alloc, 62)?.as_bytes(), "accepted")?;
    expect(
        alloc,
        long_prefix(alloc, 63)?.as_bytes(),
        "Kind oid.1.prefix",
    )
}

fn is_rule(rule: &OidRule, arcs: &[u32], skip: u32) -> bool {
    rule.prefix.items() == arcs && rule.skip == skip
}

fn reads_rules(alloc: Global) -> Result<bool, Fail> {
    let settings = read(
        alloc,
        "fragments = \"join\" ; oid = [{ prefix = \"1.3.4294967295\", skip = 1 }]",
    )?;
    let rules = settings.oids.items();
    Ok(
        settings.join
            && rules.len() == 1
            && is_rule(&rules[0], &[1, 3, 4_294_967_295], 1)
            && OidRules::of(Vec::new(alloc)).items().is_empty(),
    )
}

#[test]
fn reads_documents(rt: HostRuntime) -> Result<(), Fail> {
    let alloc = rt.alloc();
    reads_cases(alloc)?;
    reads_other_octets(alloc)?;
    reads_long_prefixes(alloc)?;
    assert!(rt; reads_side(alloc)?);
    assert!(rt; reads_statics(alloc)?);
    assert!(rt; reads_blocks(alloc)?);
    assert!(rt; reads_rules(alloc)?);
    Ok(())
}
