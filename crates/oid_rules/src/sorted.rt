// Rules, sorted by their arcs.
ghost use Rattle.std.specs.Prelude.{◌≡◌, ◌<◌, ◌≤◌, ◌==◌, ℕ, None, Some, length, option_map, List, Option, IfNone, IfOk, IfSome, IsSome, IsTrue};
ghost use Rattle.gate_base.specs.Prelude.{is_rule, AreRules};
ghost use Rattle.oid_rules.specs.Sorted.{before, by_rule, compared, first_begun, order_of};
ghost use Rattle.oid_rules.specs.Inside.Sorted.{before_at, earlier_of, with_rule, numbered, rule_at, AllRules, AreOuter, AreSorted, AreTried, AreWithin, BeginsAt, Halves, InOrder, IsEarly, IsFound, IsLast, IsTried};

use gate_base::{Addr, OidRule, OutOfMemory};
use std::alloc::Global;
use std::marker::Model;

/// Where the arcs of an identifier stand in the order, beside those of a rule.
#[derive(Clone, Copy)]
pub enum Compared {
    /// Before them: the first arc that differs is less, or they end earlier.
    Before,
    /// They begin with the arcs of the rule.
    Begins,
    /// Behind them: the first arc that differs is greater.
    Behind,
}

/// Where addresses stand in an identifier. `address_by` is the address behind so many arcs, if there is one.
pub trait Addresses {
    ghost address_by: { Self → ℕ → Option ℕ };

    /// The address behind so many arcs, from as few as a rule has to as many as one can have and skip.
    fn address(&self, before: usize) -> Option<Addr>
        requires least { 2 ≤ before }
        requires most { before ≤ 191 }
        ensures { option_map (λ a. a.0) result ≡ address_by self.now before };
}

/// An identifier to which rules are applied. `arcs_of` is its arcs, if it has any.
pub trait Identifier: Addresses {
    ghost arcs_of: { Self → Option (List ℕ) };

    /// What it is read into, where more than one rule is applied.
    type Read: Addresses + Drop;

    /// Where its arcs, if it has any, stand in the order, beside those of a rule.
    fn compare(&self, rule: &OidRule) -> Compared
        requires { IsTrue (is_rule rule.now) }
        ensures { (arcs : List ℕ)
            → arcs_of self.now ≡ Some arcs
            → result ≡ compared arcs rule.now.prefix };

    /// The same addresses, where each costs a few steps. None where there are none.
    fn read(&self) -> Option<Self::Read>
        ensures same { IfSome result (λ read. (place : ℕ) → 2 ≤ place → place ≤ 191
            → Self.Read.address_by read place ≡ Self.address_by self.now place) }
        ensures none { IfNone result ((place : ℕ) → Self.address_by self.now place ≡ None) };
}

// A rule, and its place in the list.
#[derive(Drop)]
struct Numbered {
    number: usize,
    rule: OidRule,
}

// Places of sorted rules.
#[derive(Drop)]
struct RulePlaces {
    items: Vec<usize>,
}

impl Model for RulePlaces {
    ghost use Rattle.std.specs.Prelude.{ℕ, List};

    ghost Value = { List ℕ };

    ghost view = { λ places. places.items.items };
}

impl RulePlaces {
    fn items(&self) -> &[usize]
        ensures { result.now ≡ self.now }
    {
        &self.items
    }
}

/// A list of rules. The first one that names an address in an identifier is found by halving.
#[derive(Drop)]
pub struct SortedRules {
    items: Vec<OidRule>,
    sorted: Vec<Numbered>,
    // for each sorted rule the last one before it with whose arcs it begins
    outer: Vec<Option<usize>>,
    // for each sorted rule those that are tried where an identifier begins with it
    tried: Vec<RulePlaces>,
}

impl Model for SortedRules {
    ghost use Rattle.std.specs.Prelude.{List};
    ghost use Rattle.gate_base.specs.declared.rule.OidRule.{OidRule};

    ghost Value = { List OidRule };

    ghost use Rattle.oid_rules.specs.Inside.Whole.{IsSorted};

    ghost view = { λ rules. rules.items.items };

    ghost invariant = { IsSorted };
}

impl SortedRules {
    /// The list of these rules. The error is that there is too little memory.
    pub fn of(alloc: Global, rules: &[OidRule]) -> Result<SortedRules, OutOfMemory>
        requires { AreRules rules.now }
        ensures { IfOk result (λ sorted. sorted ≡ rules.now) }
    {
        let sorted = sorted(alloc, rules)?;
        let outer = outer_of(alloc, &sorted)?;
        let tried = tried_of(alloc, &sorted, &outer)?;
        Ok(SortedRules {
            items: copied(alloc, rules)?,
            sorted,
            outer,
            tried,
        })
    }

    /// Whether there is none.
    pub fn is_empty(&self) -> bool
        ensures { result ≡ (length self.now == 0) }
    {
        self.items.is_empty()
    }

    /// The first rule with whose arcs an identifier begins and that names an address in it, and that address.
    pub fn first<I: Identifier>(&self, identifier: &I) -> Option<(&OidRule, Addr)>
        ensures first { (arcs : List ℕ)
            → I.arcs_of identifier.now ≡ Some arcs
            → option_map (λ p. (p.0.now, p.1.0)) result
            ≡ first_begun (by_rule (I.address_by identifier.now)) arcs self.now }
        ensures names { IfSome result
            (λ p. I.address_by identifier.now (before p.0.now) ≡ Some p.1.0) }
    {
        first_of(&self.sorted, &self.outer, &self.tried, identifier)
    }
}

fn copied(alloc: Global, rules: &[OidRule]) -> Result<Vec<OidRule>, OutOfMemory>
    ensures { IfOk result (λ copied. copied.items ≡ rules.now) }
{
    let mut copied = Vec::with_capacity(alloc, rules.len())?;
    for rule in rules {
        copied.push(rule.copy(alloc)?)?;
    }
    Ok(copied)
}

fn with_numbers(alloc: Global, rules: &[OidRule]) -> Result<Vec<Numbered>, OutOfMemory>
    ensures { IfOk result (λ list. list.items ≡ numbered 0 rules.now) }
{
    let mut list = Vec::with_capacity(alloc, rules.len())?;
    for (number, rule) in rules.iter().enumerate() {
        list.push(Numbered {
            number,
            rule: rule.copy(alloc)?,
        })?;
    }
    Ok(list)
}

fn sorted(alloc: Global, rules: &[OidRule]) -> Result<Vec<Numbered>, OutOfMemory>
    requires { AreRules rules.now }
    ensures { IfOk result (λ sorted. AreSorted rules.now sorted.items) }
{
    let mut sorted = with_numbers(alloc, rules)?;
    sorted.sort_unstable_by(|a, b| a.rule.prefix.items().cmp(&b.rule.prefix.items()));
    Ok(sorted)
}

// The arcs of a rule as those of an identifier in which nothing is named.
#[derive(Drop)]
struct PlainArcs<'a> {
    arcs: &'a [u32],
}

impl<'a> Addresses for PlainArcs<'a> {
    ghost use Rattle.std.specs.Prelude.{None};

    ghost address_by = { λ given place. None };

    fn address(&self, _before: usize) -> Option<Addr> {
        None
    }
}

impl<'a> Identifier for PlainArcs<'a> {
    ghost use Rattle.std.specs.Prelude.{Some};

    ghost arcs_of = { λ given. Some given.arcs.now };

    type Read = PlainArcs<'a>;

    fn compare(&self, rule: &OidRule) -> Compared {
        compare_arcs(self.arcs, rule.prefix.items())
    }

    fn read(&self) -> Option<PlainArcs<'a>> {
        None
    }
}

fn compare_arcs(arcs: &[u32], prefix: &[u32]) -> Compared
    ensures { result ≡ compared arcs.now prefix.now }
{
    let mut rest = arcs;
    for arc in prefix {
        let Some((other, more)) = rest.split_first() else {
            return Compared::Before;
        };
        if *other != *arc {
            return order_of(*other, *arc);
        }
        rest = more;
    }
    Compared::Begins
}

fn outer_of(alloc: Global, sorted: &[Numbered]) -> Result<Vec<Option<usize>>, OutOfMemory>
    requires order { InOrder sorted.now }
    requires rules { AllRules sorted.now }
    ensures outer { IfOk result (λ outer. AreOuter sorted.now outer.items) }
    ensures all { IfOk result (λ outer. length outer.items ≡ length sorted.now) }
{
    let mut outer = Vec::with_capacity(alloc, sorted.len())?;
    for one in sorted {
        let given = PlainArcs {
            arcs: one.rule.prefix.items(),
        };
        outer.push(last_begun(sorted, &outer, &given))?;
    }
    Ok(outer)
}

// Of the first rules, how many don't stand behind the identifier, and whether it begins with the last one of these.
fn halved<I: Identifier>(sorted: &[Numbered], count: usize, identifier: &I) -> (usize, bool)
    requires order { InOrder sorted.now }
    requires rules { AllRules sorted.now }
    requires within { count ≤ length sorted.now }
    ensures within { result.0 ≤ count }
    ensures halved { (arcs : List ℕ)
        → I.arcs_of identifier.now ≡ Some arcs
        → Halves count result.0 result.0 sorted.now arcs result.1 }
{
    let mut low = 0;
    let mut high = count;
    let mut begins = false;
    while low < high {
        let middle = low + (high - low) / 2;
        match identifier.compare(&sorted[middle].rule) {
            Compared::Before => high = middle,
            Compared::Begins => {
                low = middle + 1;
                begins = true;
            }
            Compared::Behind => {
                low = middle + 1;
                begins = false;
            }
        }
    }
    (low, begins)
}

// The last one with which an identifier begins of the rules for which the outer ones are given.
fn last_begun<I: Identifier>(
    sorted: &[Numbered],
    outer: &[Option<usize>],
    identifier: &I,
) -> Option<usize>
    requires order { InOrder sorted.now }
    requires rules { AllRules sorted.now }
    requires outer { AreOuter sorted.now outer.now }
    requires within { length outer.now ≤ length sorted.now }
    ensures within { IfSome result (λ place. place < length outer.now) }
    ensures last { (arcs : List ℕ)
        → I.arcs_of identifier.now ≡ Some arcs
        → IsLast (length outer.now) sorted.now arcs result }
{
    let (count, begins) = halved(sorted, outer.len(), identifier);
    let last = count.checked_sub(1)?;
    if begins {
        return Some(last);
    }
    let mut place = outer[last];
    while let Some(at) = place {
        if let Compared::Begins = identifier.compare(&sorted[at].rule) {
            return place;
        }
        place = outer[at];
    }
    None
}

// How many arcs stand before the address that a rule names.
fn before(rule: &OidRule) -> usize
    requires { IsTrue (is_rule rule.now) }
    ensures value { result ≡ before rule.now }
    ensures least { 2 ≤ result }
    ensures most { result ≤ 191 }
{
    rule.prefix.items().len() + rule.skip as usize
}

fn tried_of(
    alloc: Global,
    sorted: &[Numbered],
    outer: &[Option<usize>],
) -> Result<Vec<RulePlaces>, OutOfMemory>
    requires order { InOrder sorted.now }
    requires rules { AllRules sorted.now }
    requires outer { AreOuter sorted.now outer.now }
    requires all { length outer.now ≡ length sorted.now }
    ensures tried { IfOk result (λ tried. AreTried sorted.now tried.items) }
    ensures every { IfOk result (λ tried. length tried.items ≡ length sorted.now) }
{
    let mut tried = Vec::with_capacity(alloc, sorted.len())?;
    for at in 0..sorted.len() {
        tried.push(tried_at(alloc, sorted, outer, &tried, at)?)?;
    }
    Ok(tried)
}

// What is tried where an identifier begins with the rule at a place, by what is tried with those before it.
fn tried_at(
    alloc: Global,
    sorted: &[Numbered],
    outer: &[Option<usize>],
    tried: &[RulePlaces],
    at: usize,
) -> Result<RulePlaces, OutOfMemory>
    requires order { InOrder sorted.now }
    requires rules { AllRules sorted.now }
    requires outer { AreOuter sorted.now outer.now }
    requires all { length outer.now ≡ length sorted.now }
    requires tried { AreTried sorted.now tried.now }
    requires next { at ≡ length tried.now }
    requires within { at < length sorted.now }
    ensures { IfOk result (λ one. IsTried sorted.now at one) }
{
    match outer[at] {
        Some(place) => with_rule(alloc, sorted, tried[place].items(), at),
        None => with_rule(alloc, sorted, &[], at),
    }
}

// Places with one more, which takes the place of those whose addresses stand where its own does, or of which one stands for it.
fn with_rule(
    alloc: Global,
    sorted: &[Numbered],
    places: &[usize],
    one: usize,
) -> Result<RulePlaces, OutOfMemory>
    requires rules { AllRules sorted.now }
    requires places { AreWithin sorted.now places.now }
    requires one { one < length sorted.now }
    ensures { IfOk result (λ more. more ≡ with_rule sorted.now places.now one) }
{
    let mut more = Vec::with_capacity(alloc, 1)?;
    let mut best = one;
    for place in places {
        if before_at(sorted, *place) == before_at(sorted, best) {
            best = earlier_of(sorted, best, *place);
        } else {
            more.push(*place)?;
        }
    }
    more.push(best)?;
    Ok(RulePlaces { items: more })
}

fn before_at(sorted: &[Numbered], place: usize) -> usize
    requires rules { AllRules sorted.now }
    requires within { place < length sorted.now }
    ensures { result ≡ before_at sorted.now place }
{
    before(&sorted[place].rule)
}

// The earlier one in the list of two rules.
fn earlier_of(sorted: &[Numbered], place: usize, other: usize) -> usize
    requires place { place < length sorted.now }
    requires other { other < length sorted.now }
    ensures value { result ≡ earlier_of sorted.now place other }
    ensures within { result < length sorted.now }
{
    if sorted[other].number < sorted[place].number {
        other
    } else {
        place
    }
}

fn first_of<'a, I: Identifier>(
    sorted: &'a [Numbered],
    outer: &[Option<usize>],
    tried: &[RulePlaces],
    identifier: &I,
) -> Option<(&'a OidRule, Addr)>
    requires order { InOrder sorted.now }
    requires rules { AllRules sorted.now }
    requires outer { AreOuter sorted.now outer.now }
    requires all { length outer.now ≡ length sorted.now }
    requires tried { AreTried sorted.now tried.now }
    requires every { length tried.now ≡ length sorted.now }
    ensures first { (rules : List OidRule) (arcs : List ℕ)
        → AreSorted rules sorted.now
        → I.arcs_of identifier.now ≡ Some arcs
        → option_map (λ p. (p.0.now, p.1.0)) result
        ≡ first_begun (by_rule (I.address_by identifier.now)) arcs rules }
    ensures names { IfSome result
        (λ p. I.address_by identifier.now (before p.0.now) ≡ Some p.1.0) }
{
    let last = last_begun(sorted, outer, identifier)?;
    let (at, address) = first_by(sorted, tried[last].items(), identifier)?;
    Some((&sorted[at].rule, address))
}

// The first one in the list that names an address, of those that are tried. An identifier is read only if there are more than one.
fn first_by<I: Identifier>(
    sorted: &[Numbered],
    tried: &[usize],
    identifier: &I,
) -> Option<(usize, Addr)>
    requires order { InOrder sorted.now }
    requires rules { AllRules sorted.now }
    requires within { AreWithin sorted.now tried.now }
    ensures first { (rules : List OidRule) (arcs : List ℕ) (last : ℕ)
        → AreSorted rules sorted.now
        → IsTried sorted.now last tried.now
        → IsLast (length sorted.now) sorted.now arcs (Some last)
        → option_map (λ p. ((rule_at sorted.now p.0).rule, p.1.0)) result
        ≡ first_begun (by_rule (I.address_by identifier.now)) arcs rules }
    ensures found { IsFound (by_rule (I.address_by identifier.now)) sorted.now result }
{
    if tried.len() == 1 {
        earlier(sorted, None, tried[0], identifier)
    } else {
        first_read(sorted, tried, identifier)
    }
}

// The same, by the identifier read.
#[inline(never)]
fn first_read<I: Identifier>(
    sorted: &[Numbered],
    tried: &[usize],
    identifier: &I,
) -> Option<(usize, Addr)>
    requires order { InOrder sorted.now }
    requires rules { AllRules sorted.now }
    requires within { AreWithin sorted.now tried.now }
    ensures first { (rules : List OidRule) (arcs : List ℕ) (last : ℕ)
        → AreSorted rules sorted.now
        → IsTried sorted.now last tried.now
        → IsLast (length sorted.now) sorted.now arcs (Some last)
        → option_map (λ p. ((rule_at sorted.now p.0).rule, p.1.0)) result
        ≡ first_begun (by_rule (I.address_by identifier.now)) arcs rules }
    ensures found { IsFound (by_rule (I.address_by identifier.now)) sorted.now result }
{
    match identifier.read() {
        Some(read) => first_among(sorted, tried, &read),
        None => None,
    }
}

fn first_among<A: Addresses>(
    sorted: &[Numbered],
    tried: &[usize],
    addresses: &A,
) -> Option<(usize, Addr)>
    requires order { InOrder sorted.now }
    requires rules { AllRules sorted.now }
    requires within { AreWithin sorted.now tried.now }
    ensures first { (rules : List OidRule) (arcs : List ℕ) (last : ℕ)
        → AreSorted rules sorted.now
        → IsTried sorted.now last tried.now
        → IsLast (length sorted.now) sorted.now arcs (Some last)
        → option_map (λ p. ((rule_at sorted.now p.0).rule, p.1.0)) result
        ≡ first_begun (by_rule (A.address_by addresses.now)) arcs rules }
    ensures found { IsFound (by_rule (A.address_by addresses.now)) sorted.now result }
{
    let mut found = None;
    for at in tried {
        found = earlier(sorted, found, *at, addresses);
    }
    found
}

// The earlier one in the list: what was found, or what the rule at a place names.
fn earlier<A: Addresses>(
    sorted: &[Numbered],
    found: Option<(usize, Addr)>,
    at: usize,
    addresses: &A,
) -> Option<(usize, Addr)>
    requires rules { AllRules sorted.now }
    requires within { at < length sorted.now }
    requires found { IsFound (by_rule (A.address_by addresses.now)) sorted.now found }
    ensures found { IsFound (by_rule (A.address_by addresses.now)) sorted.now result }
    ensures begun { (arcs : List ℕ)
        → IfSome found (λ p. BeginsAt sorted.now arcs p.0)
        → BeginsAt sorted.now arcs at
        → IfSome result (λ p. BeginsAt sorted.now arcs p.0) }
    ensures early { (number : ℕ)
        → IsEarly sorted.now found number
        → IsEarly sorted.now result number }
    ensures at { IsSome (A.address_by addresses.now (before (rule_at sorted.now at).rule))
        → IsEarly sorted.now result (rule_at sorted.now at).number }
{
    if let Some((best, _)) = found
        && sorted[best].number < sorted[at].number
    {
        return found;
    }
    match addresses.address(before(&sorted[at].rule)) {
        Some(address) => Some((at, address)),
        None => found,
    }
}

/// How an arc stands to another one that differs.
pub fn order_of(arc: u32, other: u32) -> Compared
    ensures { result ≡ order_of arc other }
{
    if arc < other {
        Compared::Before
    } else {
        Compared::Behind
    }
}
