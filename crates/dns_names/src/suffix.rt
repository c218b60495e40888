// Suffixes of names as keys.
ghost use Rattle.std.specs.Prelude.{◌≡◌, ℕ, Some};
ghost use Rattle.std.specs.Ordering.{is_eq, nat_cmp};
ghost use Rattle.std.specs.Cmp.{eq_by_cmp_equiv, partial_equiv_from_equiv, partial_order_from_total};
ghost use Rattle.std.specs.Cmp.Lexicographic.{slice_cmp, on_texts};
ghost use Rattle.std.specs.Cmp.Rules.{comparing};
ghost use Rattle.std.proofs.Common.{rules};
ghost use Rattle.dns_names.specs.Inside.Ends.{first_label, front_of, front_of_four, front_of_three, key, key_of};

use std::cmp::Ordering;

/// The octets of the last labels of a name, the first of these octets as a number, and where the labels behind the first one were written.
/// Suffixes are ordered by that number, which tells most of them apart at once, then by that place, and then by the first label.
#[derive(Clone, Copy)]
pub struct Suffix<'a> {
    pub(crate) octets: &'a [u8],
    pub(crate) front: u64,
    pub(crate) behind: u16,
}

fn front_of_three(octets: &[u8]) -> u64
    ensures { result ≡ front_of_three octets.now }
{
    match octets {
        [a, b, c, ..] => u64::from(u32::from_be_bytes([0, *a, *b, *c])),
        _ => 0,
    }
}

fn front_of_four(octets: &[u8]) -> u64
    ensures { result ≡ front_of_four octets.now }
{
    match octets {
        [a, b, c, d, ..] => u64::from(u32::from_be_bytes([*a, *b, *c, *d])),
        _ => front_of_three(octets),
    }
}

/// The first eight octets as a number, or three or four where they are fewer, or none.
fn front_of(octets: &[u8]) -> u64
    ensures { result ≡ front_of octets.now }
{
    match octets {
        [a, b, c, d, e, f, g, h, ..] => { u64::from_be_bytes([*a, *b, *c, *d, *e, *f, *g, *h]) }
        _ => front_of_four(octets),
    }
}

impl<'a> Suffix<'a> {
    /// The suffix with these octets, and the place behind its first label.
    pub(crate) fn new(octets: &'a [u8], behind: u16) -> Suffix<'a>
        ensures key { key result ≡ key_of behind octets.now }
        ensures octets { result.octets.now ≡ octets.now }
    {
        let front = front_of(octets);
        Suffix {
            octets,
            front,
            behind,
        }
    }
}

/// The first label, behind its length.
#[inline(always)]
fn first_label(octets: &[u8]) -> &[u8]
    ensures { result.now ≡ first_label octets.now }
{
    match octets {
        [] => octets,
        [count, ..] => {
            let end = 1 + *count as usize;
            &octets[..end.min(octets.len())]
        }
    }
}

#[inline(never)]
fn compare_labels(a: &[u8], b: &[u8]) -> Ordering
    ensures { result ≡ slice_cmp nat_cmp (first_label a.now) (first_label b.now) }
{
    first_label(a).cmp(first_label(b))
}

fn compare<'a>(a: &Suffix<'a>, b: &Suffix<'a>) -> Ordering
    ensures { result ≡ slice_cmp nat_cmp (key a.now) (key b.now) }
{
    if a.front < b.front {
        return Ordering::Less;
    }
    if a.front > b.front {
        return Ordering::Greater;
    }
    if a.behind < b.behind {
        return Ordering::Less;
    }
    if a.behind > b.behind {
        return Ordering::Greater;
    }
    compare_labels(a.octets, b.octets)
}

impl<'a> PartialEq for Suffix<'a> {
    ghost eq = { λ x y. is_eq (slice_cmp nat_cmp (key x) (key y)) };

    ghost laws = { partial_equiv_from_equiv (eq_by_cmp_equiv (on_texts key)) };

    fn eq(&self, other: &Suffix<'a>) -> bool {
        compare(self, other).is_eq()
    }
}

impl<'a> Eq for Suffix<'a> {
    ghost laws = { eq_by_cmp_equiv (on_texts key) };
}

impl<'a> PartialOrd for Suffix<'a> {
    ghost partial_cmp = { λ x y. Some (slice_cmp nat_cmp (key x) (key y)) };

    ghost laws = { partial_order_from_total (on_texts key) };

    fn partial_cmp(&self, other: &Suffix<'a>) -> Option<Ordering> {
        Some(compare(self, other))
    }
}

impl<'a> Ord for Suffix<'a> {
    ghost cmp = { λ x y. slice_cmp nat_cmp (key x) (key y) };

    ghost total = { on_texts key };

    ghost matches_partial_cmp = { Prim.search (comparing, rules) };

    ghost matches_eq = { Prim.search (comparing, rules) };

    fn cmp(&self, other: &Suffix<'a>) -> Ordering {
        compare(self, other)
    }
}
