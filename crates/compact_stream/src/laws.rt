// The laws of what is kept, for every lawful dialogue and every stream that it is kept of.
ghost use Rattle.std.specs.Prelude.{◌≡◌, ◌≤◌, ◌<◌, ◌+◌, ℕ, Bool, false, List, [], ◌++◌, None, length, min, slice_range};
ghost use Rattle.gate_base.specs.declared.host.Host.{Host};
ghost use Rattle.dialogue.specs.Prelude.{Meaning, IsLawful, cut, due, image, fore, rear, back, ReadAlike};
ghost use Rattle.shift_ledger.specs.Prelude.{fore_by, copied_by, Kept, StandsFor, fore_of, rear_of, back_of};
ghost use Rattle.tcp_segments.specs.Prelude.{one_if};
ghost use Rattle.stream_model.specs.Prelude.{Sender, Session, Segment, extent, arrival, repeats_unlike, refusal_of, segment_refusal, own_after, other_after, session_next, session_made, open_of, Agree, standing};
ghost use Rattle.stream_model.specs.declared.refusals.Extent.{Extent};
ghost use Rattle.compact_stream.specs.Runs.{held_rest};
ghost use Rattle.compact_stream.specs.Kept.{CompactSender, Keeps, KeepsSender, InRange, octets_kept, recent_start, sent_pushes, extent_kept, own_kept, other_kept};
ghost use Rattle.compact_stream.specs.Outs.{recent_back, standing_kept};
ghost use Rattle.compact_stream.specs.Sessions.{CompactState, StandsForSession, sender_kept, kept_made, kept_refusal, kept_next};

/// Of the session that a client's first SYN makes, what is kept is two ledgers of which nothing was pushed.
pub fn kept_session_begins()
    ensures session { (m n : Meaning) (initial mss : ℕ) (l k : Kept)
        → StandsFor l [] 0
        → StandsFor k [] 0
        → StandsForSession m n (kept_made initial mss l k)
        (session_made m n initial mss) }
    ensures range { (m n : Meaning) (initial mss : ℕ) (l k : Kept)
        → IsLawful m
        → IsLawful n
        → StandsFor l [] 0
        → StandsFor k [] 0
        → InRange m (kept_made initial mss l k).client
        × InRange n (kept_made initial mss l k).server }
{}

/// What is kept of a session has its extents and its number of open units, and judges a segment as it does.
pub fn kept_session_judges()
    ensures extent { (m : Meaning) (h : CompactSender) (a : Sender)
        → KeepsSender m h a
        → extent_kept h ≡ extent a }
    ensures open_units { (m : Meaning) (h : CompactSender) (a : Sender)
        → KeepsSender m h a
        → length h.ledger.changed ≡ open_of a }
    ensures refusal { (m n : Meaning) (h : CompactState) (x : Session)
        (from : Host) (g : Segment)
        → StandsForSession m n h x
        → kept_refusal from h g ≡ segment_refusal from x g }
{}

/// What is kept of a sender answers as the sender does, from the greatest acknowledged place on. So it sends what the sender sends.
pub fn kept_answers_agree()
    ensures { (m : Meaning) (h : CompactSender) (a : Sender)
        → IsLawful m
        → InRange m h
        → KeepsSender m h a
        → Agree (standing_kept h) (standing a) }
{}

/// What is kept after a segment that passes is determined by what was kept before it, and is that of the session after it.
pub fn kept_session_goes_on()
    ensures own { (m : Meaning) (h : CompactSender) (a b : Sender)
        (from : Host) (g : Segment)
        → IsLawful m
        → h.acked ≤ h.ledger.octets_out + one_if h.ended
        → KeepsSender m h a
        → refusal_of from (extent a) (extent b) (arrival g) (repeats_unlike a g)
        ≡ None
        → KeepsSender m (own_kept m h g) (own_after a g) }
    ensures other { (m : Meaning) (h : CompactSender) (a b : Sender)
        (from : Host) (g : Segment)
        → IsLawful m
        → h.acked ≤ h.ledger.octets_out + one_if h.ended
        → KeepsSender m h b
        → refusal_of from (extent a) (extent b) (arrival g) (repeats_unlike a g)
        ≡ None
        → KeepsSender m (other_kept h g) (other_after b g) }
    ensures session { (m n : Meaning) (h : CompactState) (x : Session)
        (from : Host) (g : Segment)
        → IsLawful m
        → IsLawful n
        → h.client.acked ≤ h.client.ledger.octets_out + one_if h.client.ended
        → h.server.acked ≤ h.server.ledger.octets_out + one_if h.server.ended
        → StandsForSession m n h x
        → segment_refusal from x g ≡ None
        → StandsForSession m n (kept_next m n from h g) (session_next from x g) }
{}

/// What is kept stays in its ranges after a segment that passes, whatever it is kept of.
pub fn kept_stays_in_range()
    ensures own { (m : Meaning) (h : CompactSender) (receiver : Extent)
        (from : Host) (unlike : Bool) (g : Segment)
        → IsLawful m
        → InRange m h
        → refusal_of from (extent_kept h) receiver (arrival g) unlike ≡ None
        → InRange m (own_kept m h g) }
    ensures other { (m : Meaning) (h : CompactSender) (sender : Extent)
        (from : Host) (unlike : Bool) (g : Segment)
        → InRange m h
        → refusal_of from sender (extent_kept h) (arrival g) unlike ≡ None
        → InRange m (other_kept h g) }
{}

/// The places of a stream are those of the pushes whose image is due, which a ledger answers.
pub fn places_are_kept()
    ensures fore { (m : Meaning) (ended : Bool) (s : List ℕ) (p : ℕ)
        → IsLawful m
        → fore m ended s p ≡ fore_of (sent_pushes m ended (cut m s)) p }
    ensures rear { (m : Meaning) (ended : Bool) (s : List ℕ) (e : ℕ)
        → IsLawful m
        → rear m ended s e ≡ rear_of (sent_pushes m ended (cut m s)) e }
    ensures back { (m : Meaning) (ended : Bool) (s : List ℕ) (q : ℕ)
        → IsLawful m
        → q ≤ length (due m ended s)
        → back m ended s q ≡ back_of (sent_pushes m ended (cut m s)) q }
    ensures end { (m : Meaning) (h : CompactSender) (a : Sender) (q : ℕ)
        → IsLawful m
        → KeepsSender m h a
        → h.ledger.octets_out < q
        → q ≤ h.ledger.octets_out + one_if h.ended
        → back m a.ended a.octets q ≡ h.ledger.octets_in + length h.rest + 1 }
    ensures forgotten { (m : Meaning) (h : CompactSender) (a : Sender)
        → IsLawful m
        → KeepsSender m h a
        → h.acked ≤ h.ledger.octets_out + one_if h.ended
        → back_of (sent_pushes m h.ended (cut m a.octets))
        (min h.acked h.ledger.octets_out) ≤ back m a.ended a.octets a.acked }
{}

/// Nothing below `back` of an acknowledged place is sent again, and what goes out when a held rest is due needs no octet before it.
pub fn kept_octets_suffice()
    ensures acknowledged { (m : Meaning) (ended : Bool) (s : List ℕ) (q e : ℕ)
        → IsLawful m
        → q ≤ length (due m ended s)
        → 1 ≤ e
        → e ≤ back m ended s q
        → rear m ended s e ≤ fore m ended s (back m ended s q) }
    ensures starts { (m : Meaning) (s : List ℕ)
        → IsLawful m
        → back m false s (length (due m false s))
        + length (held_rest m (cut m s).rest) ≡ length s }
    ensures covered { (m : Meaning) (ended : Bool) (s t : List ℕ) (p : ℕ)
        → IsLawful m
        → p + length (held_rest m (cut m s).rest) ≡ length s
        → fore m ended (s ++ t) p ≤ length (due m false s) }
{}

/// What goes out of an image is copied from the recent octets alone.
pub fn recent_octets_suffice()
    ensures { (m : Meaning) (h : CompactSender) (s : List ℕ) (lo hi : ℕ)
        → IsLawful m
        → Keeps m h s
        → h.acked ≤ h.ledger.octets_out
        → recent_back h ≤ octets_kept h
        → fore_by h.ledger (recent_back h) ≤ lo
        → lo ≤ hi
        → hi ≤ h.ledger.octets_out
        → copied_by h.ledger lo hi (recent_start h) h.recent
        ≡ slice_range (image m s) lo hi }
{}

/// What is kept of a stream is kept of it by each dialogue that reads it alike, and stays in its ranges: so nothing of it changes when a
/// dialogue learns.
pub fn kept_stream_reads_alike()
    ensures keeps { (m n : Meaning) (h : CompactSender) (s : List ℕ)
        → ReadAlike m n s
        → Keeps m h s
        → Keeps n h s }
    ensures sender { (m n : Meaning) (h : CompactSender) (a : Sender)
        → ReadAlike m n a.octets
        → KeepsSender m h a
        → KeepsSender n h (record a { meaning = n }) }
    ensures range { (m n : Meaning) (h : CompactSender)
        → ((s : List ℕ) → m.first_end s ≡ n.first_end s)
        → InRange m h
        → InRange n h }
{}
