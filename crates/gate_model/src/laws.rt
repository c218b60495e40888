// The laws of the gateway. The functions do nothing: their clauses are proved.
ghost use Rattle.std.specs.Prelude.{◌≡◌, ◌≤◌, ◌<◌, ◌+◌, ◌*◌, ◌⊎◌, ℕ, true, false, if◌then◌else◌, List, [], ◌++◌, map, Option, Some, Ok, length, All};
ghost use Rattle.std.specs.List.{fold};
ghost use Rattle.gate_base.specs.Prelude.{Event};
ghost use Rattle.verdicts.specs.declared.refusal.Refusal.{Refusal};
ghost use Rattle.verdicts.specs.declared.verdict.Verdict.TheVariants.{Pass, Refused};
ghost use Rattle.gate_base.specs.declared.host.Host.{Host};
ghost use Rattle.gate_base.specs.declared.side.Side.{Side};
ghost use Rattle.gate_settings.specs.Prelude.{IsSound, HasForms};
ghost use Rattle.gate_settings.specs.declared.settings.Settings.{Settings};
ghost use Rattle.stream_model.specs.Prelude.{own, Facts, Segment};
ghost use Rattle.gate_model.specs.GoingOn.{streams_of, OnlyRestsWait, HasDataSegment, GoesOnBy, ComesThrough};
ghost use Rattle.gate_model.specs.Rounds.{FrameRound};
ghost use Rattle.gate_model.specs.Sessions.{WholeSession};
ghost use Rattle.gate_model.specs.Verdict.{image_in};
ghost use Rattle.gate_model.specs.Rules.{SessionRules, whole_rules};
ghost use Rattle.gate_model.specs.World.{World, Tracked, opening_world, at_moment};
ghost use Rattle.gate_model.specs.Verdict.{verdict};
ghost use Rattle.gate_model.specs.Step.{next, out, taker_in};
ghost use Rattle.gate_model.specs.Reading.{Reads, world_as};
ghost use Rattle.gate_model.specs.Answers.{Answers};
ghost use Rattle.binding_table.specs.Prelude.{IsKnownAs};
ghost use Rattle.gate_model.specs.Held.{KeepsHosts, PairCrosses, HasLists, KeepsLists, KeepsListed, ListsCross, ListsAreFew};
ghost use Rattle.gate_base.specs.declared.address.Addr.{Addr};
ghost use Rattle.dialogue.specs.Prelude.{Entry, is_listed};
ghost use Rattle.dns_stream.specs.Prelude.{image_in as listed_image};
ghost use Rattle.gate_model.specs.Lists.{entered, unlisted};
ghost use Rattle.gate_model.specs.Ranges.{InRange};
ghost use Rattle.gate_model.specs.Taken.{TakesSegment, said};
ghost use Rattle.gate_model.specs.Frame.{datagram_in};
ghost use Rattle.gate_model.specs.Stream.{key_in, segment_of, connection_after, stepped};
ghost use Rattle.tcp_tracker.specs.Prelude.{connection_of};
ghost use Rattle.tcp_tracker.specs.declared.connection.Connection.{Connection};
ghost use Rattle.gate_model.specs.Remembered.{RememberedSession, remembering_rules, StreamIs, EachTracked};
ghost use Rattle.gate_model.specs.Promise.{Promised, RoundsEnd, remembered_after};
ghost use Rattle.binding_table.specs.Prelude.{IsLawful, is_same};
ghost use Rattle.gate_model.specs.World.{destination_of};
ghost use Rattle.tcp_tracker.specs.Connections.{is_established, kept, with_flags};
ghost use Rattle.ipv4_frames.specs.Ipv4.{Datagram};
ghost use Rattle.gate_model.specs.Frame.{Kind, Dns, Whole, Stream, kind_of};
ghost use Rattle.gate_model.specs.Stream.{tcp_of, found_in, has_tracked_port, ends_by};
ghost use Rattle.gate_model.specs.Verdict.{timeout_by};
ghost use Rattle.gate_model.specs.declared.timeouts.TheConstants.{NAMED_TIMEOUT};
ghost use Rattle.gate_model.specs.Called.{IsKeptUntil, AllBefore, header_until, least_seconds};
ghost use Rattle.gate_model.specs.Transparent.{IsTranslated, KeepsAlias, NamesAreCalled, IsReply, ComesBack, IsAbout, ComesHome, IsUntracked, ReachesHosts};
ghost use Rattle.gate_model.specs.Sifted.{Rise, passing, all_out};
ghost use Rattle.gate_model.specs.Origins.{ComesFromUse, IsMeant};

/// A frame that is refused gives no datagram, and moves the clock alone.
pub fn refused_moves_clock<S>()
    ensures next { (rules : SessionRules S) (w : World S) (e : Event) (r : Refusal)
        → verdict rules w e ≡ Refused r
        → next rules w e ≡ at_moment w e.moment }
    ensures out { (rules : SessionRules S) (w : World S) (e : Event) (r : Refusal)
        → verdict rules w e ≡ Refused r
        → out rules w e ≡ [] }
{}

/// A frame that passes gives at least one datagram, where sessions send something for each segment; those over whole lists do.
pub fn passed_goes_on<S>()
    ensures any { (rules : SessionRules S)
        → Answers rules
        → (w : World S) (e : Event)
        → verdict rules w e ≡ Pass
        → 1 ≤ length (out rules w e) }
    ensures whole { (w : World WholeSession) (e : Event)
        → verdict whole_rules w e ≡ Pass
        → 1 ≤ length (out whole_rules w e) }
{}

/// Where sessions by one kind of rules, read as others, are sessions by other rules, so are their worlds. Each event has the same
/// verdict, gives the same datagrams, and leaves the one world read as the other.
pub fn worlds_read_alike<S, T>()
    ensures verdict { (h : S → T) (a : SessionRules S) (b : SessionRules T)
        → Reads h a b
        → (w : World S) (e : Event)
        → verdict b (world_as h w) e ≡ verdict a w e }
    ensures out { (h : S → T) (a : SessionRules S) (b : SessionRules T)
        → Reads h a b
        → (w : World S) (e : Event)
        → out b (world_as h w) e ≡ out a w e }
    ensures next { (h : S → T) (a : SessionRules S) (b : SessionRules T)
        → Reads h a b
        → (w : World S) (e : Event)
        → next b (world_as h w) e ≡ world_as h (next a w e) }
    ensures run { (h : S → T) (a : SessionRules S) (b : SessionRules T)
        → Reads h a b
        → (w : World S) (events : List Event)
        → fold (next b) (world_as h w) events ≡ world_as h (fold (next a) w events) }
{}

/// Whatever events come, in each session that is tracked the octets that were sent to a host are a prefix of the peer's stream.
/// Its address lines, or its messages, are renamed, each at its place and none left out. Acknowledgements cover only octets whose
/// images were acknowledged. The sessions that remember what passed and what went out are those of the world.
pub fn streams_are_renamed()
    ensures streams { (settings : Settings) (events : List Event) (host : Host)
        → EachTracked (StreamIs host) (fold (next remembering_rules)
        (opening_world settings) events).connections }
    ensures facts { (settings : Settings) (events : List Event) (host : Host)
        → EachTracked (λ t. Facts (own host t.session.session.session)) (fold
        (next remembering_rules) (opening_world settings) events).connections }
    ensures world { (settings : Settings) (events : List Event)
        → world_as (λ (t : RememberedSession). t.session)
        (fold (next remembering_rules) (opening_world settings) events)
        ≡ fold (next whole_rules) (opening_world settings) events }
    ensures sent { (w : World RememberedSession) (e : Event)
        → out remembering_rules w e
        ≡ out whole_rules (world_as (λ (t : RememberedSession). t.session) w) e }
    ensures verdict { (w : World RememberedSession) (e : Event)
        → verdict remembering_rules w e
        ≡ verdict whole_rules (world_as (λ (t : RememberedSession). t.session) w)
        e }
{}

/// Whatever events come, sessions of FTP and of DNS go on. Of each stream nothing waits but a held rest, a line or a message that
/// isn't whole. What goes out for a segment, without SYN and RST, that a session takes brings what is lacking of its sender's
/// stream. It acknowledges all of the other host's octets whose images are acknowledged by then. Nothing else changes a session.
/// Where a host sends again what it has no acknowledgement of, and the other one acknowledges what it has, such rounds come to an
/// end.
pub fn sessions_go_on()
    ensures waits { (settings : Settings) (events : List Event)
        → EachTracked (λ t. OnlyRestsWait (streams_of t))
        (remembered_after settings events).connections }
    ensures takes { (settings : Settings) (events : List Event) (e : Event)
        (t : Tracked RememberedSession)
        → let w = remembered_after settings events in
        TakesSegment remembering_rules w e t
        → HasDataSegment e
        → GoesOnBy w e t }
    ensures through { (w : World RememberedSession) (e : Event)
        → EachTracked (ComesThrough w e) (next remembering_rules w e).connections }
    ensures rounds { (settings : Settings) (events : List Event) (host : Host)
        (t : Tracked RememberedSession) (knows had : ℕ) (rounds : List FrameRound)
        → RoundsEnd settings events host t knows had rounds }
{}

/// Whatever events come, both hosts of a connection are bound for as long as it lives, and a session's pair is what crossing
/// gives for its client's address and its server's alias.
pub fn connections_keep_aliases<S>()
    ensures hosts { (rules : SessionRules S) (settings : Settings)
        (events : List Event)
        → IsSound settings
        → HasForms settings
        → let w = fold (next rules) (opening_world settings) events in
        All (KeepsHosts w.table) w.connections }
    ensures pairs { (rules : SessionRules S) (settings : Settings)
        (events : List Event)
        → IsSound settings
        → HasForms settings
        → let w = fold (next rules) (opening_world settings) events in
        EachTracked (PairCrosses w.table) w.connections }
    ensures stays { (rules : SessionRules S) (w : World S) (e : Event) (side : Side)
        (host alias until : ℕ)
        → e.moment < until
        → IsKnownAs w.table side host alias until
        → IsKnownAs (next rules w e).table side host alias until }
{}

/// Whatever events come, each address that a session's list renames crosses to its listed image, from the realm of its list's
/// sender. The binding is for good or ends no earlier than the connection. One that is kept crosses unchanged. Lists only grow at
/// their ends, and never beyond the most entries. So an address that one host names has one image for the session's life. What the
/// other host names is in a list of its own.
pub fn lists_stay_bound<S>()
    ensures bound { (rules : SessionRules S) (settings : Settings)
        (events : List Event)
        → HasLists rules
        → IsSound settings
        → HasForms settings
        → let w = fold (next rules) (opening_world settings) events in
        All (KeepsLists rules w.table) w.connections }
    ensures step { (rules : SessionRules S) (w : World S) (e : Event)
        → HasLists rules
        → KeepsListed rules w
        → KeepsListed rules (next rules w e) }
    ensures crosses { (rules : SessionRules S) (w : World S)
        → KeepsListed rules w
        → EachTracked (ListsCross rules w.table) w.connections }
    ensures grow { (rules : SessionRules S)
        → HasLists rules
        → (image : Addr → Option Addr) (from : Host) (s : S) (g : Segment)
        (host : Host)
        → (more : List Entry)
        × (rules.listed host (rules.next image from s g)
        ≡ rules.listed host s ++ more) }
    ensures image { (rules : SessionRules S)
        → HasLists rules
        → (image : Addr → Option Addr) (from : Host) (s : S) (g : Segment)
        (host : Host) (number : ℕ)
        → is_listed (rules.listed host s) number ≡ true
        → listed_image (rules.listed host (rules.next image from s g)) number
        ≡ listed_image (rules.listed host s) number }
    ensures few { (rules : SessionRules S) (settings : Settings) (events : List Event)
        → HasLists rules
        → EachTracked (ListsAreFew rules)
        (fold (next rules) (opening_world settings) events).connections }
    ensures whole { HasLists whole_rules }
{}

/// A list after a segment has what was there and then each new address where it stands first, with what it is called; what was
/// listed before keeps its image.
pub fn lists_are_entered()
    ensures new { (image : Addr → Option Addr) (entries : List Entry)
        (addresses : List Addr)
        → entered image entries addresses
        ≡ entries ++ map (λ a. (a, image a)) (unlisted entries addresses) }
    ensures count { (image : Addr → Option Addr) (entries : List Entry)
        (addresses : List Addr)
        → length (entered image entries addresses)
        ≡ length entries + length (unlisted entries addresses) }
    ensures image { (image : Addr → Option Addr) (entries : List Entry)
        (addresses : List Addr) (number : ℕ)
        → is_listed (entered image entries addresses) number ≡ true
        → listed_image (entered image entries addresses) number
        ≡ (if is_listed entries number then listed_image entries number else image
        (record { 0 = number })) }
{}

/// There are never more connections, or sessions, than the most.
pub fn connections_in_range<S>()
    ensures step { (rules : SessionRules S) (w : World S) (e : Event)
        → InRange w
        → InRange (next rules w e) }
    ensures run { (rules : SessionRules S) (settings : Settings) (events : List Event)
        → InRange (fold (next rules) (opening_world settings) events) }
{}

/// For a segment that a session takes exactly what the session says goes out, and the connection of that name, if one is left,
/// has the session after the segment.
pub fn session_takes_segment<S>()
    ensures out { (rules : SessionRules S) (w : World S) (e : Event) (t : Tracked S)
        → TakesSegment rules w e t
        → out rules w e ≡ said rules w e t }
    ensures next { (rules : SessionRules S) (w : World S) (e : Event) (t : Tracked S)
        (c : Connection (Tracked S))
        → TakesSegment rules w e t
        → let live = at_moment w e.moment in
        let d = datagram_in e in
        connection_after rules (image_in rules live e.side e.moment d) live e.side
        e.moment d (taker_in rules live e.side e.moment d) ≡ Some c
        → (connection_of (key_in live.table e.side d) (next rules w e).connections
        ≡ Some c)
        × (c.session
        ≡ Some (stepped rules (image_in rules live e.side e.moment d) e.side d
        t)) }
{}

/// A frame that passes goes out from an alias, one of the pool of the realm that it goes to, to a host of that realm. Only an
/// address that means the same host in both realms stays as it is.
pub fn addresses_are_translated<S>()
    ensures { (rules : SessionRules S) (w : World S) (e : Event)
        → IsLawful w.table
        → verdict rules w e ≡ Pass
        → IsTranslated rules w e }
{}

/// While a frame keeps an address, that and what it is called stand for each other, whatever frames come. Both addresses of its
/// header are kept as long as the header says, and what a DNS message over UDP names for 60 seconds. Whatever the host sends goes
/// out from its one alias. A frame to the alias of a unicast host outside its pool isn't refused for want of a binding, and goes to
/// that host if it passes. No frame of another host goes out from it. A DNS message goes out with what the addresses that it names
/// are called.
pub fn aliases_last<S>()
    ensures lawful { (rules : SessionRules S) (settings : Settings)
        (events : List Event)
        → IsSound settings
        → HasForms settings
        → IsLawful (fold (next rules) (opening_world settings) events).table }
    ensures lasts { (rules : SessionRules S) (w : World S) (e x : Event)
        (between : List Event) (address : Addr) (until : ℕ)
        → IsLawful w.table
        → verdict rules w e ≡ Pass
        → IsKeptUntil rules w e address until
        → AllBefore until between
        → x.moment < until
        → KeepsAlias rules w e address
        (fold (next rules) (next rules w e) between) x }
    ensures named { (rules : SessionRules S) (w : World S) (e : Event)
        → IsLawful w.table
        → verdict rules w e ≡ Pass
        → kind_of (datagram_in e) ≡ Whole Dns
        → NamesAreCalled rules w e }
{}

/// While the header of a frame that passes keeps its addresses, a reply to it comes back: from where the frame went to, to who sent
/// it. What it carries may be refused, but neither address is a reason, and none needs an alias. Plain UDP and echo are refused only
/// for what is wrong with the reply by itself, and TCP that no session tracks only for that or for want of room. An ICMP error about
/// the frame has inside the addresses that were sent, and if no session is asked, these are no reason to refuse it.
pub fn replies_come_back<S>()
    ensures replies { (rules : SessionRules S) (w : World S) (e r : Event)
        (between : List Event)
        → IsLawful w.table
        → verdict rules w e ≡ Pass
        → IsReply rules w e r
        → AllBefore (header_until rules w e) between
        → r.moment < header_until rules w e
        → ComesBack rules e (fold (next rules) (next rules w e) between) r }
    ensures errors { (rules : SessionRules S) (w : World S) (e r : Event)
        (between : List Event)
        → IsLawful w.table
        → verdict rules w e ≡ Pass
        → IsAbout rules w e r
        → AllBefore (header_until rules w e) between
        → r.moment < header_until rules w e
        → ComesHome rules e (fold (next rules) (next rules w e) between) r }
    ensures untracked { (rules : SessionRules S) (settings : Settings)
        (events : List Event) (r : Event)
        → kind_of (datagram_in r) ≡ Stream
        → has_tracked_port (datagram_in r) ≡ false
        → IsUntracked (fold (next rules) (opening_world settings) events) r }
{}

/// While a connection lives, both its hosts are reached by their aliases. So a line of FTP that names its own client or
/// server names an address that leads there.
pub fn connections_are_reached<S>()
    ensures { (rules : SessionRules S) (settings : Settings) (events : List Event)
        (now : ℕ)
        → IsSound settings
        → HasForms settings
        → let w = fold (next rules) (opening_world settings) events in
        All (λ c. now < c.until.0 → ReachesHosts (at_moment w now).table c)
        w.connections }
{}

/// Whatever events come, each binding is a static one, or one of the frames that passed has used it until just its end. From then on
/// it is gone. A frame reaches a host only by such a binding, or by an address that means the same host in both realms.
pub fn bindings_come_from_uses<S>()
    ensures begin { (rules : SessionRules S) (settings : Settings) (events : List Event)
        → All (ComesFromUse rules settings events)
        (fold (next rules) (opening_world settings) events).table.entries }
    ensures over { (w : World S) (now : ℕ)
        → All (λ b. (b.fixed ≡ true) ⊎ (now < b.until.0))
        (at_moment w now).table.entries }
    ensures meant { (rules : SessionRules S) (settings : Settings) (events : List Event)
        (x : Event)
        → IsSound settings
        → HasForms settings
        → let w = fold (next rules) (opening_world settings) events in
        verdict rules w x ≡ Pass
        → (is_same (at_moment w x.moment).table (destination_of (datagram_in x))
        ≡ true)
        ⊎ IsMeant rules settings events w x }
{}

/// What becomes of a frame doesn't depend on a frame that was refused before it, if moments don't fall.
pub fn refusals_leave_no_trace<S>()
    ensures { (rules : SessionRules S) (w : World S) (e x : Event) (r : Refusal)
        → verdict rules w e ≡ Refused r
        → e.moment ≤ x.moment
        → (verdict rules (next rules w e) x ≡ verdict rules w x)
        × (out rules (next rules w e) x ≡ out rules w x)
        × (next rules (next rules w e) x ≡ next rules w x) }
{}

/// A header keeps its addresses at least as long as the standards want: UDP 5 minutes (RFC 4787, REQ-5), ICMP 60 seconds (RFC 5508,
/// REQ-2), TCP 4 minutes, and 2 hours and 4 minutes once the connection is established (RFC 5382, REQ-5). A name in a DNS message over
/// UDP keeps its address 60 seconds.
pub fn timeouts_are_long_enough<S>()
    ensures least { (rules : SessionRules S) (live : World S) (side : Side)
        (d : Datagram) (kind : Kind)
        → least_seconds kind * 1000000000 ≤ timeout_by rules live side d kind }
    ensures named { 60 * 1000000000 ≤ NAMED_TIMEOUT }
    ensures established { (rules : SessionRules S) (live : World S) (side : Side)
        (d : Datagram) (c : Connection (Tracked S))
        → found_in live side d ≡ Some c
        → ends_by rules side d c.session ≡ false
        → kept (tcp_of d).flags c ≡ Some c
        → is_established (with_flags side (tcp_of d).flags c) ≡ true
        → timeout_by rules live side d Stream ≡ 7440 * 1000000000 }
{}

/// The whole promise, for every list of events, and for settings that fit one another and have their forms, as accepted ones do.
/// Each frame is forwarded at its own event unless exactly its named refusal holds. In each session the octets sent to a host are
/// a prefix of the peer's stream. Its address lines are renamed by the session's one pair, or its messages by their sender's
/// list, which gives each address one image for the session's life. Acknowledgements cover only octets whose images were
/// acknowledged. Every other frame that is forwarded is its renaming.
pub fn frames_are_as_promised()
    ensures { (settings : Settings) (events : List Event)
        → IsSound settings
        → HasForms settings
        → Promised settings events }
{}

/// As long as moments don't fall, the frames that pass give by themselves what all give: each datagram at its event. Those that are
/// refused leave no trace.
pub fn refused_frames_are_nothing<S>()
    ensures { (rules : SessionRules S) (w : World S) (moment : ℕ) (events : List Event)
        → Rise moment events
        → all_out rules w events ≡ all_out rules w (passing rules w events) }
{}
