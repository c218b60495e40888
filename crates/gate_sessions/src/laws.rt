// The laws of worlds by what is kept. The functions do nothing: their clauses are proved.
ghost use Rattle.std.specs.Prelude.{◌≡◌, List, IfSome};
ghost use Rattle.std.specs.List.{fold};
ghost use Rattle.gate_base.specs.Prelude.{Event};
ghost use Rattle.gate_base.specs.declared.host.Host.{Host};
ghost use Rattle.gate_settings.specs.declared.settings.Settings.{Settings};
ghost use Rattle.gate_model.specs.Prelude.{WholeSession, HasLists, Agree, AreRelated, whole_rules, next, out, verdict, World, opening_world, list_of, EachTracked};
ghost use Rattle.gate_sessions.specs.Compact.{CompactSession, compact_rules, StandsFor, IsOfSome, IsListedStream};
ghost use Rattle.compact_stream.specs.Prelude.{sender_kept};

/// Whatever events come, what is kept of sessions decides the verdict on each event and what goes out, as the sessions over
/// whole lists do.
pub fn compact_worlds_answer()
    ensures agree { Agree StandsFor whole_rules compact_rules }
    ensures verdict { (settings : Settings) (events : List Event) (e : Event)
        → verdict compact_rules
        (fold (next compact_rules) (opening_world settings) events) e
        ≡ verdict whole_rules
        (fold (next whole_rules) (opening_world settings) events) e }
    ensures out { (settings : Settings) (events : List Event) (e : Event)
        → out compact_rules
        (fold (next compact_rules) (opening_world settings) events) e
        ≡ out whole_rules
        (fold (next whole_rules) (opening_world settings) events) e }
    ensures pending { (settings : Settings) (events : List Event)
        → (fold (next compact_rules) (opening_world settings) events).pending
        ≡ (fold (next whole_rules) (opening_world settings) events).pending }
    ensures related { (settings : Settings) (events : List Event)
        → AreRelated StandsFor
        (fold (next whole_rules) (opening_world settings) events)
        (fold (next compact_rules) (opening_world settings) events) }
    ensures lists { HasLists compact_rules }
    ensures some { (settings : Settings) (events : List Event)
        → EachTracked (λ t. IsOfSome t.session)
        (fold (next compact_rules) (opening_world settings) events).connections }
    ensures step_some { (w : World CompactSession) (e : Event)
        → EachTracked (λ t. IsOfSome t.session) w.connections
        → EachTracked (λ t. IsOfSome t.session) (next compact_rules w e).connections }
    ensures listed { (k : CompactSession) (host : Host)
        → IsOfSome k
        → IfSome k.lists
        (λ l. IsListedStream (list_of host l) (sender_kept host k.kept)) }
    ensures step_verdict { (w : World WholeSession) (v : World CompactSession)
        (e : Event)
        → AreRelated StandsFor w v
        → verdict compact_rules v e ≡ verdict whole_rules w e }
    ensures step_out { (w : World WholeSession) (v : World CompactSession) (e : Event)
        → AreRelated StandsFor w v
        → out compact_rules v e ≡ out whole_rules w e }
    ensures step_next { (w : World WholeSession) (v : World CompactSession)
        (e : Event)
        → AreRelated StandsFor w v
        → AreRelated StandsFor (next whole_rules w e) (next compact_rules v e) }
{}
