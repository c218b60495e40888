// The law on memory. The function does nothing: its clauses are proved.
ghost use Rattle.std.specs.Prelude.{List};
ghost use Rattle.std.specs.List.{fold};
ghost use Rattle.gate_base.specs.Prelude.{Event};
ghost use Rattle.gate_settings.specs.declared.settings.Settings.{Settings};
ghost use Rattle.gate_model.specs.Prelude.{whole_rules, next, opening_world, at_moment};
ghost use Rattle.gate_sessions.specs.Compact.{compact_rules};
ghost use Rattle.gate_core.specs.Memory.{GateMayWant};
ghost use Rattle.gate_core.specs.WholeMemory.{WholeMayWant};

/// Whatever events came, the gate may want memory for one by what is kept of sessions exactly where it may by sessions over whole
/// lists.
pub fn kept_memory_is_whole()
    ensures whole { (settings : Settings) (events : List Event) (e : Event)
        → GateMayWant
        (at_moment (fold (next compact_rules) (opening_world settings) events) e.moment)
        e
        → WholeMayWant (fold (next whole_rules) (opening_world settings) events) e }
    ensures kept { (settings : Settings) (events : List Event) (e : Event)
        → WholeMayWant (fold (next whole_rules) (opening_world settings) events) e
        → GateMayWant
        (at_moment (fold (next compact_rules) (opening_world settings) events) e.moment)
        e }
{}
