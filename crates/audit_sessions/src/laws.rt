// The laws of sessions by what was heard. The function does nothing: its clauses are proved.
ghost use Rattle.std.specs.Prelude.{◌≤◌, ℕ, Option, length};
ghost use Rattle.gate_base.specs.declared.address.Addr.{Addr};
ghost use Rattle.gate_base.specs.declared.event.Pair.{Pair};
ghost use Rattle.gate_base.specs.declared.host.Host.{Host};
ghost use Rattle.stream_model.specs.Prelude.{Segment};
ghost use Rattle.gate_model.specs.Prelude.{HasLists, addresses_in, entered, Reads, whole_rules};
ghost use Rattle.dialogue.specs.declared.TheConstants.{MOST_ENTRIES};
ghost use Rattle.lawful_files.specs.Wanted.{SendAlike};
ghost use Rattle.audit_sessions.specs.Heard.{HeardSession, session_in, heard_rules, heard_sent, IsSession};

/// What was heard of both hosts answers, sends and goes on as the session over whole lists does. All addresses that were heard of
/// are listed in each session that is made, and stay so while segments pass.
pub fn audited_sessions_are_whole()
    ensures reads { Reads session_in heard_rules whole_rules }
    ensures sent { SendAlike session_in heard_rules heard_sent }
    ensures lists { HasLists heard_rules }
    ensures made { (port : ℕ) (pair : Pair) (initial mss : ℕ)
        → IsSession (heard_rules.made port pair initial mss) }
    ensures next { (image : Addr → Option Addr) (from : Host) (h : HeardSession)
        (g : Segment)
        → IsSession h
        → length (entered image (heard_rules.listed from h)
        (addresses_in (heard_rules.units from h g))) ≤ MOST_ENTRIES
        → IsSession (heard_rules.next image from h g) }
{}
