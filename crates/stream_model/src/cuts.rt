// What holds of what is sent. The functions do nothing: their clauses are proved.
ghost use Rattle.std.specs.Prelude.{◌≤◌};
ghost use Rattle.gate_base.specs.declared.host.Host.{Host};
ghost use Rattle.stream_model.specs.Session.{Session, Segment, other};
ghost use Rattle.stream_model.specs.Sending.{limit_of};
ghost use Rattle.stream_model.specs.Steps.{session_sent, session_out};
ghost use Rattle.stream_model.specs.Cuts.{IsLawfulWay};

/// What goes out of a session is cut in pieces of the limit. Where a piece may have an octet at all, that is a lawful way to cut
/// it.
pub fn own_cut_is_lawful()
    ensures { (from : Host) (s : Session) (g : Segment)
        → 1 ≤ limit_of (other from s).mss g
        → IsLawfulWay (session_sent from s g) (session_out from s g) }
{}
