// What the steps on what is known say of lists of fragments, for every list of frames.
ghost use Rattle.std.specs.Prelude.{◌≡◌, ◌∷◌, List};
ghost use Rattle.gate_base.specs.Prelude.{Event};
ghost use Rattle.frag_join.specs.Fragments.{Fragment};
ghost use Rattle.std.specs.Prelude.{Bool, false};
ghost use Rattle.frag_join.specs.Arrivals.{ArrivalsAre, arrivals_of, coming};
ghost use Rattle.frag_join.specs.Cuts.{Original, Arrives, Completes};
ghost use Rattle.frag_join.specs.Joining.{State, empty, by_list, by_known, step, after, state_known};

/// What is known by the fragments of each datagram is enough. With it in place of the lists of fragments each frame is answered
/// in the same way. What is known afterwards is that of the lists afterwards.
pub fn known_state_suffices()
    ensures begins { state_known empty ≡ empty }
    ensures answers { (state : State (List Fragment)) (e : Event)
        → (step by_known (state_known state) e).answer
        ≡ (step by_list state e).answer }
    ensures goes_on { (state : State (List Fragment)) (e : Event)
        → (step by_known (state_known state) e).state
        ≡ state_known (step by_list state e).state }
    ensures after_all { (state : State (List Fragment)) (events : List Event)
        → after by_known (state_known state) events
        ≡ state_known (after by_list state events) }
{}

/// A datagram without options that was cut into fragments is joined. They may come in any order and with repeats, and with any
/// frames between them that carry no other fragment of its name. The frame with which all of its payload is covered completes it.
/// So it is over the lists of fragments, and where only what they tell is kept.
pub fn cuts_are_joined()
    ensures over_lists { (d : Original) (state : State (List Fragment))
        (first last : Event) (more : List Event)
        → Arrives d state first more last
        → Completes d last (step by_list (after by_list state (first ∷ more)) last) }
    ensures by_what_is_known { (d : Original) (state : State (List Fragment))
        (first last : Event) (more : List Event)
        → Arrives d state first more last
        → Completes d last
        (step by_known (after by_known (state_known state) (first ∷ more)) last) }
{}

/// What becomes of frames before the gate: each in its order, by what is held of datagrams after those before it. Where
/// fragments are refused, each comes to the gate as it is.
pub fn frames_arrive()
    ensures arrive { (join : Bool) (events : List Event) → ArrivalsAre join events }
    ensures refused { (events : List Event)
        → coming (arrivals_of false events) ≡ events }
{}
