// What holds of lawful lists and files. The functions do nothing: their clauses are proved.
ghost use Rattle.std.specs.Prelude.{◌≡◌, ◌≤◌, ◌<◌, ℕ, Bool, true, List, [], ◌∷◌, ◌++◌, length, Some, None, All};
ghost use Rattle.frag_join.specs.Prelude.{Arrival};
ghost use Rattle.gate_base.specs.Prelude.{Event};
ghost use Rattle.gate_base.specs.declared.side.Side.{Side};
ghost use Rattle.gate_model.specs.Prelude.{Reads, world_as, SessionRules, whole_rules, WholeSession, out, World};
ghost use Rattle.gate_settings.specs.Prelude.{HasMacAddresses, HaveMacAddresses, side_settings};
ghost use Rattle.gate_settings.specs.declared.settings.Settings.{Settings};
ghost use Rattle.pcap_files.specs.Prelude.{Packet};
ghost use Rattle.pcap_merge.specs.Prelude.{Ending};
ghost use Rattle.lawful_files.specs.declared.reason.AuditReason.{AuditReason};
ghost use Rattle.lawful_files.specs.Files.{Given, State, after, IsLawfulAt, LawfulFrom, Lawful};
ghost use Rattle.lawful_files.specs.Wanted.{IsLawfulList, SendAlike, Sends, Wanted, wanted, wanted_in};
ghost use Rattle.lawful_files.specs.Judging.{AllOctets, reason_of};
ghost use Rattle.lawful_files.specs.Progress.{IsSound, AreFront, AreLawful, behind_all, is_closed};
ghost use Rattle.lawful_files.specs.Reasons.{IsFirst, FirstReason};
ghost use Rattle.lawful_files.specs.Walks.{CameTo};

/// Records that are taken one by one are right exactly as long as they are the front of a lawful list's. All that is wanted came
/// exactly where they are a whole one.
pub fn records_are_judged()
    ensures front { (settings : Settings) (side : Side) (moment : ℕ) (wanted : Wanted)
        (packets : List Packet)
        → HasMacAddresses (side_settings settings side)
        → IsSound wanted
        → (behind_all settings side moment wanted packets).right ≡ true
        → AreFront settings side moment wanted packets }
    ensures right { (settings : Settings) (side : Side) (moment : ℕ) (wanted : Wanted)
        (packets : List Packet)
        → HasMacAddresses (side_settings settings side)
        → IsSound wanted
        → AreFront settings side moment wanted packets
        → (behind_all settings side moment wanted packets).right ≡ true }
    ensures whole { (settings : Settings) (side : Side) (moment : ℕ) (wanted : Wanted)
        (packets : List Packet)
        → HasMacAddresses (side_settings settings side)
        → IsSound wanted
        → is_closed wanted (behind_all settings side moment wanted packets) ≡ true
        → AreLawful settings side moment wanted packets }
    ensures closed { (settings : Settings) (side : Side) (moment : ℕ)
        (wanted : Wanted) (packets : List Packet)
        → HasMacAddresses (side_settings settings side)
        → IsSound wanted
        → AreLawful settings side moment wanted packets
        → is_closed wanted (behind_all settings side moment wanted packets) ≡ true }
{}

/// What the gateway sends for an event whose frame is octets is a lawful list.
pub fn own_list_is_lawful()
    ensures { (w : World WholeSession) (e : Event)
        → All (λ octet. octet < 256) e.octets
        → IsLawfulList (wanted w e) (out whole_rules w e) }
{}

/// What is wanted of an event whose frame is octets has headers, and its pieces may have octets.
pub fn wanted_is_sound()
    ensures { (w : World WholeSession) (e : Event)
        → All (λ octet. octet < 256) e.octets
        → IsSound (wanted w e) }
{}

/// What is wanted of an event is the same, however sessions are represented, where they are read as those over whole lists and
/// send alike.
pub fn wanted_reads_alike<S>()
    ensures { (h : S → WholeSession) (rules : SessionRules S) (sends : Sends S)
        → Reads h rules whole_rules
        → SendAlike h rules sends
        → (w : World S) (e : Event)
        → wanted (world_as h w) e ≡ wanted_in rules sends w e }
{}

/// The function over whole files finds no reason exactly where they are lawful, and a reason exactly where it is the first.
pub fn reasons_are_found()
    ensures lawful { (settings : Settings) (arrivals : List Arrival) (ending : Ending)
        (left right report : List ℕ)
        → HaveMacAddresses settings
        → AllOctets arrivals
        → reason_of settings arrivals ending left right report ≡ None
        → Lawful settings arrivals ending left right report }
    ensures none { (settings : Settings) (arrivals : List Arrival) (ending : Ending)
        (left right report : List ℕ)
        → HaveMacAddresses settings
        → AllOctets arrivals
        → Lawful settings arrivals ending left right report
        → reason_of settings arrivals ending left right report ≡ None }
    ensures first { (settings : Settings) (arrivals : List Arrival) (ending : Ending)
        (left right report : List ℕ) (number : ℕ) (reason : AuditReason)
        → HaveMacAddresses settings
        → AllOctets arrivals
        → reason_of settings arrivals ending left right report ≡ Some (number, reason)
        → FirstReason settings arrivals ending left right report number reason }
    ensures some { (settings : Settings) (arrivals : List Arrival) (ending : Ending)
        (left right report : List ℕ) (number : ℕ) (reason : AuditReason)
        → HaveMacAddresses settings
        → AllOctets arrivals
        → FirstReason settings arrivals ending left right report number reason
        → reason_of settings arrivals ending left right report
        ≡ Some (number, reason) }
{}

/// An audit goes on event by event: what is lawful behind lawful events is so with them, and the first reason behind them is the
/// first of all.
pub fn audit_goes_on()
    ensures more { (settings : Settings) (arrivals : List Arrival) (a : Arrival)
        (s now : State) (g left next : Given)
        → CameTo settings s g arrivals now left
        → (at : IsLawfulAt settings now a left next)
        → CameTo settings s g (arrivals ++ a ∷ []) (after now a (length at.list))
        next }
    ensures lawful { (settings : Settings) (arrivals others : List Arrival)
        (ending : Ending) (s now : State) (g left : Given)
        → CameTo settings s g arrivals now left
        → LawfulFrom settings now others ending left
        → LawfulFrom settings s (arrivals ++ others) ending g }
    ensures first { (settings : Settings) (arrivals others : List Arrival)
        (ending : Ending) (s now : State) (g left : Given) (number : ℕ)
        (reason : AuditReason)
        → CameTo settings s g arrivals now left
        → IsFirst settings now others ending left number reason
        → IsFirst settings s (arrivals ++ others) ending g number reason }
{}

/// Against lawful files there is no reason, and against others one first reason at most.
pub fn one_reason_at_most()
    ensures none { (settings : Settings) (arrivals : List Arrival) (ending : Ending)
        (left right report : List ℕ) (number : ℕ) (reason : AuditReason)
        → Lawful settings arrivals ending left right report
        → FirstReason settings arrivals ending left right report number reason
        → ⊥ }
    ensures one { (settings : Settings) (arrivals : List Arrival) (ending : Ending)
        (left right report : List ℕ) (n m : ℕ) (r q : AuditReason)
        → FirstReason settings arrivals ending left right report n r
        → FirstReason settings arrivals ending left right report m q
        → (n ≡ m) × (r ≡ q) }
{}
