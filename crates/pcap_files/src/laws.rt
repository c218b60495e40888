// What holds of captures beyond single calls. The functions do nothing: their clauses are proved.
ghost use Rattle.std.specs.Prelude.{◌≡◌, ◌<◌, ℕ, List, All};
ghost use Rattle.pcap_files.specs.declared.form.Form.{Form};
ghost use Rattle.pcap_files.specs.Capture.{Packet, Ending, Head, Good, head_of, capture_of};
ghost use Rattle.pcap_files.specs.Spelled.{IsCapture};

/// What is read of a capture is what its writer spelled: the head, the spellings of the records in order, and a rest that is empty or faulty.
pub fn reads_what_is_spelled()
    ensures reads { (all : List ℕ) (form : Form) (packets : List Packet)
        (ending : Ending)
        → IsCapture all form packets ending
        → (head_of all ≡ Good form)
        × (capture_of all ≡ record { packets = packets; ending = ending }) }
    ensures spells { (all : List ℕ) (form : Form)
        → All (λ octet. octet < 256) all
        → head_of all ≡ Good form
        → IsCapture all form (capture_of all).packets (capture_of all).ending }
{}
