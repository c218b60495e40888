// What holds of the events of two captures beyond single calls. The function does nothing: its clauses are proved.
ghost use Rattle.std.specs.Prelude.{◌≡◌, ℕ, List};
ghost use Rattle.std.specs.List.Sorted.{IsNonDecreasingBy};
ghost use Rattle.pcap_files.specs.declared.form.Form.{Form};
ghost use Rattle.pcap_files.specs.Prelude.{Head, Good, head_of, capture_of};
ghost use Rattle.pcap_merge.specs.Events.{events_of};
ghost use Rattle.pcap_merge.specs.Picks.{IsMerge, by_side};

/// The events of each side are its first records in their order, none comes after one of the other side that has to come before it, and the moments never fall.
pub fn merges_by_stamps()
    ensures merges { (left right : List ℕ) (l r : Form)
        → head_of left ≡ Good l
        → head_of right ≡ Good r
        → IsMerge 0 (by_side l.link r.link)
        (by_side (capture_of left) (capture_of right)) (events_of left right) }
    ensures moments { (left right : List ℕ)
        → IsNonDecreasingBy (λ e. e.moment) (events_of left right).events }
{}
