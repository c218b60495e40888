//! Worked cases of gate_model's definitions, computed: whole frames, the verdict on each and the datagrams that go out. They stand in proofs/, and nothing stands on them.
#![tactic(auto)]
