// The places that what is kept of a sender answers.
ghost use Rattle.std.specs.Prelude.{◌≡◌, ◌<◌, ◌+◌, ◌^◌, length};
ghost use Rattle.dialogue.specs.Prelude.{Meaning, IsLawful, back};
ghost use Rattle.stream_model.specs.Prelude.{Sender};
ghost use Rattle.compact_stream.specs.Kept.{CompactSender, KeepsSender, InRange};

use shift_ledger::Ledger;

/// How many octets of a sender, from the first on, have all their image places below the greatest acknowledged place. It is one
/// more than all of them where their end is acknowledged too. So many octets are held.
pub fn back_acknowledged(ledger: &Ledger, held: u32, acknowledged: u64) -> u64
    requires { ledger.now.octets_in + held < 2 ^ 32 }
    ensures { (m : Meaning) (h : CompactSender) (a : Sender)
        → IsLawful m
        → InRange m h
        → KeepsSender m h a
        → h.ledger ≡ ledger.now
        → length h.rest ≡ held
        → h.acked ≡ acknowledged
        → result ≡ back m a.ended a.octets a.acked }
{
    if acknowledged <= ledger.octets_out() {
        return ledger.back(acknowledged);
    }
    ledger.octets_in() + u64::from(held) + 1
}
