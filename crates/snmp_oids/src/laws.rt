// Laws of the renaming.
ghost use Rattle.std.specs.Prelude.{◌≡◌, ℕ, List, [], length, Option, IsSome};
ghost use Rattle.snmp_gateway.specs.Message.{kind_of, places_of};
ghost use Rattle.snmp_gateway.specs.Renaming.{renamed};
ghost use Rattle.snmp_oids.specs.Elements.{oid_renamed};

/// With no rule a message becomes what `rename_in_place` of a basic gateway makes of it.
pub fn no_rule_is_basic()
    ensures { (image : ℕ → Option ℕ) (octets : List ℕ)
        → IsSome (kind_of octets)
        → oid_renamed image [] octets ≡ renamed image (places_of octets) octets }
{}

/// With no rule a message keeps its length.
pub fn no_rule_keeps_length()
    ensures { (image : ℕ → Option ℕ) (octets : List ℕ)
        → length (oid_renamed image [] octets) ≡ length octets }
{}
