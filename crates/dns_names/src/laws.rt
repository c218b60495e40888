// Laws of names.
ghost use Rattle.std.specs.Prelude.{◌≡◌, ℕ, List};
ghost use Rattle.dns_names.specs.Names.{NameAt};
ghost use Rattle.dns_names.specs.Texts.{NamesReadBack, FoundIsLowest};

/// A place has at most one name.
pub fn one_name()
    ensures { (message : List ℕ) (place : ℕ) (ls ks : List (List ℕ)) (after past : ℕ)
        → NameAt message place ls after
        → NameAt message place ks past
        → (ls ≡ ks) × (after ≡ past) }
{}

/// A name that was spelled reads back, whatever was written before it and whatever follows it.
pub fn names_read_back()
    ensures { NamesReadBack }
{}

/// A pointer leads to the lowest label start at which its suffix stands.
pub fn found_is_lowest()
    ensures { FoundIsLowest }
{}
