// What is true of all settings.
ghost use Rattle.std.specs.Prelude.{◌≡◌, ℕ, List, Ok};
ghost use Rattle.settings_file.specs.Accepting.{settings_of};
ghost use Rattle.gate_settings.specs.Prelude.{HasForms, HaveMacAddresses, IsSound};
ghost use Rattle.gate_settings.specs.declared.settings.Settings.{Settings};

/// Settings that octets give fit one another, their blocks, addresses and rules have their forms, and their MAC addresses six octets each.
pub fn accepted_settings()
    ensures sound { (octets : List ℕ) (settings : Settings)
        → settings_of octets ≡ Ok settings
        → IsSound settings }
    ensures forms { (octets : List ℕ) (settings : Settings)
        → settings_of octets ≡ Ok settings
        → HasForms settings }
    ensures macs { (octets : List ℕ) (settings : Settings)
        → settings_of octets ≡ Ok settings
        → HaveMacAddresses settings }
{}
