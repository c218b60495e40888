// What the data of a type and class holds (RFC 1035, 3.3 and 3.4).
ghost use Rattle.std.specs.Prelude.{◌≡◌};
ghost use Rattle.dns_messages.specs.Forms.{form_of, form_at};

/// What data holds.
#[derive(Clone, Copy)]
pub enum Form {
    /// An IPv4 address.
    Address,
    /// A name.
    One,
    /// Two names, and five numbers of 32 bits.
    Soa,
    /// Two names.
    Two,
    /// A number of 16 bits and a name.
    Mx,
    /// Octets that are kept.
    Octets,
}

/// What the data of a type and class holds: only addresses ask for class 1.
pub fn form_of(kind: u16, class: u16) -> Form
    ensures { result ≡ form_of kind class }
{
    if kind == 1 && class == 1 {
        return Form::Address;
    }
    match kind {
        2 | 3 | 4 | 5 | 7 | 8 | 9 | 12 => Form::One,
        6 => Form::Soa,
        14 => Form::Two,
        15 => Form::Mx,
        _ => Form::Octets,
    }
}

/// The same for data of a length: none is kept octets.
pub fn form_at(kind: u16, class: u16, count: usize) -> Form
    ensures { result ≡ form_at kind class count }
{
    if count == 0 {
        Form::Octets
    } else {
        form_of(kind, class)
    }
}
