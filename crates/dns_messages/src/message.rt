// Messages (RFC 1035, 4.1).
use crate::lists::Resources;
use dns_names::Name;
use gate_base::{Addr, Items};

/// What the data of a record holds.
#[derive(Drop)]
pub enum Content {
    /// The address of type 1 in class 1.
    Address(Addr),
    /// The one name of the types 2, 3, 4, 5, 7, 8, 9 and 12.
    One(Name),
    /// The two names and 20 octets of type 6.
    Soa(Name, Name, Items<u8>),
    /// The two names of type 14.
    Two(Name, Name),
    /// The preference and the name of type 15.
    Mx(u16, Name),
    /// The octets of any other type, and none with each type.
    Octets(Items<u8>),
}

/// A question (RFC 1035, 4.1.2).
#[derive(Drop)]
pub struct Question {
    pub name: Name,
    pub kind: u16,
    pub class: u16,
}

/// A record (RFC 1035, 4.1.3).
#[derive(Drop)]
pub struct Resource {
    /// The name that owns the record.
    pub name: Name,
    pub kind: u16,
    pub class: u16,
    /// How many seconds the record may be kept, its TTL.
    pub lifetime: u32,
    pub content: Content,
}

/// A message with at most one question.
pub struct Message {
    pub id: u16,
    /// The second 16 bits of the header (RFC 1035, 4.1.1).
    pub flags: u16,
    pub question: Option<Question>,
    pub answers: Resources,
    pub authority: Resources,
    pub additional: Resources,
}

// By a call of its own, since a drop that is written out wherever it happens is slow to prove.
impl Drop for Message {
    #[inline(always)]
    fn drop(self) {
        let Self {
            id,
            flags,
            question,
            answers,
            authority,
            additional,
        } = self;
    }
}
