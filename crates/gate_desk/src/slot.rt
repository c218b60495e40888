ghost use Rattle.std.specs.Prelude.{◌≡◌};
ghost use Rattle.std.specs.Borrow.{sem};
ghost use Rattle.gate_desk.specs.Slots.{at, lends_slot};

/// One of the ten files that the program reads and writes.
#[derive(Clone, Copy, Debug, PartialEq, Eq)]
pub enum Slot {
    /// The settings, read once.
    Settings,
    /// The capture of frames that come from the left realm.
    LeftIn,
    /// The capture of frames that come from the right realm.
    RightIn,
    /// A capture that some gateway made of frames that go to the left realm.
    LeftGiven,
    /// A capture that it made of frames that go to the right realm.
    RightGiven,
    /// The report that it made.
    ReportGiven,
    /// The capture of frames that go to the left realm.
    LeftOut,
    /// The capture of frames that go to the right realm.
    RightOut,
    /// The report, a line for each frame.
    Report,
    /// Where the one line about what went wrong goes. It needs no start.
    Errors,
}

impl Slot {
    ghost use Rattle.gate_desk.specs.Slots.{name_of};

    /// The slot's name in the line about what went wrong.
    #[tactic(auto, unfolding(crate::specs::Slots::name_of))]
    pub fn name(self) -> &'static str
        ensures { result.now ≡ name_of self }
    {
        match self {
            Slot::Settings => "settings",
            Slot::LeftIn => "left_in",
            Slot::RightIn => "right_in",
            Slot::LeftGiven => "left_given",
            Slot::RightGiven => "right_given",
            Slot::ReportGiven => "report_given",
            Slot::LeftOut => "left_out",
            Slot::RightOut => "right_out",
            Slot::Report => "report",
            Slot::Errors => "errors",
        }
    }
}

/// What a slot is started for.
#[derive(Clone, Copy, Debug, PartialEq, Eq)]
pub enum Access {
    Read,
    Write,
}

/// One value for each slot.
pub struct PerSlot<T> {
    pub settings: T,
    pub left_in: T,
    pub right_in: T,
    pub left_given: T,
    pub right_given: T,
    pub report_given: T,
    pub left_out: T,
    pub right_out: T,
    pub report: T,
    pub errors: T,
}

// By a call of its own, since a drop that is written out wherever it happens is slow to prove.
impl<T: Drop> Drop for PerSlot<T> {
    fn drop(self) {
        let Self {
            settings,
            left_in,
            right_in,
            left_given,
            right_given,
            report_given,
            left_out,
            right_out,
            report,
            errors,
        } = self;
    }
}

impl<T> PerSlot<T> {
    /// The value of a slot.
    #[inline(always)]
    pub fn at(&self, slot: Slot) -> &T
        ensures { result.now ≡ at self.now slot }
    {
        match slot {
            Slot::Settings => &self.settings,
            Slot::LeftIn => &self.left_in,
            Slot::RightIn => &self.right_in,
            Slot::LeftGiven => &self.left_given,
            Slot::RightGiven => &self.right_given,
            Slot::ReportGiven => &self.report_given,
            Slot::LeftOut => &self.left_out,
            Slot::RightOut => &self.right_out,
            Slot::Report => &self.report,
            Slot::Errors => &self.errors,
        }
    }

    /// The value of a slot, to be changed.
    #[inline(always)]
    pub fn at_mut(&mut self, slot: Slot) -> &mut T
        ensures* writes_back { sem 𝓛 (lends_slot T.row self.entry slot result) }
        ensures value { result.now ≡ at self.old slot }
    {
        match slot {
            Slot::Settings => &mut self.settings,
            Slot::LeftIn => &mut self.left_in,
            Slot::RightIn => &mut self.right_in,
            Slot::LeftGiven => &mut self.left_given,
            Slot::RightGiven => &mut self.right_given,
            Slot::ReportGiven => &mut self.report_given,
            Slot::LeftOut => &mut self.left_out,
            Slot::RightOut => &mut self.right_out,
            Slot::Report => &mut self.report,
            Slot::Errors => &mut self.errors,
        }
    }
}

impl PerSlot<u64> {
    ghost use Rattle.gate_desk.specs.Slots.{each, put};
    ghost use Rattle.gate_desk.specs.Counts.{raised};

    /// No failure of any slot.
    pub fn no_counts() -> PerSlot<u64>
        ensures { result ≡ each 0 }
    {
        PerSlot {
            settings: 0,
            left_in: 0,
            right_in: 0,
            left_given: 0,
            right_given: 0,
            report_given: 0,
            left_out: 0,
            right_out: 0,
            report: 0,
            errors: 0,
        }
    }

    /// One failure more of a slot. A count that can't go on stands still.
    pub fn raise(&mut self, slot: Slot)
        ensures { self.new ≡ put self.old slot (raised (at self.old slot)) }
    {
        let count = self.at_mut(slot);
        *count = count.saturating_add(1);
    }
}
