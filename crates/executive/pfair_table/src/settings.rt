//! What a run is set to.
ghost use Rattle.std.specs.Prelude.{◌≡◌};
ghost use Rattle.std.specs.Option.{SomeIff};
ghost use Rattle.pfair_table.specs.Places.{IsSettings};

use pfair_admission::Members;
use pfair_entry::Entry;
use std::marker::Model;

/// The processors of a run, the frame that weights are counted against, and the slots that are
/// planned at most.
#[derive(Clone, Copy, Debug, PartialEq, Eq)]
pub struct Settings {
    pub(crate) processors: u8,
    pub(crate) frame: u64,
    pub(crate) slots: u64,
}

impl Model for Settings {
    ghost use Rattle.pfair_table.specs.Table.{Settings as Setting};
    ghost use Rattle.pfair_table.specs.Places.{IsSettings};

    ghost Value = { Setting };

    ghost view = { λ a. record { processors = a.processors; frame = a.frame; slots = a.slots } };

    ghost inverse = { λ d. record { processors = d.processors; frame = d.frame; slots = d.slots } };

    ghost invariant = { λ a. IsSettings (record { processors = a.processors; frame = a.frame; slots = a.slots }) };
}

impl Settings {
    /// The most processors.
    pub const MAX_PROCESSORS: u8 = Members::MAX_PROCESSORS;

    /// The longest frame, in slots.
    pub const MAX_FRAME: u64 = Members::MAX_FRAME;

    /// The most slots of a run: a floor can name the slot after its last one.
    pub const MAX_SLOTS: u64 = Entry::LAST_SLOT;

    /// Creates settings of 1 to [`Settings::MAX_PROCESSORS`] processors, a frame of 1 to
    /// [`Settings::MAX_FRAME`] slots, and 1 to [`Settings::MAX_SLOTS`] slots. `None` if one of them is
    /// out of its range, and only then.
    pub fn new(processors: u8, frame: u64, slots: u64) -> Option<Settings>
        ensures { SomeIff result (IsSettings record { processors = processors; frame = frame; slots = slots })
            record { processors = processors; frame = frame; slots = slots } }
    {
        let is_in_range = (1..=Settings::MAX_PROCESSORS).contains(&processors)
            && (1..=Settings::MAX_FRAME).contains(&frame)
            && (1..=Settings::MAX_SLOTS).contains(&slots);
        if is_in_range {
            Some(Settings {
                processors,
                frame,
                slots,
            })
        } else {
            None
        }
    }

    /// Returns the number of processors.
    pub fn processors(&self) -> u8
        ensures value { result ≡ self.now.processors }
        ensures limits { IsSettings self.now }
    {
        self.processors
    }

    /// Returns the slots of a frame, which each weight's period has to divide.
    pub fn frame(&self) -> u64
        ensures value { result ≡ self.now.frame }
        ensures limits { IsSettings self.now }
    {
        self.frame
    }

    /// Returns the number of slots that are planned at most.
    pub fn slots(&self) -> u64
        ensures value { result ≡ self.now.slots }
        ensures limits { IsSettings self.now }
    {
        self.slots
    }
}
