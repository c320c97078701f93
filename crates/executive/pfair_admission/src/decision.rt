//! What is decided on an announcement, and why it is refused.
ghost use Rattle.std.specs.Prelude.{◌≡◌};
ghost use Rattle.pfair_admission.specs.Admission.{refusal_number};

use thiserror::Error;

/// What is decided on an announcement.
#[derive(Clone, Copy, Debug, PartialEq, Eq)]
pub enum Decision {
    /// The task is a member from this slot on.
    Admitted,
    /// The member gets no quantum any more.
    Departing {
        /// The slot from which its weight and its name are free.
        freed_at: u64,
    },
    /// The subtask and all after it come later.
    Delayed,
    /// Nothing changes.
    Refused(Refusal),
}

/// Why an announcement is refused. A refused announcement changes nothing.
#[derive(Clone, Copy, Debug, PartialEq, Eq, Error)]
pub enum Refusal {
    /// An arrival: a member, departing or not, has the name.
    #[error("name taken")]
    NameTaken,
    /// An arrival: the weight's period doesn't divide the frame.
    #[error("period outside frame")]
    PeriodOutsideFrame,
    /// An arrival: the weights of all members and the new one add to more than the processors.
    #[error("no room")]
    NoRoom,
    /// A departure or a late release: no member has the name.
    #[error("no such task")]
    NoSuchTask,
    /// A departure or a late release: the member is departing.
    #[error("already departing")]
    AlreadyDeparting,
    /// A late release: the subtask is released before this slot, or has run.
    #[error("already released")]
    AlreadyReleased,
}

impl Refusal {
    /// Returns the number under which the refusal is reported: 20 to 25, in the order of the
    /// variants.
    pub fn number(&self) -> u8
        ensures { result ≡ refusal_number self.now }
    {
        match self {
            Refusal::NameTaken => 20,
            Refusal::PeriodOutsideFrame => 21,
            Refusal::NoRoom => 22,
            Refusal::NoSuchTask => 23,
            Refusal::AlreadyDeparting => 24,
            Refusal::AlreadyReleased => 25,
        }
    }
}
