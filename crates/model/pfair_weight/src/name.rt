//! Task names.
ghost use Rattle.std.specs.Prelude.{◌≡◌, ℕ, List, [], ◌∷◌, IfOk, IfErr, length, nat_eq};
ghost use Rattle.std.proofs.Common.{rules};
ghost use Rattle.std.specs.Cmp.{partial_order_from_own_ties};
ghost use Rattle.std.specs.Cmp.Rules.{comparing};
ghost use Rattle.std.specs.Cmp.Lexicographic.{slice_cmp, pointwise, bytes_decides};
ghost use Rattle.std.specs.Hash.{same_Alike};
ghost use Rattle.std.specs.Ordering.{nat_cmp, as_partial_cmp};
ghost use Rattle.pfair_weight.specs.Name.{may_stand, IsTaskName, name_of, IsNumber, IsFaultOf, name_fault_number, with_zeros, IsPadded, unpadded, padded, padded-unpadded};

use std::cmp::Ordering;
use std::hash::{Hash, Hasher};
use std::marker::Model;
use thiserror::Error;

/// Why bytes spell no task name.
#[derive(Clone, Copy, PartialEq, Eq, Debug, Error)]
pub enum NameFault {
    /// There is no byte.
    #[error("empty name")]
    Empty,
    /// There are more than [`TaskName::MAX_LEN`] bytes.
    #[error("name too long")]
    TooLong,
    /// A byte may not stand where it does.
    #[error("bad byte at {at}")]
    BadByte {
        /// The first such place, counted from 0.
        at: usize,
    },
}

impl NameFault {
    /// Returns the number under which the fault is reported: 1, 2 and 3, in the order of the
    /// variants.
    pub fn number(&self) -> u8
        ensures { result ≡ name_fault_number self.now }
    {
        match self {
            NameFault::Empty => 1,
            NameFault::TooLong => 2,
            NameFault::BadByte { .. } => 3,
        }
    }
}

/// A task's name: 1 to [`TaskName::MAX_LEN`] bytes, a letter a-z and then letters a-z, digits and
/// underscores.
///
/// Names are equal exactly if their bytes are, and ordered by bytes, a proper prefix first.
#[derive(Clone, Copy, Debug)]
pub struct TaskName {
    // Zeros after the name, which has none.
    bytes: [u8; 16],
}

impl Model for TaskName {
    ghost Value = { List ℕ };

    ghost view = { unpadded };

    ghost invariant = { IsPadded };

    ghost inverse = { padded };

    ghost inverse_ok = { padded-unpadded };
}

impl TaskName {
    /// The most bytes of a name.
    pub const MAX_LEN: usize = 16;

    /// Returns the name that these bytes spell.
    ///
    /// # Errors
    /// The first that applies: [`NameFault::Empty`], [`NameFault::TooLong`],
    /// [`NameFault::BadByte`] with the first byte that may not stand where it does.
    pub fn from_bytes(bytes: &[u8]) -> Result<Self, NameFault>
        ensures ok { IfOk result (λ name. (name ≡ bytes.now) × IsTaskName bytes.now) }
        ensures err { IfErr result (IsFaultOf bytes.now) }
    {
        if bytes.is_empty() {
            return Err(NameFault::Empty);
        }
        if bytes.len() > TaskName::MAX_LEN {
            return Err(NameFault::TooLong);
        }
        for (place, byte) in bytes.iter().enumerate() {
            if !may_stand_at(place, *byte) {
                return Err(NameFault::BadByte { at: place });
            }
        }
        let mut padded = [0; 16];
        padded[..bytes.len()].copy_from_slice(bytes);
        Ok(TaskName { bytes: padded })
    }

    /// Returns the bytes that spell the name. O(1).
    pub fn as_bytes(&self) -> &[u8]
        ensures value { result.now ≡ self.now }
        ensures named { IsTaskName self.now }
    {
        &self.bytes[..self.length()]
    }

    /// Returns the number that orders names: the lesser name has the lesser number. O(1).
    pub fn number(&self) -> u128
        ensures number { IsNumber result }
        ensures name { name_of result ≡ self.now }
        ensures order { (n : ℕ) → IsNumber n → nat_cmp result n ≡ slice_cmp nat_cmp self.now (name_of n) }
    {
        u128::from_be_bytes(self.bytes)
    }

    /// Returns the name of a number that [`TaskName::number`] gives. O(1).
    pub fn of_number(number: u128) -> TaskName
        requires { IsNumber number }
        ensures { result ≡ name_of number }
    {
        TaskName {
            bytes: number.to_be_bytes(),
        }
    }

    // How many bytes the name has. The zeros after it are the leading ones of the number whose lowest
    // byte is the name's first.
    fn length(&self) -> usize
        ensures { result ≡ length self.now }
    {
        let unused_bits = u128::from_le_bytes(self.bytes).leading_zeros();
        TaskName::MAX_LEN - unused_bits as usize / 8
    }
}

impl PartialEq for TaskName {
    ghost eq = { pointwise nat_eq };

    ghost laws = { Prim.search (comparing, rules) };

    fn eq(&self, other: &TaskName) -> bool {
        self.bytes == other.bytes
    }
}

impl Eq for TaskName {
    ghost laws = { Prim.search (comparing, rules) };
}

impl Ord for TaskName {
    ghost cmp = { slice_cmp nat_cmp };

    ghost total = { Prim.search (comparing, rules) };

    ghost matches_partial_cmp = { Prim.search (comparing, rules) };

    ghost matches_eq = { Prim.search (comparing, rules) };

    fn cmp(&self, other: &TaskName) -> Ordering {
        self.number().cmp(&other.number())
    }
}

impl PartialOrd for TaskName {
    ghost partial_cmp = { as_partial_cmp (slice_cmp nat_cmp) };

    ghost laws = { partial_order_from_own_ties (Prim.search (comparing, rules)) (Prim.search (comparing, rules)) };

    fn partial_cmp(&self, other: &TaskName) -> Option<Ordering> {
        Some(self.cmp(other))
    }
}

impl Hash for TaskName {
    // All sixteen bytes, in one write.
    ghost hash_input = { λ name. with_zeros name ∷ [] };

    ghost respects_eq = { (same_Alike (λ name. with_zeros name ∷ []) bytes_decides).fed };

    fn hash<H: Hasher>(&self, state: &mut H) {
        state.write(&self.bytes);
    }
}

// Whether a byte may stand at this place of a name.
fn may_stand_at(place: usize, byte: u8) -> bool
    ensures { result ≡ may_stand place byte }
{
    byte.is_ascii_lowercase() || (place >= 1 && (byte.is_ascii_digit() || byte == b'_'))
}
