//! A book of the lags of tasks that come and go, as slots pass.
ghost use Rattle.std.specs.Prelude.{◌≡◌, ◌+◌, ◌*◌, ◌^◌, ◌≤◌, ◌<◌, length, IsTrue, IfOk, OnErr, false, not, is_some, map, slice_get};
ghost use Rattle.std.specs.Option.{option_map};
ghost use Rattle.pfair_weight.specs.Name.{NamesApart};
ghost use Rattle.pfair_lag.specs.Book.{empty_book, tally_of, lag_of, entered_with, entered_after, left, recorded, tally_shown, IsSound, EachFits, counted_at, with_quanta};

use crate::MAX_HORIZON;
use indexmap::IndexMap;
use pfair_table::Pick;
use pfair_weight::{MAX_INDEX, MAX_OFFSET, TaskName, Weight};
use std::alloc::{AllocError, Global};
use std::marker::Model;

// A book's time before its first slot.
const START: u64 = MAX_OFFSET;

// What is kept of a task: its weight, the time from which its slots are counted, and how many quanta
// it had since, the last of them in the slot that ended at the time `last`. A book's time begins at
// START, so that slots before it can be counted.
#[derive(Clone, Copy, Debug)]
struct Account {
    weight: Weight,
    since: u64,
    last: u64,
    ran: u64,
}

impl Account {
    // Counts a quantum of the slot that ends at this time, unless it is counted.
    fn count(&mut self, time: u64)
        requires { self.old.ran ≤ self.old.last }
        ensures { self.new ≡ counted_at time self.old }
    {
        if self.last < time {
            self.last = time;
            self.ran += 1;
        }
    }

    // The lag at this time, as a numerator over the period.
    fn lag(&self, time: u64) -> (i64, u64)
        requires sound { IsSound time self.now }
        requires short { time ≤ START + MAX_HORIZON }
        ensures { result ≡ lag_of (tally_shown time self.now) }
    {
        let due = self.weight.cost() * (time - self.since);
        let done = self.weight.period() * self.ran;
        (due as i64 - done as i64, self.weight.period())
    }
}

/// The lags of some tasks, each counted from when the task was entered, or from a slot before.
///
/// A book is notified of each slot that passes, with its quanta. Up to [`MAX_HORIZON`] slots
/// can be recorded.
#[derive(Drop)]
pub struct LagBook {
    time: u64,
    accounts: IndexMap<TaskName, Account>,
}

impl Model for LagBook {
    ghost use Rattle.std.specs.Prelude.{◌-◌};
    ghost use Rattle.pfair_lag.specs.declared.book.TheConstants.{START};
    ghost use Rattle.pfair_lag.specs.Book.{Book, entered_shown, IsKept};

    ghost Value = { Book };

    ghost view = { λ a. record { time = a.time - START; entered = entered_shown a.time a.accounts.entries } };

    ghost invariant = { λ a. IsKept a.time a.accounts.entries };
}

impl LagBook {
    /// Creates a book without tasks and slots. It allocates nothing; what is entered
    /// later comes from `alloc`.
    pub fn new(alloc: Global) -> Self
        ensures { result ≡ empty_book }
    {
        LagBook {
            time: START,
            accounts: IndexMap::new(alloc),
        }
    }

    /// Enters a task after all others and returns true. Its lag counts the slots that are recorded
    /// from now on. Returns false if the name is in use; then nothing changes or is allocated.
    ///
    /// O(1) amortized, and O(n) at worst for n tasks, when the map grows.
    ///
    /// # Errors
    /// Returns [`AllocError`] if an allocation fails; nothing has changed.
    pub fn enter(&mut self, name: TaskName, weight: Weight) -> Result<bool, AllocError>
        ensures answer { IfOk result (λ new. new ≡ not (is_some (tally_of name self.old))) }
        ensures there { IsTrue (is_some (tally_of name self.old)) → result ≡ Ok false }
        ensures book { IfOk result (λ _. self.new ≡ entered_with name weight self.old) }
        ensures err { OnErr result (self.new ≡ self.old) }
    {
        prove!(weight.cost() <= Weight::MAX_PERIOD);
        self.enter_after(name, weight, 0, 0)
    }

    /// Enters a task as [`LagBook::enter`], but that its lag also counts `slots` slots before those
    /// that are recorded from now on, and that it had `ran` quanta in them. The numerators of its
    /// lags fit into 63 bits and a sign.
    ///
    /// # Errors
    /// Returns [`AllocError`] if an allocation fails; nothing has changed.
    pub fn enter_after(
        &mut self,
        name: TaskName,
        weight: Weight,
        slots: u64,
        ran: u64,
    ) -> Result<bool, AllocError>
        requires slots { slots ≤ MAX_OFFSET }
        requires ran { ran ≤ MAX_INDEX }
        requires fits { weight.cost * (slots + MAX_HORIZON) < 2 ^ 63 }
        ensures answer { IfOk result (λ new. new ≡ not (is_some (tally_of name self.old))) }
        ensures there { IsTrue (is_some (tally_of name self.old)) → result ≡ Ok false }
        ensures book { IfOk result (λ _. self.new ≡ entered_after slots ran name weight self.old) }
        ensures err { OnErr result (self.new ≡ self.old) }
    {
        if self.accounts.contains_key(&name) {
            return Ok(false);
        }
        let account = Account {
            weight,
            since: self.time - slots,
            last: self.time,
            ran,
        };
        self.accounts.insert(name, account)?;
        Ok(true)
    }

    /// Removes a task and returns whether it was there. The others keep their order and their lags.
    /// O(n) for n tasks.
    pub fn leave(&mut self, name: &TaskName) -> bool
        ensures answer { result ≡ is_some (tally_of name.now self.old) }
        ensures book { self.new ≡ left name.now self.old }
    {
        self.accounts.shift_remove(name).is_some()
    }

    /// Records that one slot has passed, in which the tasks of these picks ran. A task that is
    /// named twice had one quantum, and a name that isn't entered is ignored.
    ///
    /// Fewer than [`MAX_HORIZON`] slots have been recorded. O(picks); it allocates nothing.
    pub fn record(&mut self, picks: &[Pick])
        requires { self.old.time < MAX_HORIZON }
        ensures { self.new ≡ recorded (map (λ p. p.name) picks.now) self.old }
    {
        count_quanta(&mut self.accounts, picks, self.time + 1);
        self.time += 1;
    }

    /// Returns how many slots have been recorded.
    pub fn time(&self) -> u64
        ensures value { result ≡ self.now.time }
        ensures short { result ≤ MAX_HORIZON }
    {
        self.time - START
    }

    /// Returns the lag of a task, as a numerator over its period p: `e * t - p * A`, where e is its
    /// cost, t the number of slots recorded since it was entered, and A the number of those in
    /// which it ran; both include what it was entered with. `None` if it isn't there. O(1).
    pub fn lag(&self, name: &TaskName) -> Option<(i64, u64)>
        ensures { result ≡ option_map lag_of (tally_of name.now self.now) }
    {
        let account = self.accounts.get(name)?;
        Some(account.lag(self.time))
    }

    /// Returns the name at a place, counted from 0, in order of entering, and that task's lag, as
    /// [`LagBook::lag`]. `None` exactly if there are no more than `place` tasks. O(1): no name is
    /// looked up.
    pub fn row_at(&self, place: usize) -> Option<(&TaskName, (i64, u64))>
        ensures name { option_map (λ row. row.0.now) result ≡ option_map (λ e. e.0) (slice_get self.now.entered place) }
        ensures lag { option_map (λ row. row.1) result ≡ option_map (λ e. lag_of e.1) (slice_get self.now.entered place) }
    {
        let (name, account) = self.accounts.get_index(place)?;
        Some((name, account.lag(self.time)))
    }

    /// Returns how many tasks are entered.
    pub fn len(&self) -> usize
        ensures { result ≡ length self.now.entered }
    {
        self.accounts.len()
    }

    /// Returns the name at a place, counted from 0, in order of entering. No name stands at two
    /// places.
    pub fn name_at(&self, place: usize) -> Option<&TaskName>
        ensures name { option_map (λ n. n.now) result ≡ option_map (λ e. e.0) (slice_get self.now.entered place) }
        ensures apart { NamesApart (λ e. e.0) self.now.entered }
    {
        let (name, _) = self.accounts.get_index(place)?;
        Some(name)
    }
}

// Counts the quanta of the slot that ends at this time. A name that isn't there is ignored.
fn count_quanta(accounts: &mut IndexMap<TaskName, Account>, picks: &[Pick], time: u64)
    requires { EachFits accounts.old.entries }
    ensures { accounts.new.entries ≡ with_quanta time (map (λ p. p.name) picks.now) accounts.old.entries }
{
    for pick in picks {
        if let Some(place) = accounts.get_index_of(&pick.name) {
            accounts[place].count(time);
        }
    }
}
