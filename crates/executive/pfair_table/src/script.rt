//! The logs of a run.
ghost use Rattle.std.specs.Prelude.{◌≡◌, ◌<◌, ◌≤◌, ◌↔◌, IsTrue, IfOk, IfErr, Some, slice_get, length};
ghost use Rattle.std.specs.List.{list_all};
ghost use Rattle.pfair_replica.specs.Replica.{IsShape};
ghost use Rattle.pfair_table.specs.Script.{IsLoggedRun, is_short, lists_of, capacity_of};

use crate::settings::Settings;
use pfair_entry::{Entry, Writer};
use std::marker::Model;

/// A run's settings, and the log of each of its processors.
#[derive(Debug, Drop)]
pub struct Script {
    settings: Settings,
    logs: Vec<Vec<Entry>>,
}

impl Model for Script {
    ghost use Rattle.pfair_table.specs.Script.{LoggedRun, IsLoggedRun, lists_of};

    ghost Value = { LoggedRun };

    ghost view = { λ a. record { settings = a.settings; logs = lists_of a.logs.items } };

    ghost invariant = { λ a. IsLoggedRun (record { settings = a.settings; logs = lists_of a.logs.items }) };
}

impl Script {
    /// The most entries of a log.
    pub const LONGEST_LOG: usize = Writer::LONGEST_LOG as usize;

    /// Creates the script of a run with these settings and logs, that of processor k at place k. No
    /// entry is looked at: O(M) for M processors.
    ///
    /// # Errors
    /// Returns the logs if there is not one for each processor, or if one has more than
    /// [`Script::LONGEST_LOG`] entries.
    pub fn new(settings: Settings, logs: Vec<Vec<Entry>>) -> Result<Script, Vec<Vec<Entry>>>
        ensures ok { IfOk result (λ script. (script ≡ record { settings = settings; logs = lists_of logs.items }) × IsLoggedRun script) }
        ensures back { IfErr result (λ back. (back ≡ logs) × ¬ (IsLoggedRun record { settings = settings; logs = lists_of logs.items })) }
    {
        if logs.len() == settings.processors() as usize && are_short(&logs) {
            Ok(Script { settings, logs })
        } else {
            Err(logs)
        }
    }

    /// Returns the run's settings.
    pub fn settings(&self) -> Settings
        ensures value { result ≡ self.now.settings }
        ensures run { IsLoggedRun self.now }
    {
        self.settings
    }

    /// Returns the log of a processor of the run: its entry n is at place n - 1.
    pub fn log(&self, proc: u8) -> &[Entry]
        requires { proc < self.now.settings.processors }
        ensures value { slice_get self.now.logs proc ≡ Some result.now }
        ensures fits { length result.now ≤ capacity_of self.now.logs }
        ensures run { IsLoggedRun self.now }
    {
        &self.logs[proc as usize]
    }

    /// Returns the capacity that a replica of the logs needs: the length of the longest log, at least
    /// 1. O(M) for M processors.
    pub fn capacity(&self) -> u32
        ensures value { result ≡ capacity_of self.now.logs }
        ensures shape { IsShape self.now.settings.processors (capacity_of self.now.logs) }
    {
        // settings have 1 to 64 processors
        prove!(self.settings.processors() <= Settings::MAX_PROCESSORS);
        let mut longest = 1;
        for log in &self.logs {
            longest = longest.max(log.len());
        }
        longest as u32
    }
}

fn are_short(logs: &[Vec<Entry>]) -> bool
    ensures { result ≡ list_all (λ log. is_short log.items) logs.now }
{
    logs.iter().all(|log| log.len() <= Script::LONGEST_LOG)
}
