//! The texts of help of `pfair`. Each line of them has at most 100 characters.

use crate::command::Texts;

pub(crate) const ABOUT: &str =
    "Proportionate-fair (Pfair) scheduling of quanta on several processors, in the PD2 order";

pub(crate) const COST_HELP: &str = "Cost: quanta in each period, 1 to the period";

pub(crate) const PERIOD_HELP: &str = "Period in slots, at most 1000000000";

pub(crate) const COUNT_HELP: &str = "How many subtasks, 0 to 1000000";

pub(crate) const AFTER: &str = "Examples:
  pfair windows 8 11 8
  pfair replay examples/two_processors.toml
  pfair decisions examples/two_processors.toml

Each command has its own help. `pfair replay --help` shows a task file, and explains columns,
refusals and faults.

A fault is one line on standard error, `pfair: NUMBER TEXT`. Standard output is then empty, or has
the beginning of the text if writing failed (71).

Exit status, by the numbers of the faults:
  0  done
  1  refused: a weight (4 to 6) or the command line (80)
  2  refused: the task file (60 to 66)
  3  the run stalled (52), its gate gave up (53), or it went astray (54)
  4  out of memory, or a thread couldn't be started (90)
  5  a file can't be opened or read (70), or writing failed (71)

Documents of the repository:
  docs/GUIDE.md          how to plan, check, draw and run schedules, by examples
  docs/SPECIFICATION.md  the model, the rules, the task file, the outputs, each fault
  docs/PROOFS.md         what is proved, and what isn't";

pub(crate) const WINDOWS_TEXTS: Texts = Texts {
    about: "Prints the windows of a weight's subtasks at offset 0, one row each",
    usage: "pfair windows <E> <P> <COUNT>",
    after: "Columns:
  i  index of the subtask, from 1
  r  release: the slot in which its window opens
  d  deadline: the slot before which its window closes
  b  b-bit: 1 if the window overlaps that of the next subtask, else 0
  D  group deadline; 0 for a weight below 1/2

Faults: 4 zero cost, 5 cost over period, 6 period too long, 80 command line refused (status 1).

Example: pfair windows 8 11 8",
};

// The columns of a command over a task file, and then what all of them share.
macro_rules! with_task_file {
    ($columns:literal) => {
        concat!(
            $columns,
            "

A task file:
  version = 1       # 2 if a task has `early = true`
  processors = 1    # 1 to 64
  frame = 2         # a multiple of each period
  slots = 4         # how many slots are planned
  [[entry]]         # an entry of a processor's log; those of one log are in order
  processor = 0     # whose log it is, from 0
  floor = 0         # from this entry on, no stamp of this log is before this slot
  kind = \"arrive\"   # \"depart\" has no cost and period; \"late\" has `index` and `by` instead
  at = 0            # the stamp: the slot in which it takes effect, not before the floor
  name = \"a\"        # a letter a-z, then letters a-z, digits and _: at most 16
  cost = 1          # quanta in each period
  period = 2        # in slots
An entry without `kind` has only a floor. Unknown keys are ignored: if the key `kind` is misspelt,
the entry announces nothing, and no fault says so.

Refusals, by the number that `decisions` prints:
  20 name taken            the name is in use, or its task is still leaving
  21 period outside frame  the period doesn't divide the frame
  22 no room               the total weight would exceed the number of processors
  23 no such task          no task has this name
  24 already departing     the task is already leaving
  25 already released      the stamp is past the subtask's release, or the subtask has run
The run goes on without a refused task: `decisions` shows it, `replay` and `lags` don't.

Faults of the file: the number at the end, as in `62 floor of wrong kind at 7`, is 0 for the head
of the file, and n for its n-th [[entry]]. The number in `entry 2 of processor 0 refused` counts
the entries of that processor's log, from 1.

Stalled: `52 stalled at slot S` says that only the slots below S can be planned. In some log an
entry has a lower floor than the entry before it, and the rest of that log is ignored. The reader
closes each log with an entry of floor `slots`, so it is enough that no floor falls: put the
entries of a log in the order of their floors, or plan at most S slots."
        )
    };
}

pub(crate) const REPLAY_TEXTS: Texts = Texts {
    about: "Prints the schedule of a task file, one row for each quantum",
    usage: "pfair replay [--affinity] <FILE>",
    after: with_task_file!(
        "Columns:
  slot       the slot, from 0; a slot in which no task runs has no row
  processor  the row's number in the slot's table, from 0, in PD2 order: not where it runs
  task       the task that has the quantum
  index      the index of its subtask, from 1
  place      (--affinity) the processor that runs it. A task that ran in the slot before stays on
             its processor; each other row, in order, takes the least one left. After a gap
             a task may move"
    ),
};

pub(crate) const DECISIONS_TEXTS: Texts = Texts {
    about: "Prints who was admitted or refused and who departs, one row for each announcement",
    usage: "pfair decisions <FILE>",
    after: with_task_file!(
        "Columns:
  slot       the slot of the stamp, at the beginning of which it is decided
  processor  the processor whose log announces it, as in the file
  number     the number of the entry in that log, from 1
  task       the task that it names
  outcome    `admitted`, `departing`, `delayed`, or `refused`
  value      departing: the slot from which its weight and its name are free; refused: the number
             of the refusal; else -"
    ),
};

pub(crate) const LAGS_TEXTS: Texts = Texts {
    about: "Prints how far each task is from its fluid share, one row for each time and task",
    usage: "pfair lags <FILE>",
    after: with_task_file!(
        "Columns:
  time       the end of a slot: its number plus 1
  task       a task that was admitted and isn't leaving
  numerator  cost * (time since it joined) - period * (quanta that it had)
  period     its period: the lag is the numerator over the period, positive if it is behind
A schedule is Pfair if each lag stays between -1 and 1, and meets all deadlines if each stays below
1. Late releases aren't counted."
    ),
};
