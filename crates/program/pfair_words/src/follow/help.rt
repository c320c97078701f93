//! The texts of help of `pfair_follow`. Each line of them has at most 100 characters.

use crate::command::Texts;

pub(crate) const ABOUT: &str =
    "Plans Pfair schedules from rows of entries as they come, in any order, slot by slot";

pub(crate) const PROCESSORS_HELP: &str = "How many processors, and so how many logs: 1 to 64";

pub(crate) const FRAME_HELP: &str =
    "Slots of a frame, which each period has to divide: 1 to 1000000000";

pub(crate) const SLOTS_HELP: &str = "How many slots are planned: 1 to 1000000";

pub(crate) const FROM_HELP: &str = "First slot with rows; no header unless it is 0: 0 to 1000000";

pub(crate) const STRICT_HELP: &str = "End with status 2 at the first refused row";

pub(crate) const RESUME_HELP: &str =
    "Begin with this file's state, and its processors and frame; no header";

pub(crate) const SAVE_HELP: &str =
    "End as soon as all slots are printed, and save the state that is left";

pub(crate) const AFTER: &str = "Examples:
  pfair_follow entries examples/two_processors.toml
  pfair_follow entries examples/two_processors.toml |
    pfair_follow replay --processors 2 --frame 6 --slots 6

When their input ends, `replay`, `decisions` and `lags` have printed what `pfair` prints of a task
file with the same entries. Each command has its own help.

A fault is one line on standard error, `pfair_follow: NUMBER TEXT`.

Exit status, by the numbers of the faults:
  0  done: all slots are settled, and their rows are printed
  1  refused: the command line (80)
  2  refused: a task file (60 to 66), a state (66, 68, 69), or with --strict a row (1 to 14, 67)
  3  two contents of one entry met (30), the input ended early (52), or no run can follow (33, 34)
  4  out of memory (90)
  5  reading or writing failed (70, 71)

Documents of the repository:
  docs/SPECIFICATION.md  the model, rows of entries, each fault
  docs/PROOFS.md         what is proved, and what isn't";

pub(crate) const ENTRIES_TEXTS: Texts = Texts {
    about: "Prints the entries of a task file as rows, one for each entry of each log",
    usage: "pfair_follow entries <FILE>",
    after: "Columns (no header is printed):
  processor,number,floor,at,kind,name,cost,period,early,index,by
The logs come in order of processors, and each is closed by an entry with floor `slots`, as the
reader of task files closes it. `pfair replay --help` shows a task file. A dash stands for nothing.

Example: pfair_follow entries examples/two_processors.toml",
};

// What the commands that read rows share, behind the columns of each.
macro_rules! with_rows {
    ($columns:literal) => {
        concat!(
            $columns,
            "

Input: rows of entries as `pfair_follow entries` prints them, in any order, repeated or not. A row
ends with its newline.
  0,1,0,0,arrive,video,2,3,false,-,-   entry 1 of processor 0, of floor 0: video arrives at 0,
                                       2 quanta in each 3 slots, not early
  1,3,3,4,late,video,-,-,-,4,2         at 4: its subtasks from 4 on are released 2 slots later
  0,2,2,2,depart,video,-,-,-,-,-       at 2: it departs
  0,3,6,-,-,-,-,-,-,-,-                only a floor: no more stamps before slot 6
  ?                                    asks which entries would settle more

The rows of a slot are printed as soon as it is settled, that is, as soon as all logs have come,
without a gap, to a floor above it. They are flushed before more is read.
A refused row is reported on standard error, `pfair_follow: NUMBER TEXT: ROW`, and skipped, unless
--strict is set. For `?`, and if the input ends too early, lines `missing PROCESSOR,NUMBER` on
standard error name the entries that would settle more. At the end of a run, lines
`dropped PROCESSOR,NUMBER` name the entries that are stamped after its last slot.
If two contents of one entry meet, the run ends at once (30).

Restart: feed all entries of the run again. `--from S` leaves out the rows of the slots below S.

Run after run: `--save FILE` writes the state that a run leaves, and `--resume FILE` begins the next
one with it. Slots, stamps and the numbers of entries begin anew in each run. FILE has then been
written whole, or is as it was; `--resume` and `--save` may name one file."
        )
    };
}

pub(crate) const REPLAY_TEXTS: Texts = Texts {
    about: "Reads rows of entries, and prints the schedule slot by slot as soon as it is settled",
    usage: "pfair_follow replay --processors <M> --frame <F> --slots <S> [OPTIONS]
       pfair_follow replay --resume <FILE> --slots <S> [OPTIONS]",
    after: with_rows!(
        "Columns:
  slot       the slot, from 0; a slot in which no task runs has no row
  processor  the row's number in the slot's table, from 0, in PD2 order: not where it runs
  task       the task that has the quantum
  index      the index of its subtask, from 1
  place      (--affinity) the processor that runs it"
    ),
};

pub(crate) const DECISIONS_TEXTS: Texts = Texts {
    about: "Reads rows of entries, and prints who is admitted or refused and who departs",
    usage: "pfair_follow decisions --processors <M> --frame <F> --slots <S> [OPTIONS]
       pfair_follow decisions --resume <FILE> --slots <S> [OPTIONS]",
    after: with_rows!(
        "Columns:
  slot       the slot of the stamp, at the beginning of which it is decided
  processor  the processor whose log announces it
  number     the number of the entry in that log, from 1
  task       the task that it names
  outcome    `admitted`, `departing`, `delayed`, or `refused`
  value      departing: the slot from which its weight and its name are free; refused: the number
             of the refusal, as `pfair decisions --help` lists them; else -"
    ),
};

pub(crate) const LAGS_TEXTS: Texts = Texts {
    about: "Reads rows of entries, and prints how far each task is from its fluid share",
    usage: "pfair_follow lags --processors <M> --frame <F> --slots <S> [OPTIONS]
       pfair_follow lags --resume <FILE> --slots <S> [OPTIONS]",
    after: with_rows!(
        "Columns:
  time       the end of a slot: its number plus 1
  task       a task that was admitted and isn't leaving
  numerator  cost * (time since it joined) - period * (quanta that it had)
  period     its period: the lag is the numerator over the period, positive if it is behind"
    ),
};
