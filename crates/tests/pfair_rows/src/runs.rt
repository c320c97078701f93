//! Worked runs.

use crate::run::{Example, assert_run, assert_runs, held, left};
use pfair_lag::LagBook;
use pfair_output::{add_lags_from, add_lags_header};
use pfair_ready::{HeapReady, Ready};
use pfair_replica::Replica;
use pfair_table::Dispatcher;
use pfair_text::{finish, new_text};
use std::alloc::Global;
use std::process::Abort;

// Of each run a title, the machine, the events, the answers, the tables, the decisions and the places.
const RUNS: &str = "
at full load ties go all the way to the names
2 3 3
0 1 0 0 arrive a 2 3; 0 2 0 0 arrive b 2 3; 0 3 0 0 arrive c 2 3; 0 4 3; 1 1 3; plan 4
new, new, new, new, new, slot 0, slot 1, slot 2, done
[a1 b1][c1 a2][b2 c2]
[0.1 a admitted, 0.2 b admitted, 0.3 c admitted][][]
[0 1][1 0][0 1]

at equal deadlines the later group deadline goes first
2 33 4
0 1 0 0 arrive z 8 11; 0 2 0 0 arrive a 2 3; 0 3 4; 1 1 4; plan 5
new, new, new, new, slot 0, slot 1, slot 2, slot 3, done
[z1 a1][z2 a2][z3][a3]
[0.1 z admitted, 0.2 a admitted][][][]

a subtask is late up to the slot of its release
1 2 8
0 1 0 0 arrive a 1 2; 0 2 2 2 late a 2 3; 0 3 8; plan 8
new, new, new, slot 0, slot 1, slot 2, slot 3, slot 4, slot 5, slot 6, slot 7
[a1][][][][][a2][][a3]
[0.1 a admitted][][0.2 a delayed][][][][][]

and not after it
1 2 8
0 1 0 0 arrive a 1 2; 0 2 3 3 late a 2 3; 0 3 8; plan 8
new, new, new, slot 0, slot 1, slot 2, slot 3, slot 4, slot 5, slot 6, slot 7
[a1][][a2][][a3][][a4][]
[0.1 a admitted][][][0.2 a refused 25][][][][]

the name, the period and the room are looked at in this order
1 12 1
0 1 0 0 arrive a 1 5; 0 2 0 0 arrive a 12 12; 0 3 0 0 arrive a 1 5; 0 4 0 0 arrive b 1 5; \
0 5 0 0 arrive b 1 12; 0 6 1; plan 2
new, new, new, new, new, new, slot 0, done
[a1]
[0.1 a refused 21, 0.2 a admitted, 0.3 a refused 20, 0.4 b refused 21, 0.5 b refused 22]

and so for each of five arrivals
1 4 4
0 1 0 0 arrive a 1 2; 0 2 0 0 arrive a 1 4; 0 3 0 0 arrive d 1 3; 0 4 0 0 arrive b 1 4; \
0 5 0 0 arrive c 1 2; 0 6 4; plan 5
new, new, new, new, new, new, slot 0, slot 1, slot 2, slot 3, done
[a1][b1][a2][]
[0.1 a admitted, 0.2 a refused 20, 0.3 d refused 21, 0.4 b admitted, 0.5 c refused 22][][][]

slots are planned up to the frontier
1 1 20
plan 1; 0 1 10; plan 11
waiting 0, new, slot 0, slot 1, slot 2, slot 3, slot 4, slot 5, slot 6, slot 7, slot 8, slot 9, waiting 10
[][][][][][][][][][]
[][][][][][][][][][]

or up to the last one
1 1 10
plan 1; 0 1 10; plan 11
waiting 0, new, slot 0, slot 1, slot 2, slot 3, slot 4, slot 5, slot 6, slot 7, slot 8, slot 9, done
[][][][][][][][][][]
[][][][][][][][][][]

a second content stops plans
1 1 9
0 1 3; plan 3; 0 2 5; 0 2 6; plan 1; 0 2 5; plan 1
new, slot 0, slot 1, slot 2, new, torn, fault 30 at 0.2, torn, fault 30 at 0.2
[][][]
[][][]

also if it comes from another dispatcher
1 1 9
0 1 3; plan 3; 0 2 4; absorb 0 1 3, plan 3, 0 2 5; plan 1
new, slot 0, slot 1, slot 2, new, merged, fault 30 at 0.2
[][][]
[][][]

and of that one
1 1 9
0 1 3; plan 3; 0 2 5; absorb 0 1 3, plan 3, 0 2 4; plan 1
new, slot 0, slot 1, slot 2, new, merged, fault 30 at 0.2
[][][]
[][][]

a refused event is passed over
1 2 2
1 1 2; 0 0 2; 0 257 2; absorb 2 2 2: 0 1 2; absorb 1 2 2: 0 1 0 0 arrive a 1 2, 0 2 2; plan 3
fault 13, fault 14, fault 14, fault 15, merged, slot 0, slot 1, done
[a1][]
[0.1 a admitted][]

a leaver keeps its weight until its group deadline has passed
1 2 4
0 1 0 0 arrive a 1 2; 0 2 1 1 depart a; 0 3 2 2 arrive b 1 1; 0 4 3 3 arrive b 1 1; 0 5 4; plan 5
new, new, new, new, new, slot 0, slot 1, slot 2, slot 3, done
[a1][][][b1]
[0.1 a admitted][0.2 a departing 3][0.3 b refused 22][0.4 b admitted]

and none if it never ran
1 1 1
0 1 0 0 arrive a 1 1; 0 2 0 0 depart a; 0 3 0 0 arrive a 1 1; 0 4 1; plan 2
new, new, new, new, slot 0, done
[a1]
[0.1 a admitted, 0.2 a departing 0, 0.3 a admitted]

what a light leaver is refused, and what others are beside it
1 5 5
0 1 0 0 arrive a 2 5; 0 2 1 1 depart a; 0 3 1 1 depart a; 0 4 1 1 depart x; 0 5 1 1 late a 2 1; \
0 6 1 1 arrive a 1 5; 0 7 3 3 arrive b 1 1; 0 8 4 4 arrive b 1 1; 0 9 5; plan 5
new, new, new, new, new, new, new, new, new, slot 0, slot 1, slot 2, slot 3, slot 4
[a1][][][][b1]
[0.1 a admitted][0.2 a departing 4, 0.3 a refused 24, 0.4 x refused 23, 0.5 a refused 24, 0.6 a refused 20][]\
[0.7 b refused 22][0.8 b admitted]

a delayed subtask of an early task waits for its release
1 4 8
0 1 0 0 early a 2 4; 0 2 1 1 late a 2 3; 0 3 8; plan 8
new, new, new, slot 0, slot 1, slot 2, slot 3, slot 4, slot 5, slot 6, slot 7
[a1][][][][][a2][][a3]
[0.1 a admitted][0.2 a delayed][][][][][][]

and one that has run is not delayed
1 4 8
0 1 0 0 early a 2 4; 0 2 2 2 late a 2 3; 0 3 8; plan 8
new, new, new, slot 0, slot 1, slot 2, slot 3, slot 4, slot 5, slot 6, slot 7
[a1][a2][][][a3][a4][][]
[0.1 a admitted][][0.2 a refused 25][][][][][]
";

#[test]
fn runs_of_events(rt: HostRuntime) {
    assert_runs(&rt, rt.alloc(), RUNS);
}

// A machine that is full in every slot, while a task leaves, another joins, one is late and one runs
// early. The tables, decisions and lags are those of another planner, written from the rules alone
// in another language. The late task b passes a lag of 1, and the early task d one of -1; neither
// misses a deadline. The others stay within the two.
const FULL: Example<'static> = Example {
    machine: "2 12 12",
    events: "0 1 0 0 arrive a 1 2; 0 2 0 0 arrive b 1 3; 1 1 0 0 arrive c 3 6; 1 2 0 0 early d 8 12; \
        1 3 2 2 late b 2 2; 0 3 4 4 depart a; 0 4 4 4 arrive e 2 4; 0 5 5 5 arrive e 2 4; 0 6 12; 1 4 12; plan 13",
    answers: "new, new, new, new, new, new, new, new, new, new, slot 0, slot 1, slot 2, slot 3, slot 4, slot 5, \
        slot 6, slot 7, slot 8, slot 9, slot 10, slot 11, done",
    tables: "[d1 a1][c1 b1][d2 a2][c2 d3][c3 d4][e1 d5][b2 c4][d6 e2][c5 d7][b3 e3][c6 d8][e4 b4]",
    decisions: "[0.1 a admitted, 0.2 b admitted, 1.1 c admitted, 1.2 d admitted][][1.3 b delayed][]\
        [0.3 a departing 5, 0.4 e refused 22][0.5 e admitted][][][][][][]",
    places: "",
};

const LAGS: &str = "time,task,numerator,period\n\
    1,a,-1,2\n1,b,1,3\n1,c,3,6\n1,d,-4,12\n\
    2,a,0,2\n2,b,-1,3\n2,c,0,6\n2,d,4,12\n\
    3,a,-1,2\n3,b,0,3\n3,c,3,6\n3,d,0,12\n\
    4,a,0,2\n4,b,1,3\n4,c,0,6\n4,d,-4,12\n\
    5,b,2,3\n5,c,-3,6\n5,d,-8,12\n\
    6,b,3,3\n6,c,0,6\n6,d,-12,12\n6,e,-2,4\n\
    7,b,1,3\n7,c,-3,6\n7,d,-4,12\n7,e,0,4\n\
    8,b,2,3\n8,c,0,6\n8,d,-8,12\n8,e,-2,4\n\
    9,b,3,3\n9,c,-3,6\n9,d,-12,12\n9,e,0,4\n\
    10,b,1,3\n10,c,0,6\n10,d,-4,12\n10,e,-2,4\n\
    11,b,2,3\n11,c,-3,6\n11,d,-8,12\n11,e,0,4\n\
    12,b,0,3\n12,c,0,6\n12,d,0,12\n12,e,-2,4\n";

fn assert_lags<R: Ready>(rt: &impl Abort, alloc: Global) {
    let planned: Dispatcher<R> = left(rt, alloc, FULL.machine, FULL.events, ';');
    let mut writer = new_text(alloc);
    add_lags_header(&mut writer).expect(rt, "memory");
    add_lags_from(&mut writer, &mut LagBook::new(alloc), &planned).expect(rt, "memory");
    let lags = finish(writer).expect(rt, "memory");
    assert!(rt; lags.as_slice() == LAGS.as_bytes());
}

#[test]
fn a_machine_that_is_full(rt: HostRuntime) {
    assert_run(&rt, rt.alloc(), FULL);
    assert_lags::<HeapReady>(&rt, rt.alloc());
}

// The ten entries of two processors, in some orders and in parts, with the answers.
const TEN: [(&str, &str); 5] = [
    (FORWARD, ANSWERS),
    (BACKWARD, ANSWERS),
    (
        TWICE,
        "new, known, new, known, new, known, new, known, new, known, new, known, new, known, new, known, new, \
            known, new, known, slot 0, slot 1, slot 2, slot 3, slot 4, slot 5, done",
    ),
    (
        "absorb 0 1 0 0 arrive a 1 2, 0 2 0 0 arrive b 2 3, 0 3 2 2 depart a, 0 4 4, 0 5 6; plan 1; \
            absorb 1 1 0 0 arrive c 1 3, 1 2 1 3 arrive d 1 2, 1 3 3 4 late b 4 2, 1 4 5, 1 5 6; plan 7",
        HALVES,
    ),
    (
        "absorb 1 1 0 0 arrive c 1 3, 1 2 1 3 arrive d 1 2, 1 3 3 4 late b 4 2, 1 4 5, 1 5 6; plan 1; \
            absorb 0 1 0 0 arrive a 1 2, 0 2 0 0 arrive b 2 3, 0 3 2 2 depart a, 0 4 4, 0 5 6; plan 7",
        HALVES,
    ),
];

const FORWARD: &str =
    "0 1 0 0 arrive a 1 2; 0 2 0 0 arrive b 2 3; 0 3 2 2 depart a; 0 4 4; 0 5 6; 1 1 0 0 arrive c 1 3; \
        1 2 1 3 arrive d 1 2; 1 3 3 4 late b 4 2; 1 4 5; 1 5 6; plan 7";

const BACKWARD: &str =
    "1 5 6; 1 4 5; 1 3 3 4 late b 4 2; 1 2 1 3 arrive d 1 2; 1 1 0 0 arrive c 1 3; 0 5 6; 0 4 4; \
        0 3 2 2 depart a; 0 2 0 0 arrive b 2 3; 0 1 0 0 arrive a 1 2; plan 7";

const TWICE: &str =
    "0 1 0 0 arrive a 1 2; 0 1 0 0 arrive a 1 2; 0 2 0 0 arrive b 2 3; 0 2 0 0 arrive b 2 3; 0 3 2 2 depart a; \
        0 3 2 2 depart a; 0 4 4; 0 4 4; 0 5 6; 0 5 6; 1 1 0 0 arrive c 1 3; 1 1 0 0 arrive c 1 3; \
        1 2 1 3 arrive d 1 2; 1 2 1 3 arrive d 1 2; 1 3 3 4 late b 4 2; 1 3 3 4 late b 4 2; 1 4 5; 1 4 5; \
        1 5 6; 1 5 6; plan 7";

// The entries of one processor, and those of the other.
const FIRST: &str = "0 1 0 0 arrive a 1 2; 0 2 0 0 arrive b 2 3; 0 3 2 2 depart a; 0 4 4; 0 5 6";

const SECOND: &str = "1 1 0 0 arrive c 1 3; 1 2 1 3 arrive d 1 2; 1 3 3 4 late b 4 2; 1 4 5; 1 5 6";

const ANSWERS: &str =
    "new, new, new, new, new, new, new, new, new, new, slot 0, slot 1, slot 2, slot 3, slot 4, slot 5, done";

const HALVES: &str =
    "merged, waiting 0, merged, slot 0, slot 1, slot 2, slot 3, slot 4, slot 5, done";

const MACHINE: &str = "2 6 6";

// What one processor holds back keeps the others from planning.
const SHORT: Example<'static> = Example {
    machine: MACHINE,
    events: "0 1 0 0 arrive a 1 2; 0 2 0 0 arrive b 2 3; 0 3 2 2 depart a; 0 4 4; 0 5 6; 1 1 0 0 arrive c 1 3; \
        1 2 1 3 arrive d 1 2; plan 2",
    answers: "new, new, new, new, new, new, new, slot 0, waiting 1",
    tables: "[b1 a1]",
    decisions: "[0.1 a admitted, 0.2 b admitted, 1.1 c admitted]",
    places: "[0 1]",
};

#[test]
fn ten_entries_in_any_order_and_in_parts(rt: HostRuntime) {
    for (events, answers) in TEN {
        let run = Example {
            machine: MACHINE,
            events,
            answers,
            tables: "[b1 a1][b2 c1][][b3 d1][c2][d2]",
            decisions: "[0.1 a admitted, 0.2 b admitted, 1.1 c admitted][][0.3 a departing 3][1.2 d admitted]\
                [1.3 b delayed][]",
            places: "[0 1][0 1][][0 1][0][0]",
        };
        assert_run(&rt, rt.alloc(), run);
    }
    assert_run(&rt, rt.alloc(), SHORT);
}

fn are_equal(left: &Replica, right: &Replica) -> bool {
    left.le(right) && right.le(left)
}

// Asserts that one part merges to the whole with the other, and that the whole is what other orders
// leave.
fn assert_whole(rt: &impl Abort, whole: &Replica, part: &mut Replica, other: &Replica) {
    assert!(rt; part.merge(other).is_ok());
    assert!(rt; are_equal(whole, part));
}

#[test]
fn ten_entries_as_one_replica(rt: HostRuntime) {
    let whole = held(&rt, rt.alloc(), MACHINE, FORWARD, ';');
    for text in [BACKWARD, TWICE] {
        let other = held(&rt, rt.alloc(), MACHINE, text, ';');
        assert!(&rt; are_equal(&whole, &other));
    }
    for (one, other) in [(FIRST, SECOND), (SECOND, FIRST)] {
        let mut part = held(&rt, rt.alloc(), MACHINE, one, ';');
        let other = held(&rt, rt.alloc(), MACHINE, other, ';');
        assert_whole(&rt, &whole, &mut part, &other);
    }
}
