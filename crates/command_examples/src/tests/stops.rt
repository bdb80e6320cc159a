// `until`: how a thread stands right after a memory step of a logged run, and what stands in the way.
use super::contents::{Content, LOST_UPDATE, MESSAGE, OWN_WRITE_READ, SMALLEST};
use super::histories::{
    CROSSED, CROSSED_LOG, HIDDEN_STORE, HIDDEN_STORE_LOG, LONGER_ENTRY_LOG, LOST_UPDATE_LOG,
    MESSAGE_LOG, ONE_MORE_STEP_LOG, OTHER_WRITER, OTHER_WRITER_LOG, TWO_LOADS, TWO_LOADS_LOG,
};
use super::inputs::{SEVEN_TO_NINE_LOG, TAKER};
use super::logs::OLD_LOG;
use super::recordings::OWN_WRITE_READ_LOG;
use super::rows::{DONE, Row};

const MESSAGES: &[(&str, Content)] = &[("i", MESSAGE), ("l", MESSAGE_LOG)];

const OTHER: &[(&str, Content)] = &[("i", OTHER_WRITER), ("l", OTHER_WRITER_LOG)];

const UPDATES: &[(&str, Content)] = &[("i", LOST_UPDATE), ("l", LOST_UPDATE_LOG)];

const SHOWN_ROW: Row = Row {
    files: MESSAGES,
    ..DONE
};

// What a thread of a log came to by a step, and how far the threads were played for it.
pub static SHOWN: [Row; 13] = [
    Row {
        words: "until i l 1 3 0",
        text: Content::Text(
            "thread 1 step 3 instr 5/r0 0/r1 1/r2 0/r3 0/r4 0/r5 0/r6 0/r7 0/r8 0/r9 0/r10 0/r11 0/r12 0/r13 0/r14 0/r15 0/run 0 2/run 1 3/",
        ),
        ..SHOWN_ROW
    },
    Row {
        words: "until i l 0 2 0",
        text: Content::Text(
            "thread 0 step 2 instr 4/r0 0/r1 42/r2 1/r3 0/r4 0/r5 0/r6 0/r7 0/r8 0/r9 0/r10 0/r11 0/r12 0/r13 0/r14 0/r15 0/run 0 2/",
        ),
        ..SHOWN_ROW
    },
    // Before the first step no instruction was run.
    Row {
        words: "until i l 0 0 0",
        text: Content::Text(
            "thread 0 step 0 instr 0/r0 0/r1 0/r2 0/r3 0/r4 0/r5 0/r6 0/r7 0/r8 0/r9 0/r10 0/r11 0/r12 0/r13 0/r14 0/r15 0/",
        ),
        ..SHOWN_ROW
    },
    // The last step of the thread
    Row {
        words: "until i l 1 4 0",
        text: Content::Text(
            "thread 1 step 4 instr 7/r0 0/r1 1/r2 42/r3 0/r4 0/r5 0/r6 0/r7 0/r8 0/r9 0/r10 0/r11 0/r12 0/r13 0/r14 0/r15 0/run 0 2/run 1 4/",
        ),
        ..SHOWN_ROW
    },
    // It has seen nothing of the other thread, which is not played.
    Row {
        words: "until i l 1 2 0",
        text: Content::Text(
            "thread 1 step 2 instr 3/r0 0/r1 0/r2 0/r3 0/r4 0/r5 0/r6 0/r7 0/r8 0/r9 0/r10 0/r11 0/r12 0/r13 0/r14 0/r15 0/run 1 2/",
        ),
        ..SHOWN_ROW
    },
    // Between the two steps of a compare-exchange, which isn't finished
    Row {
        words: "until i l 0 1 0",
        files: OTHER,
        text: Content::Text(
            "thread 0 step 1 instr 2/r0 0/r1 5/r2 8/r3 0/r4 0/r5 0/r6 0/r7 0/r8 0/r9 0/r10 0/r11 0/r12 0/r13 0/r14 0/r15 0/run 0 1/",
        ),
        ..DONE
    },
    // and after both
    Row {
        words: "until i l 0 2 0",
        files: OTHER,
        text: Content::Text(
            "thread 0 step 2 instr 3/r0 0/r1 5/r2 8/r3 0/r4 0/r5 0/r6 0/r7 0/r8 0/r9 0/r10 0/r11 0/r12 0/r13 0/r14 0/r15 2/run 0 2/run 1 1/",
        ),
        ..DONE
    },
    // The store is left out, since nobody saw it, and the thread stands right after it.
    Row {
        words: "until i l 0 2 0",
        files: UPDATES,
        text: Content::Text(
            "thread 0 step 2 instr 3/r0 0/r1 1/r2 0/r3 0/r4 0/r5 0/r6 0/r7 0/r8 0/r9 0/r10 0/r11 0/r12 0/r13 0/r14 0/r15 0/run 0 2/",
        ),
        ..DONE
    },
    // No history has this log, but runs of the threads have it.
    Row {
        words: "until i l 1 2 0",
        files: &[("i", HIDDEN_STORE), ("l", HIDDEN_STORE_LOG)],
        text: Content::Text(
            "thread 1 step 2 instr 2/r0 0/r1 0/r2 3/r3 1/r4 0/r5 0/r6 0/r7 0/r8 0/r9 0/r10 0/r11 0/r12 0/r13 0/r14 0/r15 0/run 0 3/run 1 2/",
        ),
        ..DONE
    },
    // No runs have this log, but up to this step nothing is amiss: a third step is yet to come,
    Row {
        words: "until i l 0 2 0",
        files: &[("i", OWN_WRITE_READ), ("l", ONE_MORE_STEP_LOG)],
        text: Content::Text(
            "thread 0 step 2 instr 3/r0 0/r1 7/r2 7/r3 0/r4 0/r5 0/r6 0/r7 0/r8 0/r9 0/r10 0/r11 0/r12 0/r13 0/r14 0/r15 0/run 0 2/",
        ),
        ..DONE
    },
    // or an entry may yet be seen once more.
    Row {
        words: "until i l 0 2 0",
        files: &[("i", OWN_WRITE_READ), ("l", LONGER_ENTRY_LOG)],
        text: Content::Text(
            "thread 0 step 2 instr 3/r0 0/r1 7/r2 7/r3 0/r4 0/r5 0/r6 0/r7 0/r8 0/r9 0/r10 0/r11 0/r12 0/r13 0/r14 0/r15 0/run 0 2/",
        ),
        ..DONE
    },
    // A thread without memory steps, at its start
    Row {
        words: "until i l 0 0 4294967295",
        files: &[("i", TAKER), ("l", SEVEN_TO_NINE_LOG)],
        text: Content::Text(
            "thread 0 step 0 instr 0/r0 0/r1 0/r2 0/r3 0/r4 0/r5 0/r6 0/r7 0/r8 0/r9 0/r10 0/r11 0/r12 0/r13 0/r14 0/r15 0/",
        ),
        ..DONE
    },
    Row {
        words: "until i l 0 1 0",
        files: &[("i", OWN_WRITE_READ), ("l", OWN_WRITE_READ_LOG)],
        text: Content::Text(
            "thread 0 step 1 instr 2/r0 0/r1 7/r2 0/r3 0/r4 0/r5 0/r6 0/r7 0/r8 0/r9 0/r10 0/r11 0/r12 0/r13 0/r14 0/r15 0/run 0 1/",
        ),
        ..DONE
    },
];

// What stands in the way: image and log are loaded, read and compared first, then the step is looked for, and an order for it.
pub static STOPPED: [Row; 18] = [
    Row {
        words: "until i l 1 5 0",
        status: "no such step: 2 4",
        ..SHOWN_ROW
    },
    Row {
        words: "until i l 0 268435455 0",
        status: "no such step: 2 2",
        ..SHOWN_ROW
    },
    Row {
        words: "until i l 2 0 0",
        status: "no such step: 2 0",
        ..SHOWN_ROW
    },
    Row {
        words: "until i l 14 1 0",
        status: "no such step: 2 0",
        ..SHOWN_ROW
    },
    // The thread reads the initial value where the log has a write of a step that writes nothing.
    Row {
        words: "until i l 0 1 0",
        files: &[("i", TWO_LOADS), ("l", TWO_LOADS_LOG)],
        status: "strays thread 0: entry 0 0 1:1 1 1, not 0 initial 1 1",
        ..DONE
    },
    // The other thread does not, and takes nothing of this one.
    Row {
        words: "until i l 1 1 0",
        files: &[("i", TWO_LOADS), ("l", TWO_LOADS_LOG)],
        text: Content::Text(
            "thread 1 step 1 instr 1/r0 0/r1 5/r2 0/r3 0/r4 0/r5 0/r6 0/r7 0/r8 0/r9 0/r10 0/r11 0/r12 0/r13 0/r14 0/r15 0/run 1 1/",
        ),
        ..DONE
    },
    Row {
        words: "until i l 0 3 0",
        files: &[("i", OWN_WRITE_READ), ("l", ONE_MORE_STEP_LOG)],
        status: "strays thread 0: 2 of 3",
        ..DONE
    },
    Row {
        words: "until i l 0 3 0",
        files: &[("i", OWN_WRITE_READ), ("l", LONGER_ENTRY_LOG)],
        status: "strays thread 0: entry 0 0 0:1 2 3, not 0 0:1 2 2",
        ..DONE
    },
    Row {
        words: "until i l 0 1 0",
        files: &[("i", CROSSED), ("l", CROSSED_LOG)],
        status: "budget spent",
        ..DONE
    },
    Row {
        words: "until i l 0 1 1",
        files: &[("i", CROSSED), ("l", CROSSED_LOG)],
        status: "no schedule",
        ..DONE
    },
    // That there is no such step is told before that no order respects the log.
    Row {
        words: "until i l 0 6 0",
        files: &[("i", CROSSED), ("l", CROSSED_LOG)],
        status: "no such step: 4 5",
        ..DONE
    },
    // The prints are compared before the step is looked for.
    Row {
        words: "until i l 9 1 0",
        files: &[("i", SMALLEST), ("l", OWN_WRITE_READ_LOG)],
        status: "wrong program: b4ccf6448bc45676a64744e28389f90c21d30e4190e9c413417dc0164e6fc1e5 1 1, not 03c0797a3fa7c306a00ed5c26b8fc1a0cdcc1dfd5ace36b9d02276973157950b 1 1",
        ..DONE
    },
    Row {
        words: "until i l 0 1 0",
        files: &[("i", OWN_WRITE_READ_LOG), ("l", Content::Text("no log"))],
        status: "image refused kind 2 thread 0 at 0",
        ..DONE
    },
    Row {
        words: "until i l 0 1 0",
        files: &[("i", OWN_WRITE_READ), ("l", OLD_LOG)],
        status: "log refused kind 2 at 0",
        ..DONE
    },
    Row {
        words: "until i l 0 1 0",
        files: &[("l", OWN_WRITE_READ_LOG)],
        status: "store fault",
        ..DONE
    },
    Row {
        words: "until i l 0 1 0",
        files: &[("i", OWN_WRITE_READ)],
        status: "store fault",
        ..DONE
    },
    Row {
        words: "until i l 0 1",
        files: MESSAGES,
        status: "usage",
        ..DONE
    },
    Row {
        words: "until i l 1 3 0",
        files: MESSAGES,
        puts: &[2],
        status: "output fault",
        text: Content::Text("threa"),
        ..DONE
    },
];
