// Each status, the number with which the program ends, and its line.
use assembler::{AsmFault, AsmKind};
use light_top::{Print, Status};
use log_file::{LogFault, LogKind, SchedFault, SchedKind};
use machine::{End, ImageFault, ImageKind, InputFault, InputKind};
use replayer::{Difference, Kept};
use schedule_check::{OrderFault, OrderKind};
use stopper::Stray;

const NO_PRINT: Print = Print {
    digest: [0; 32],
    words: 1,
    threads: 1,
};

pub fn statuses() -> [(Status, u8, &'static str); 21] {
    [
        (Status::Ok, 0, ""),
        (Status::Usage, 2, "light: usage/"),
        (Status::StoreFault, 3, "light: store fault/"),
        (Status::TooLong { taken: 8_388_609 }, 4, "light: too long/"),
        (
            Status::ImageRefused(ImageFault {
                kind: ImageKind::Opcode,
                thread: 14,
                at: 4095,
            }),
            5,
            "light: image refused kind 4 thread 14 at 4095/",
        ),
        (
            Status::AsmRefused(AsmFault {
                line: 3,
                kind: AsmKind::Undefined,
            }),
            6,
            "light: text refused line 3 kind 7/",
        ),
        (
            Status::LogRefused(LogFault {
                kind: LogKind::Overlap,
                at: 7_389_550,
            }),
            7,
            "light: log refused kind 10 at 7389550/",
        ),
        (
            Status::WrongProgram {
                logged: NO_PRINT,
                found: Print {
                    digest: [0; 32],
                    words: 4096,
                    threads: 15,
                },
            },
            8,
            "light: wrong program/",
        ),
        (Status::NoSchedule, 9, "light: no schedule/"),
        (Status::Spent, 10, "light: budget spent/"),
        (
            Status::Differs(Difference {
                thread: 14,
                entry: 16384,
                logged: Kept::Tail {
                    steps: 2,
                    instr: 4,
                    end: End::Halted,
                    taken: 0,
                },
                found: Kept::Tail {
                    steps: 2,
                    instr: 3,
                    end: End::BadAddress(4096),
                    taken: 0,
                },
            }),
            11,
            "light: differs thread 14 entry 16384/",
        ),
        (
            Status::SchedRefused(SchedFault {
                kind: SchedKind::Long,
                at: 4_294_967_295,
            }),
            12,
            "light: schedule refused kind 4 at 4294967295/",
        ),
        (
            Status::Disrespects(OrderFault {
                kind: OrderKind::Between,
                i: 7,
                j: 245_759,
            }),
            13,
            "light: order refused kind 6 at 7 245759/",
        ),
        (Status::SinkFault, 14, "light: output fault/"),
        (
            Status::InputRefused(InputFault {
                kind: InputKind::Counts,
            }),
            15,
            "light: inputs refused kind 3/",
        ),
        (
            Status::WrongInputs {
                program: 1,
                inputs: 2,
            },
            16,
            "light: wrong inputs/",
        ),
        (Status::NotLegal, 17, "light: not legal/"),
        (
            Status::NoStep {
                threads: 2,
                steps: 4,
            },
            18,
            "light: no such step/",
        ),
        (
            Status::Strays(Stray::Ended {
                thread: 14,
                wanted: 3,
                taken: 2,
            }),
            19,
            "light: strays thread 14/",
        ),
        (
            Status::ListRefused { line: 65 },
            20,
            "light: list refused line 65/",
        ),
        (Status::Memory, 70, "light: out of memory/"),
    ]
}
