// `show` and `upgrade`: logs that are read, and the first faults of other bytes.
use super::contents::Content;
use super::recordings::OWN_WRITE_READ_LOG;
use super::rows::{DONE, Row};

// The log of a thread that reads what it wrote, in version 1 of the format.
pub const OLD_LOG: Content = Content::Hex(
    "4c4c4731010001b4ccf6448bc45676a64744e28389f90c21d30e4190e9c413417dc0164e6fc1e50000006400000064000000640000000000000000020000000400000001100000010000100000010000000200000002",
);

// The log of a thread that reads word 0, word 1 and word 0 again: one entry round another.
pub const READS_ROUND_LOG: Content = Content::Hex(
    "4c4c473201000222ec1cb41d85003fe5172f77ea21df3f1270283e8f906e66df2301cde90553b4000000640000006400000064000000000000000003000000030000000200000000000000000000000000000000000000000001000000030001000000000000000200000002",
);

// Logs that are shown and upgraded.
pub static SHOWN: [Row; 3] = [
    Row {
        words: "show l",
        files: &[("l", OWN_WRITE_READ_LOG)],
        text: Content::Text(
            "program b4ccf6448bc45676a64744e28389f90c21d30e4190e9c413417dc0164e6fc1e5/words 1/limits 100 100 100/thread 0 halted steps 2 instr 4 entries 1 inputs 0/entry 0 source 0:1 first 2 last 2/word 0 last 0:1/",
        ),
        ..DONE
    },
    Row {
        words: "show l",
        files: &[("l", READS_ROUND_LOG)],
        text: Content::Text(
            "program 22ec1cb41d85003fe5172f77ea21df3f1270283e8f906e66df2301cde90553b4/words 2/limits 100 100 100/thread 0 halted steps 3 instr 3 entries 2 inputs 0/entry 0 source initial first 1 last 3/entry 1 source initial first 2 last 2/",
        ),
        ..DONE
    },
    Row {
        words: "upgrade o l",
        files: &[("o", OLD_LOG)],
        after: &[("l", OWN_WRITE_READ_LOG)],
        ..DONE
    },
];

// Bytes that are no logs.
pub static REFUSED: [Row; 20] = [
    // The first byte 0
    Row {
        words: "show l",
        files: &[(
            "l",
            Content::Hex(
                "004c4732010001b4ccf6448bc45676a64744e28389f90c21d30e4190e9c413417dc0164e6fc1e5000000640000006400000064000000000000000002000000040000000100000000100000010000100000010000000200000002",
            ),
        )],
        status: "log refused kind 2 at 0",
        ..DONE
    },
    // No threads
    Row {
        words: "show l",
        files: &[(
            "l",
            Content::Hex(
                "4c4c4732000001b4ccf6448bc45676a64744e28389f90c21d30e4190e9c413417dc0164e6fc1e5000000640000006400000064000000000000000002000000040000000100000000100000010000100000010000000200000002",
            ),
        )],
        status: "log refused kind 3 at 4",
        ..DONE
    },
    // An end that there is not
    Row {
        words: "show l",
        files: &[(
            "l",
            Content::Hex(
                "4c4c4732010001b4ccf6448bc45676a64744e28389f90c21d30e4190e9c413417dc0164e6fc1e5000000640000006400000064070000000000000002000000040000000100000000100000010000100000010000000200000002",
            ),
        )],
        status: "log refused kind 4 at 51",
        ..DONE
    },
    // An address at an end without one
    Row {
        words: "show l",
        files: &[(
            "l",
            Content::Hex(
                "4c4c4732010001b4ccf6448bc45676a64744e28389f90c21d30e4190e9c413417dc0164e6fc1e5000000640000006400000064000000000100000002000000040000000100000000100000010000100000010000000200000002",
            ),
        )],
        status: "log refused kind 4 at 51",
        ..DONE
    },
    // A last tag of a step that was not taken
    Row {
        words: "show l",
        files: &[(
            "l",
            Content::Hex(
                "4c4c4732010001b4ccf6448bc45676a64744e28389f90c21d30e4190e9c413417dc0164e6fc1e5000000640000006400000064000000000000000002000000040000000100000000100000030000100000010000000200000002",
            ),
        )],
        status: "log refused kind 7 at 72",
        ..DONE
    },
    // An entry from step 0 on
    Row {
        words: "show l",
        files: &[(
            "l",
            Content::Hex(
                "4c4c4732010001b4ccf6448bc45676a64744e28389f90c21d30e4190e9c413417dc0164e6fc1e5000000640000006400000064000000000000000002000000040000000100000000100000010000100000010000000000000002",
            ),
        )],
        status: "log refused kind 5 at 76",
        ..DONE
    },
    // An entry that ends before it begins
    Row {
        words: "show l",
        files: &[(
            "l",
            Content::Hex(
                "4c4c4732010001b4ccf6448bc45676a64744e28389f90c21d30e4190e9c413417dc0164e6fc1e5000000640000006400000064000000000000000002000000040000000100000000100000010000100000010000000300000002",
            ),
        )],
        status: "log refused kind 6 at 76",
        ..DONE
    },
    // An entry past the last step
    Row {
        words: "show l",
        files: &[(
            "l",
            Content::Hex(
                "4c4c4732010001b4ccf6448bc45676a64744e28389f90c21d30e4190e9c413417dc0164e6fc1e5000000640000006400000064000000000000000002000000040000000100000000100000010000100000010000000200000003",
            ),
        )],
        status: "log refused kind 6 at 76",
        ..DONE
    },
    // A source that is no step
    Row {
        words: "show l",
        files: &[(
            "l",
            Content::Hex(
                "4c4c4732010001b4ccf6448bc45676a64744e28389f90c21d30e4190e9c413417dc0164e6fc1e5000000640000006400000064000000000000000002000000040000000100000000100000010000100000030000000200000002",
            ),
        )],
        status: "log refused kind 7 at 76",
        ..DONE
    },
    // A word that there is not
    Row {
        words: "show l",
        files: &[(
            "l",
            Content::Hex(
                "4c4c4732010001b4ccf6448bc45676a64744e28389f90c21d30e4190e9c413417dc0164e6fc1e5000000640000006400000064000000000000000002000000040000000100000000100000010001100000010000000200000002",
            ),
        )],
        status: "log refused kind 8 at 76",
        ..DONE
    },
    // Two entries announced
    Row {
        words: "show l",
        files: &[(
            "l",
            Content::Hex(
                "4c4c4732010001b4ccf6448bc45676a64744e28389f90c21d30e4190e9c413417dc0164e6fc1e5000000640000006400000064000000000000000002000000040000000200000000100000010000100000010000000200000002",
            ),
        )],
        status: "log refused kind 1 at 90",
        ..DONE
    },
    // No entry announced
    Row {
        words: "show l",
        files: &[(
            "l",
            Content::Hex(
                "4c4c4732010001b4ccf6448bc45676a64744e28389f90c21d30e4190e9c413417dc0164e6fc1e5000000640000006400000064000000000000000002000000040000000000000000100000010000100000010000000200000002",
            ),
        )],
        status: "log refused kind 11 at 76",
        ..DONE
    },
    // Entries out of order
    Row {
        words: "show l",
        files: &[(
            "l",
            Content::Hex(
                "4c4c473201000222ec1cb41d85003fe5172f77ea21df3f1270283e8f906e66df2301cde90553b4000000640000006400000064000000000000000003000000030000000200000000000000000000000000010000000000000002000000020000000000000000000100000003",
            ),
        )],
        status: "log refused kind 5 at 94",
        ..DONE
    },
    // A pair twice
    Row {
        words: "show l",
        files: &[(
            "l",
            Content::Hex(
                "4c4c473201000222ec1cb41d85003fe5172f77ea21df3f1270283e8f906e66df2301cde90553b4000000640000006400000064000000000000000003000000030000000200000000000000000000000000000000000000000001000000030000000000000000000200000002",
            ),
        )],
        status: "log refused kind 9 at 94",
        ..DONE
    },
    // An overlap
    Row {
        words: "show l",
        files: &[(
            "l",
            Content::Hex(
                "4c4c473201000222ec1cb41d85003fe5172f77ea21df3f1270283e8f906e66df2301cde90553b4000000640000006400000064000000000000000003000000030000000200000000000000000000000000000000000000000001000000030000100000010000000200000002",
            ),
        )],
        status: "log refused kind 10 at 94",
        ..DONE
    },
    // One byte less
    Row {
        words: "show l",
        files: &[(
            "l",
            Content::Hex(
                "4c4c473201000222ec1cb41d85003fe5172f77ea21df3f1270283e8f906e66df2301cde90553b40000006400000064000000640000000000000000030000000300000002000000000000000000000000000000000000000000010000000300010000000000000002000000",
            ),
        )],
        status: "log refused kind 1 at 107",
        ..DONE
    },
    // One byte more
    Row {
        words: "show l",
        files: &[(
            "l",
            Content::Hex(
                "4c4c473201000222ec1cb41d85003fe5172f77ea21df3f1270283e8f906e66df2301cde90553b400000064000000640000006400000000000000000300000003000000020000000000000000000000000000000000000000000100000003000100000000000000020000000200",
            ),
        )],
        status: "log refused kind 11 at 108",
        ..DONE
    },
    Row {
        words: "show l",
        files: &[("l", OLD_LOG)],
        status: "log refused kind 2 at 0",
        ..DONE
    },
    Row {
        words: "upgrade o l",
        files: &[("o", OWN_WRITE_READ_LOG)],
        status: "log refused kind 2 at 0",
        after: &[("l", Content::Absent)],
        ..DONE
    },
    Row {
        words: "show l",
        files: &[],
        status: "store fault",
        ..DONE
    },
];
