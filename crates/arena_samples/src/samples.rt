// Small programs that show what concurrent programs do, as text.

/// Store buffering: each thread writes its own word and then reads the other one. Never do both read 0.
pub const STORE_BUFFER: &str = "\
.words 2
.thread
set r1 1
store r1 r0 0
load r2 r0 1
out r2
.thread
set r1 1
store r1 r0 1
load r2 r0 0
out r2
";

/// Message passing: one thread writes a value and then a flag, the other waits for the flag and then reads the value, which
/// is always 42.
pub const MESSAGE_PASSING: &str = "\
.words 2
.thread
set r1 42
store r1 r0 0
set r2 1
store r2 r0 1
.thread
wait: load r1 r0 1
jeq r1 r0 wait
load r2 r0 0
out r2
";

/// Lost update: two threads each add 1 to a counter by a load and a store. Where both have read 0, it ends at 1.
pub const LOST_UPDATE: &str = "\
.words 1
.thread
load r1 r0 0
addi r1 r1 1
store r1 r0 0
out r1
.thread
load r1 r0 0
addi r1 r1 1
store r1 r0 0
out r1
";

/// Two flags: each thread raises its flag and waits for the other one. Run one after the other, they would wait for ever.
pub const TWO_FLAGS: &str = "\
.words 2
.thread
set r1 1
store r1 r0 0
wait: load r2 r0 1
jeq r2 r0 wait
.thread
set r1 1
store r1 r0 1
wait: load r2 r0 0
jeq r2 r0 wait
";
