// Texts and what is answered, as tables. In a row a slash stands for the end of a line.
use super::programs::lines_of;
use assembler::{assemble, list};
use std::alloc::{AllocError, Global};
use std::test::Fail;

// Line and kind of the first fault, and the text. Within a line the faults are looked for in the order 1, 5, 9, 6, 2, 3,
// 4, 7, 8: rows with more than one fault show it.
const REFUSED: &str = "\
1 1 \u{7f}
1 1 \u{1} halt
1 1 .words 1 ; \u{0}
2 1 .thread/halt ; \u{e9}
2 1 .thread/9x: \u{1} halt
1 5 x: .thread
1 5 x: .words 2
1 5 9x: halt
1 5 x: .init 99 99999999999
2 5 .thread/9x: halt
2 5 .thread/x-y: halt
2 5 .thread/: halt
2 5 .thread/.thread: halt
3 5 .thread/x:/x: .thread
3 5 .thread/x:/9x: fetch
3 5 .thread/jmp 1/x: .thread
1 9 halt
1 9 x:
1 9 x: fetch
1 9 x: .foo
1 9 halt 1
1 9 set r16 4294967296
1 9 jmp nowhere
1 9 
2 9 .words 3
2 9 .init 0 1/cas r1 r2 r3 4
3 9 ; nothing//
3 6 .thread/x:/x:
3 6 .thread/x: halt/x: halt 1
3 6 .thread/x:/x: set r1 4294967296
3 6 .thread/x:/x: jmp y
4 6 .thread/x: halt/y:/x: fetch r1
6 6 .thread/x: halt/.thread/X:/x: mov r1 r2/X: halt
2 2 .thread/fetch r1
1 2 fetch
1 2 .foo
1 2 .wordss 1
2 2 .thread/x: .foo
2 2 .thread/x: y:
2 2 .thread/x : halt
2 2 .thread/.words 3
2 2 .thread/words 3
2 2 .init 0 1/.words 3
2 2 .words 3/.words 3
2 2 .thread/.init 0 99999999999
2 2 .thread/.words
2 2 .thread/.init
2 2 .thread/halts
2 2 .thread/ad r1 r2 r3
2 2 .thread/cas4 r1 r2 r3 4
2 2 .thread/const r1 1
2 3 .thread/halt r1
2 3 .thread/set r1
2 3 .thread/set r1 1 1
2 3 .thread/set r16 1
2 3 .thread/set r01 1
2 3 .thread/set r00 1
2 3 .thread/set r015 1
2 3 .thread/set r 1
2 3 .thread/set x1 1
2 3 .thread/set 1 1
2 3 .thread/set r1 x
2 3 .thread/set r1 r1
2 3 .thread/set r99 4294967296
2 3 .thread/set r1 0x
2 3 .thread/set r1 0xg
2 3 .thread/set r1 00x1
2 3 .thread/set r1 +1
2 3 .thread/set r1 1_000
2 3 .thread/x: load r1 r0 x
2 3 .thread/cas r1 r2 r3
2 3 .thread/cas r1 r2 4
2 3 .thread/cas r1 r2 r3 4 5
2 3 .thread/cas r1 r2 r16 4294967296
2 3 .thread/jmp
2 3 .thread/jmp 0 0
2 3 .thread/jmp r1 0
2 3 .thread/jmp nowhere 99
2 3 .thread/mov r1
2 3 .thread/mov r1 r2 r3
2 3 .thread/mov r1 2
2 3 .thread/add r1 r2 3
2 3 .thread/add r1 r2
2 3 .thread/xchg r1 r2
2 3 .thread/out
2 3 .thread/jlt r1 r16 nowhere
2 3 .thread/jeq r1 r0 -1
2 3 .thread/jeq r1 r0 9x
2 3 .thread/jeq r1 r0 9 9
2 3 .thread/jmp 9x/9x:
1 3 .words
1 3 .words 0x
1 3 .words 0 0
1 3 .words r1
1 3 .init 99 a
1 3 .init 0
1 3 .init 0 1 2
1 3 .thread 1
1 4 .words 0
1 4 .words 4097
1 4 .words 0x1001
1 4 .words 99999999999999999999
1 4 .init 16 1
2 4 .words 1/.init 1 1
1 4 .init 0 4294967296
2 4 .thread/set r1 4294967296
2 4 .thread/set r1 0x100000000
2 4 .thread/cas r1 r2 r3 4294967296
2 4 .thread/jeq r0 r0 2
2 4 .thread/jmp 2
2 4 .thread/jmp 99999999999999999999
2 4 .thread/jmp 2/.thread/halt
2 4 .thread/jmp 2/.init 0 1
2 4 .thread/jmp 3/fetch
3 4 .thread/halt/jne r1 r2 4/x: .thread
2 7 .thread/jeq r0 r0 nowhere
3 7 .words 1/.thread/jmp nowhere
2 7 .thread/jmp x/.thread/x: halt
4 7 .thread/x: halt/.thread/jmp x
2 7 .thread/jmp x/x: .thread
2 7 .thread/jlt r0 r0 X/x: halt
2 7 .thread/jne r0 r0 r1
2 7 .thread/jmp jmp
3 2 .thread/jmp 2/fetch
3 2 .thread/jmp 2/.foo
3 2 .thread/jmp 2/x: y:
3 2 .thread/jmp x/x: .foo
3 2 .thread/jmp 1/.init 0 1
3 1 .thread/jmp x/x: halt \u{1}
16 8 .thread/.thread/.thread/.thread/.thread/.thread/.thread/.thread/.thread/.thread/.thread/.thread/.thread/.thread/.thread/.thread
17 8 .words 1/.thread/.thread/.thread/.thread/.thread/.thread/.thread/.thread/.thread/.thread/.thread/.thread/.thread/.thread/.thread/.thread/halt
16 3 .thread/.thread/.thread/.thread/.thread/.thread/.thread/.thread/.thread/.thread/.thread/.thread/.thread/.thread/.thread/.thread 1
16 5 .thread/.thread/.thread/.thread/.thread/.thread/.thread/.thread/.thread/.thread/.thread/.thread/.thread/.thread/.thread/x: .thread
2 3 .thread/out/fetch
3 2 .thread/halt/.words 1/\u{7f}";

// A text, and the canonical text of its program.
const ACCEPTED: &str = "\
; message passing/.words 2/.thread/set r1, 42/store r1 r0 0/set r2 1/store r2 r0 1/.thread/wait: load r1 r0 1/jeq r1 r0 wait/load r2 r0 0/out r2|.words 2/.thread/set r1 42/store r1 r0 0/set r2 1/store r2 r0 1/.thread/load r1 r0 1/jeq r1 r0 0/load r2 r0 0/out r2/
.thread|.words 16/.thread/
.thread/halt|.words 16/.thread/halt/
/ ; no item/ .WORDS 0x10;/.Init 3,0X00Ff/.init 3 007/.init 1 0/.THREAD/|.words 16/.init 3 7/.thread/
.thread/x:/y:|.words 16/.thread/
.words 1/.thread/_a1: sToRe R15, r0\t4294967295 ; all/end:/jeq r0 r10 end/jeq r0 r0 2/jeq r0 r0 _a1|.words 1/.thread/store r15 r0 4294967295/jeq r0 r10 1/jeq r0 r0 2/jeq r0 r0 0/
.thread/jeq r0 r0 x/halt/x:/.thread/x: addi r1 r2 3/jeq r0 r0 x|.words 16/.thread/jeq r0 r0 2/halt/.thread/addi r1 r2 3/jeq r0 r0 0/
.thread/r1:/set: jeq r0 r0 r1|.words 16/.thread/jeq r0 r0 0/
.thread/halt: halt;halt/jmp halt/ ,jmp,,jmp, \r/jmp:|.words 16/.thread/halt/jmp 0/jmp 3/
.words 4096/.init 0x0fff 4294967295/.init 0 1/.thread/.thread|.words 4096/.init 0 1/.init 4095 4294967295/.thread/.thread/
.thread/halt/set r1 2/mov r3 r4/add r5 r6 r7/sub r8 r9 r10/mul r11 r12 r13/and r14 r15 r0/or r1 r2 r3/xor r4 r5 r6/shl r7 r8 r9/shr r10 r11 r12/addi r13 r14 15/jmp 16/jeq r1 r2 17/jne r3 r4 18/jlt r5 r6 19/out r7/load r8 r9 20/store r10 r11 21/xchg r12 r13 22/cas r14 r15 r0 23/in r2|.words 16/.thread/halt/set r1 2/mov r3 r4/add r5 r6 r7/sub r8 r9 r10/mul r11 r12 r13/and r14 r15 r0/or r1 r2 r3/xor r4 r5 r6/shl r7 r8 r9/shr r10 r11 r12/addi r13 r14 15/jmp 16/jeq r1 r2 17/jne r3 r4 18/jlt r5 r6 19/out r7/load r8 r9 20/store r10 r11 21/xchg r12 r13 22/cas r14 r15 r0 23/in r2/
.thread/CAS R1 R2 R3 0x4/XcHg r1 r2 3/JMP Up/Up: jNe r1 r2 Up/JLT r1,r2,end/MOV r15 R0/sHR r1 r2 r3/end:|.words 16/.thread/cas r1 r2 r3 4/xchg r1 r2 3/jmp 3/jne r1 r2 3/jlt r1 r2 7/mov r15 r0/shr r1 r2 r3/";

// The line and the kind of the fault in the bytes; 0 and 0 where there is none.
fn fault_in(alloc: Global, bytes: &[u8]) -> (u32, u8) {
    if bytes.len() >= 1_000_000 {
        return (0, 0);
    }
    match assemble(alloc, bytes) {
        Ok(_program) => (0, 0),
        Err(fault) => (fault.line, fault.kind.code()),
    }
}

#[test]
fn faults_of_texts_are_told(rt: HostRuntime) -> Result<(), Fail> {
    let alloc = rt.alloc();
    for row in REFUSED.split('\n') {
        let (line, rest) = row.split_once(' ').unwrap_or(("", ""));
        let (kind, text) = rest.split_once(' ').unwrap_or(("", ""));
        let bytes = lines_of(alloc, text)?;
        let (at, what) = fault_in(alloc, &bytes);
        assert_eq!(rt; line.parse::<u32>(), Ok(at), "{row}");
        assert_eq!(rt; kind.parse::<u8>(), Ok(what), "{row}");
    }
    Ok(())
}

// The canonical text of the bytes' program; None where they are refused.
fn listed(alloc: Global, bytes: &[u8]) -> Option<Vec<u8>> {
    if bytes.len() >= 1_000_000 {
        return None;
    }
    let program = assemble(alloc, bytes).ok()?;
    list(alloc, &program).ok()
}

#[test]
fn programs_are_listed(rt: HostRuntime) -> Result<(), Fail> {
    let alloc = rt.alloc();
    for row in ACCEPTED.split('\n') {
        let (text, canonical) = row.split_once('|').unwrap_or(("", ""));
        let canonical = lines_of(alloc, canonical)?;
        for text in [lines_of(alloc, text)?.as_slice(), canonical.as_slice()] {
            assert!(rt;
                listed(alloc, text).is_some_and(|found| found.as_slice() == canonical.as_slice()),
                "{row}"
            );
        }
    }
    Ok(())
}

// A thread of so many instructions, and one more line.
fn long_thread(alloc: Global, count: u32, last: &[u8]) -> Result<Vec<u8>, AllocError> {
    let mut bytes = Vec::from_slice(alloc, b".thread\n")?;
    for _ in 0..count {
        bytes.extend_from_slice(b"jeq r1 r2 end\n")?;
    }
    bytes.extend_from_slice(last)?;
    Ok(bytes)
}

// What follows a thread of 4,096 instructions, and the line and the kind of the fault.
static LAST_LINES: [(&str, (u32, u8)); 5] = [
    ("end:", (0, 0)),
    ("end: halt", (4_098, 8)),
    ("end: set r1 4294967296", (4_098, 4)),
    ("end: jeq r1 r1 no", (4_098, 7)),
    ("end: halt 1", (4_098, 3)),
];

#[test]
fn a_thread_is_not_too_long(rt: HostRuntime) -> Result<(), Fail> {
    let alloc = rt.alloc();
    for (last, fault) in &LAST_LINES {
        let text = long_thread(alloc, 4_096, last.as_bytes())?;
        assert_eq!(rt; fault_in(alloc, &text), *fault, "{last}");
    }
    Ok(())
}
