// What threads may share, and what may move between them.
use crate::cores::RunReport;
use crate::inputs::Inputs;
use crate::program::{Limits, Program};

// Threads share a program, its limits and its inputs, and a report moves to the thread that waits for it.
fn crosses(program: &Program, limits: &Limits, inputs: &Inputs, report: RunReport) -> RunReport {
    is_shared(program);
    is_shared(limits);
    is_shared(inputs);
    is_moved(report)
}

fn is_shared<T: Send + Sync>(_: &T) {}

fn is_moved<T: Send>(value: T) -> T {
    value
}
