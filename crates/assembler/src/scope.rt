// The labels and the length of a whole thread, which targets are tested against.
ghost use Rattle.std.specs.Prelude.{◌≡◌, ◌+◌, ◌<◌, ◌≤◌, ◌^◌, length, None, IfOk, OnOk};
ghost use Rattle.assembler.specs.Lines.{lines_of};

use crate::lines::split_line;
use crate::parts::{LineParts, read_line};
use indexmap::IndexMap;
use std::alloc::{AllocError, Global};

/// The first line that has a label, and the place of the instruction that follows it.
#[derive(Clone, Copy, Debug, PartialEq, Eq)]
pub struct Label {
    pub line: u32,
    pub place: u32,
}

/// A thread's labels, and how many instructions it has.
#[derive(Drop)]
pub struct Scope<'a> {
    pub labels: IndexMap<&'a [u8], Label>,
    pub len: u32,
}

impl<'a> Scope<'a> {
    ghost use Rattle.assembler.specs.Labels.{find_label, with_label, with_line, scope_from, no_scope};
    ghost use Rattle.assembler.specs.Seen.{labels_seen, scope_seen, parts_seen};

    pub fn new(alloc: Global) -> Scope<'a>
        ensures { scope_seen result ≡ no_scope }
    {
        Scope {
            labels: IndexMap::new(alloc),
            len: 0,
        }
    }

    /// The label with this name, if the thread has it.
    pub fn find(&self, name: &[u8]) -> Option<Label>
        ensures { result ≡ find_label name.now (labels_seen self.now.labels) }
    {
        self.labels.get(name).copied()
    }

    // A name that has no label yet gets one.
    fn add_label(&mut self, line: u32, name: &'a [u8]) -> Result<(), AllocError>
        ensures ok { OnOk result (labels_seen self.new.labels ≡ with_label (labels_seen self.old.labels) line self.old.len (Some name.now)) }
        ensures len { self.new.len ≡ self.old.len }
    {
        if self.find(name).is_none() {
            let place = self.len;
            self.labels.insert(name, Label { line, place })?;
        }
        Ok(())
    }

    // The label and the instruction of one more line are added.
    fn add_line(&mut self, line: u32, parts: LineParts<'a>) -> Result<(), AllocError>
        requires { self.old.len + 1 < 2 ^ 32 }
        ensures ok { OnOk result (scope_seen self.new ≡ with_line (scope_seen self.old) line (parts_seen parts.entry)) }
        ensures len { self.new.len ≤ self.old.len + 1 }
    {
        if let Some(name) = parts.label {
            self.add_label(line, name)?;
        }
        self.len += parts.head.instructions();
        Ok(())
    }

    /// The scope of the thread whose lines these are, up to the next line that begins a thread. The first has this number.
    pub fn of(alloc: Global, text: &'a [u8], line: u32) -> Result<Scope<'a>, AllocError>
        requires { line + length text.now < 2 ^ 32 }
        ensures { IfOk result (λ scope. scope_seen scope ≡ scope_from no_scope line (lines_of text.now)) }
    {
        let mut scope = Scope::new(alloc);
        let mut number = line;
        let mut rest = text;
        while !rest.is_empty() {
            let (first, after) = split_line(rest);
            let parts = read_line(first);
            if parts.head.begins_thread() {
                return Ok(scope);
            }
            scope.add_line(number, parts)?;
            number += 1;
            rest = after;
        }
        Ok(scope)
    }
}
