// What the lines of a text have said so far, and what one more line adds or has wrong.
ghost use Rattle.std.specs.Prelude.{◌≡◌, ◌+◌, ◌<◌, ◌^◌, length, IfOk, OnOk, option_copied};
ghost use Rattle.assembler.specs.Lines.{lines_of, tokens_of};

use crate::asm_fault::AsmKind;
use crate::head::Head;
use crate::lines::next_token;
use crate::numerals::{one_number, two_numbers};
use crate::operands::read_instr;
use crate::parts::{LineParts, is_plain, read_line};
use crate::scope::Scope;
use machine::{Instr, Op};
use std::alloc::{AllocError, Global};
use std::mem;

/// The program so far: the initial values; the threads before the current one; the current one's instructions so far,
/// and its labels and length, as all its lines give them.
#[derive(Drop)]
pub struct Assembly<'a> {
    pub words: Vec<u32>,
    pub is_fresh: bool,
    pub has_begun: bool,
    pub done: Vec<Vec<Instr>>,
    pub code: Vec<Instr>,
    pub scope: Scope<'a>,
}

impl<'a> Assembly<'a> {
    ghost use Rattle.assembler.specs.Labels.{is_twice};
    ghost use Rattle.assembler.specs.Progress.{start, threads_of, ended, take_words, take_init, take_thread, take_instr};
    ghost use Rattle.assembler.specs.Progress.{take_item_of, take_line};
    ghost use Rattle.assembler.specs.SeenProgress.{progress_of, Takes};
    ghost use Rattle.assembler.specs.Seen.{parts_seen, scope_seen};

    /// Before the first line: 16 words, and no thread.
    pub fn start(alloc: Global) -> Result<Assembly<'a>, AllocError>
        ensures { IfOk result (λ assembly. progress_of assembly ≡ start) }
    {
        Ok(Assembly {
            words: vec![in alloc; 0; 16]?,
            is_fresh: true,
            has_begun: false,
            done: Vec::new(alloc),
            code: Vec::new(alloc),
            scope: Scope::new(alloc),
        })
    }

    // `.words N`
    fn take_words(&mut self, alloc: Global, operands: &[u8]) -> Result<(), AsmKind>
        ensures { Takes (take_words (progress_of self.old) (tokens_of operands.now)) result (progress_of self.new) }
    {
        match one_number(operands) {
            None => Err(AsmKind::Operand),
            Some(n) if n < 1 || n > 4096 => Err(AsmKind::Number),
            Some(n) => {
                self.words = vec![in alloc; 0; n as usize]?;
                self.is_fresh = false;
                Ok(())
            }
        }
    }

    // `.init W V`
    fn take_init(&mut self, operands: &[u8]) -> Result<(), AsmKind>
        ensures { Takes (take_init (progress_of self.old) (tokens_of operands.now)) result (progress_of self.new) }
    {
        match two_numbers(operands) {
            None => Err(AsmKind::Operand),
            Some((word, value)) => {
                if word >= self.words.len() as u64 || value > 4_294_967_295 {
                    return Err(AsmKind::Number);
                }
                self.words[word as usize] = value as u32;
                self.is_fresh = false;
                Ok(())
            }
        }
    }

    // How many threads have begun.
    fn threads(&self) -> usize
        ensures { result ≡ length (threads_of (progress_of self.now)) }
    {
        if self.has_begun {
            self.done.len() + 1
        } else {
            self.done.len()
        }
    }

    /// The current thread is over.
    pub fn end_thread(&mut self, alloc: Global) -> Result<(), AllocError>
        ensures ok { OnOk result (progress_of self.new ≡ ended (progress_of self.old)) }
    {
        let code = mem::replace(&mut self.code, Vec::new(alloc));
        if self.has_begun {
            self.done.push(code)?;
        }
        Ok(())
    }

    // `.thread`
    fn take_thread(
        &mut self,
        alloc: Global,
        line: u32,
        operands: &[u8],
        after: &'a [u8],
    ) -> Result<(), AsmKind>
        requires { line + 1 + length after.now < 2 ^ 32 }
        ensures { Takes (take_thread (progress_of self.old) line (tokens_of operands.now) (lines_of after.entry.now)) result (progress_of self.new) }
    {
        if next_token(operands).is_some() {
            return Err(AsmKind::Operand);
        }
        if self.threads() >= 15 {
            return Err(AsmKind::TooMany);
        }
        self.end_thread(alloc)?;
        self.scope = Scope::of(alloc, after, line + 1)?;
        self.is_fresh = false;
        self.has_begun = true;
        Ok(())
    }

    // An instruction.
    fn take_instr(&mut self, op: Op, operands: &[u8]) -> Result<(), AsmKind>
        ensures { Takes (take_instr (progress_of self.old) op (tokens_of operands.now)) result (progress_of self.new) }
    {
        let instr = read_instr(op, &self.scope, operands)?;
        if self.code.len() >= 4096 {
            return Err(AsmKind::TooMany);
        }
        self.code.push(instr)?;
        self.is_fresh = false;
        Ok(())
    }

    fn take_item(
        &mut self,
        alloc: Global,
        line: u32,
        parts: LineParts<'a>,
        after: &'a [u8],
    ) -> Result<(), AsmKind>
        requires { line + 1 + length after.now < 2 ^ 32 }
        ensures { Takes (take_item_of (progress_of self.old) line (parts_seen parts.entry) (lines_of after.entry.now)) result (progress_of self.new) }
    {
        match parts.head {
            Head::Nothing => Ok(()),
            Head::Words if self.is_fresh => self.take_words(alloc, parts.operands),
            Head::Init if !self.has_begun => self.take_init(parts.operands),
            Head::Thread => self.take_thread(alloc, line, parts.operands, after),
            Head::Operation(op) => self.take_instr(op, parts.operands),
            Head::Words | Head::Init | Head::Unknown => Err(AsmKind::Mnemonic),
        }
    }

    // Whether an earlier line of the thread has this line's label.
    fn is_twice(&self, line: u32, label: Option<&[u8]>) -> bool
        ensures { result ≡ is_twice (scope_seen self.now.scope).labels line (option_copied label.entry) }
    {
        match label {
            None => false,
            Some(name) => match self.scope.find(name) {
                None => false,
                Some(label) => label.line != line,
            },
        }
    }

    /// Takes one more line, after which this text follows.
    pub fn take_line(
        &mut self,
        alloc: Global,
        line: u32,
        bytes: &'a [u8],
        after: &'a [u8],
    ) -> Result<(), AsmKind>
        requires { line + 1 + length after.now < 2 ^ 32 }
        ensures { Takes (take_line (progress_of self.old) line bytes.entry.now (lines_of after.entry.now)) result (progress_of self.new) }
    {
        if !is_plain(bytes) {
            return Err(AsmKind::NotAscii);
        }
        let parts = read_line(bytes);
        if parts.has_bad_label() {
            return Err(AsmKind::Label);
        }
        if parts.wants_thread() && !self.has_begun {
            return Err(AsmKind::NoThread);
        }
        if self.is_twice(line, parts.label) {
            return Err(AsmKind::LabelTwice);
        }
        self.take_item(alloc, line, parts, after)
    }
}
