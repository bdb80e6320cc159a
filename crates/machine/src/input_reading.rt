// Reading inputs.
ghost use Rattle.std.specs.Prelude.{◌≡◌, ◌≢◌, ◌↔◌, ℕ, ◌*◌, ◌≤◌, List, if◌then◌else◌, length, sum, Some, None, Ok, true, IfOk, IfErr, IfSome, OnSome, MatchResult};
ghost use Rattle.std.specs.List.{list_all};
ghost use Rattle.std.specs.Int.{w32};
ghost use Rattle.light_base.specs.Numbers.{IsBytes};
ghost use Rattle.machine.specs.declared.input_fault.InputKind.TheVariants.{Memory};
ghost use Rattle.machine.specs.Inputs.{InputsValue, input_lists, is_short_count};
ghost use Rattle.machine.specs.Reading.{after};
ghost use Rattle.machine.specs.InputTexts.{Gives, IsInputsText, fault_of, out_of_memory, head_fault, lists_in, lists_at, inputs_read};

use crate::input_fault::{InputFault, InputKind};
use crate::inputs::{Inputs, MOST_INPUTS, is_count};
use crate::reading::numbers_of;
use std::alloc::{AllocError, Global};

// The number of lists.
#[tactic(auto, unfolding(crate::specs::InputTexts::head_fault))]
fn lists_count(bytes: &[u8]) -> Result<usize, InputFault>
    ensures value { result ≡ after fault_of (head_fault bytes.now) (Ok (lists_in bytes.now)) }
    ensures some { IfOk result (λ count. 1 ≤ count) }
    ensures most { IfOk result (λ count. count ≤ 15) }
    ensures there { IfOk result (λ count. 5 ≤ length bytes.now) }
{
    if bytes.len() < 5 {
        return Err(InputFault::of(InputKind::Short));
    }
    if !bytes.starts_with(b"LIN1") {
        return Err(InputFault::of(InputKind::Magic));
    }
    let count = usize::from(bytes[4]);
    if !is_count(count) {
        return Err(InputFault::of(InputKind::Counts));
    }
    Ok(count)
}

// How many numbers lists with these counts have. None where a list has too many.
fn total_of(counts: &[u32]) -> Option<usize>
    requires { length counts.now ≤ 15 }
    ensures value { result ≡ (if list_all is_short_count counts.now then Some (sum counts.now) else None) }
    ensures short { OnSome result (list_all is_short_count counts.now ≡ true) }
    ensures most { IfSome result (λ total. total ≤ 983040) }
{
    let mut total = 0;
    for count in counts {
        if *count as usize > MOST_INPUTS {
            return None;
        }
        total += *count as usize;
    }
    Some(total)
}

// The lists, which have so many numbers.
fn lists_of(alloc: Global, counts: &[u32], bytes: &[u8]) -> Result<Vec<Vec<u32>>, AllocError>
    requires there { 4 * sum counts.now ≤ length bytes.now }
    requires short { list_all is_short_count counts.now ≡ true }
    ensures { IfOk result (λ lists. input_lists lists.items ≡ lists_at counts.now bytes.now) }
{
    let mut lists = Vec::with_capacity(alloc, counts.len())?;
    let mut rest = bytes;
    for count in counts {
        let count = *count as usize;
        lists.push(numbers_of(alloc, count, rest)?)?;
        rest = rest.split_at(4 * count).1;
    }
    Ok(lists)
}

// The lists of inputs.
fn lists_read(alloc: Global, bytes: &[u8]) -> Result<Vec<Vec<u32>>, InputFault>
    ensures { Gives (λ lists. input_lists lists.items) result (inputs_read bytes.now) }
{
    let count = lists_count(bytes)?;
    let place = 5 + 4 * count;
    if bytes.len() < place {
        return Err(InputFault::of(InputKind::Short));
    }
    let counts = numbers_of(alloc, count, &bytes[5..])?;
    let Some(total) = total_of(&counts) else {
        return Err(InputFault::of(InputKind::Counts));
    };
    let end = place + 4 * total;
    if bytes.len() < end {
        return Err(InputFault::of(InputKind::Short));
    }
    if end < bytes.len() {
        return Err(InputFault::of(InputKind::Long));
    }
    Ok(lists_of(alloc, &counts, &bytes[place..])?)
}

/// The inputs that the bytes stand for. An `Err` is the first fault, in the order in which they are tested: the beginning
/// and the number of lists, the counts, the end; or `Memory`, where a request for memory was refused.
pub fn read_inputs(alloc: Global, bytes: &[u8]) -> Result<Inputs, InputFault>
    // What is read is spelled so.
    ensures found { IfOk result (λ inputs. IsInputsText bytes.now inputs) }
    // What stands for inputs is read as these, unless memory runs out.
    ensures only { (inputs : InputsValue) → IsInputsText bytes.now inputs → MatchResult result (λ read. read ≡ inputs) (λ e. e ≡ out_of_memory) }
    // Bytes that are refused stand for no inputs, unless memory ran out.
    ensures refused { IfErr result (λ e. e.kind ≢ Memory → (inputs : InputsValue) → ¬ IsInputsText bytes.now inputs) }
    // Which fault it is.
    ensures exact { Gives (λ inputs. inputs) result (inputs_read bytes.now) }
{
    let lists = lists_read(alloc, bytes)?;
    Ok(Inputs::sound(lists))
}

/// Bytes stand for inputs exactly where they are read as these inputs.
pub fn inputs_law()
    ensures { (bytes : List ℕ) (inputs : InputsValue) → IsBytes bytes → (inputs_read bytes ≡ Ok inputs) ↔ IsInputsText bytes inputs }
{}
