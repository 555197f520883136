ghost use Rattle.std.specs.Prelude.{◌≡◌, option_map, IfOk, IfSome};
ghost use Rattle.debug_model.specs.Command.{IsWithinRanges};
ghost use Rattle.debug_model.specs.ScriptForms.{hart_form, step_form, wait_form, reg_form, read_form, write_form, dump_form, via_form, break_form};
ghost use Rattle.debug_model.specs.ScriptForms.{watch_form, count_form, clear_form, ebreak_form, no_arguments, plain_forms, hart_forms, memory_forms};
ghost use Rattle.debug_model.specs.ScriptForms.{slot_forms, form_in, command_read};
ghost use Rattle.script_lang.specs.Takes.{Takes, TakesBy};

use crate::arguments::{
    address, count, len, path, ranged, ranged_or, register, size, small, switch, value, watch_kind,
};
use crate::words::Words;
use debug_model::{Command, ScriptFault};
use rv_model::Size;

/// The greatest number of a hart: hartsel's values that a script may name.
const LAST_HART: u16 = 1023;

/// The most steps of one `step`, and the most looks of one `wait`.
const MOST_REPEATS: u16 = 1000;

/// The looks of a `wait` that says no number.
const USUAL_LOOKS: u16 = 64;

/// The most turns that icount's count field of 14 bits holds.
const MOST_TURNS: u16 = 16383;

/// The last of a hart's slots.
const LAST_SLOT: u16 = 3;

/// The command that a line's first word names, with its arguments from the words after it.
#[tactic(auto, using(crate::proofs::FormLemmas::command_steps))]
pub(crate) fn command(name: &[u8], words: &mut Words) -> Result<Command, ScriptFault>
    ensures taken { Takes result words.new (command_read name.now words.old) }
    ensures within { IfOk result IsWithinRanges }
{
    if let Some(command) = plain_command(name) {
        return Ok(command);
    }
    if let Some(taken) = hart_command(name, words) {
        return taken;
    }
    if let Some(taken) = memory_command(name, words) {
        return taken;
    }
    slot_command(name, words).unwrap_or(Err(ScriptFault::UnknownWord))
}

// In these tables a word is compared whole, in the order in which the definitions compare it: a `match` on byte strings is proved byte by byte, at
// three times the cost.

/// A command with no argument.
#[tactic(auto, unfolding(debug_model::specs::ScriptForms::plain_forms))]
fn plain_command(name: &[u8]) -> Option<Command>
    ensures form { option_map no_arguments result ≡ form_in plain_forms name.now }
    ensures within { IfSome result IsWithinRanges }
{
    if b"idcode".as_slice() == name {
        Some(Command::Idcode)
    } else if b"state".as_slice() == name {
        Some(Command::State)
    } else if b"halt".as_slice() == name {
        Some(Command::Halt)
    } else if b"resume".as_slice() == name {
        Some(Command::Resume)
    } else if b"regs".as_slice() == name {
        Some(Command::Regs)
    } else if b"slots".as_slice() == name {
        Some(Command::Slots)
    } else if b"end".as_slice() == name {
        Some(Command::End)
    } else {
        None
    }
}

/// A command about a hart.
#[tactic(auto, unfolding(debug_model::specs::ScriptForms::hart_forms))]
fn hart_command(name: &[u8], words: &mut Words) -> Option<Result<Command, ScriptFault>>
    ensures taken { TakesBy result words.old words.new (form_in hart_forms name.now) }
    ensures within { IfSome result (λ taken. IfOk taken IsWithinRanges) }
{
    if b"hart".as_slice() == name {
        Some(hart(words))
    } else if b"step".as_slice() == name {
        Some(step(words))
    } else if b"wait".as_slice() == name {
        Some(wait(words))
    } else if b"reg".as_slice() == name {
        Some(reg(words))
    } else if b"ebreak".as_slice() == name {
        Some(ebreak(words))
    } else {
        None
    }
}

/// A command about memory.
#[tactic(auto, unfolding(debug_model::specs::ScriptForms::memory_forms))]
fn memory_command(name: &[u8], words: &mut Words) -> Option<Result<Command, ScriptFault>>
    ensures taken { TakesBy result words.old words.new (form_in memory_forms name.now) }
    ensures within { IfSome result (λ taken. IfOk taken IsWithinRanges) }
{
    if b"read".as_slice() == name {
        Some(read(words))
    } else if b"write".as_slice() == name {
        Some(write(words))
    } else if b"dump".as_slice() == name {
        Some(dump(words))
    } else if b"via".as_slice() == name {
        Some(via(words))
    } else {
        None
    }
}

/// A command about trigger slots.
#[tactic(auto, unfolding(debug_model::specs::ScriptForms::slot_forms))]
fn slot_command(name: &[u8], words: &mut Words) -> Option<Result<Command, ScriptFault>>
    ensures taken { TakesBy result words.old words.new (form_in slot_forms name.now) }
    ensures within { IfSome result (λ taken. IfOk taken IsWithinRanges) }
{
    if b"break".as_slice() == name {
        Some(break_at(words))
    } else if b"watch".as_slice() == name {
        Some(watch(words))
    } else if b"count".as_slice() == name {
        Some(turns(words))
    } else if b"clear".as_slice() == name {
        Some(clear(words))
    } else {
        None
    }
}

#[tactic(auto, unfolding(debug_model::specs::ScriptForms::hart_form))]
fn hart(words: &mut Words) -> Result<Command, ScriptFault>
    ensures taken { Takes result words.new (hart_form words.old) }
    ensures within { IfOk result IsWithinRanges }
{
    Ok(Command::Hart(small(words, 0, LAST_HART)?))
}

#[tactic(auto, unfolding(debug_model::specs::ScriptForms::step_form))]
fn step(words: &mut Words) -> Result<Command, ScriptFault>
    ensures taken { Takes result words.new (step_form words.old) }
    ensures within { IfOk result IsWithinRanges }
{
    Ok(Command::Step(ranged_or(words, 1, 1, MOST_REPEATS)?))
}

#[tactic(auto, unfolding(debug_model::specs::ScriptForms::wait_form))]
fn wait(words: &mut Words) -> Result<Command, ScriptFault>
    ensures taken { Takes result words.new (wait_form words.old) }
    ensures within { IfOk result IsWithinRanges }
{
    Ok(Command::Wait(ranged_or(words, USUAL_LOOKS, 1, MOST_REPEATS)?))
}

#[tactic(auto, unfolding(debug_model::specs::ScriptForms::reg_form, debug_model::specs::ScriptForms::reg_value_form))]
fn reg(words: &mut Words) -> Result<Command, ScriptFault>
    ensures taken { Takes result words.new (reg_form words.old) }
    ensures within { IfOk result IsWithinRanges }
{
    let register = register(words)?;
    if words.is_empty() {
        return Ok(Command::Reg(register));
    }
    Ok(Command::SetReg(register, value(words, Size::B8)?))
}

#[tactic(auto, unfolding(debug_model::specs::ScriptForms::read_form))]
fn read(words: &mut Words) -> Result<Command, ScriptFault>
    ensures taken { Takes result words.new (read_form words.old) }
    ensures within { IfOk result IsWithinRanges }
{
    let size = size(words)?;
    let address = address(words, size.count())?;
    let count = count(words, size.count(), address)?;
    Ok(Command::Read(size, address, count))
}

#[tactic(auto, unfolding(debug_model::specs::ScriptForms::write_form))]
fn write(words: &mut Words) -> Result<Command, ScriptFault>
    ensures taken { Takes result words.new (write_form words.old) }
    ensures within { IfOk result IsWithinRanges }
{
    let size = size(words)?;
    let address = address(words, size.count())?;
    let value = value(words, size)?;
    let count = count(words, size.count(), address)?;
    Ok(Command::Write(size, address, value, count))
}

#[tactic(auto, unfolding(debug_model::specs::ScriptForms::dump_form))]
fn dump(words: &mut Words) -> Result<Command, ScriptFault>
    ensures taken { Takes result words.new (dump_form words.old) }
    ensures within { IfOk result IsWithinRanges }
{
    let address = address(words, 1)?;
    let len = len(words, address)?;
    Ok(Command::Dump(address, len))
}

#[tactic(auto, unfolding(debug_model::specs::ScriptForms::via_form))]
fn via(words: &mut Words) -> Result<Command, ScriptFault>
    ensures taken { Takes result words.new (via_form words.old) }
    ensures within { IfOk result IsWithinRanges }
{
    Ok(Command::Via(path(words)?))
}

#[tactic(auto, unfolding(debug_model::specs::ScriptForms::break_form))]
fn break_at(words: &mut Words) -> Result<Command, ScriptFault>
    ensures taken { Takes result words.new (break_form words.old) }
    ensures within { IfOk result IsWithinRanges }
{
    Ok(Command::Break(address(words, 1)?))
}

#[tactic(auto, unfolding(debug_model::specs::ScriptForms::watch_form))]
fn watch(words: &mut Words) -> Result<Command, ScriptFault>
    ensures taken { Takes result words.new (watch_form words.old) }
    ensures within { IfOk result IsWithinRanges }
{
    let kind = watch_kind(words)?;
    Ok(Command::Watch(kind, address(words, 1)?))
}

#[tactic(auto, unfolding(debug_model::specs::ScriptForms::count_form))]
fn turns(words: &mut Words) -> Result<Command, ScriptFault>
    ensures taken { Takes result words.new (count_form words.old) }
    ensures within { IfOk result IsWithinRanges }
{
    Ok(Command::Count(small(words, 1, MOST_TURNS)?))
}

#[tactic(auto, unfolding(debug_model::specs::ScriptForms::clear_form))]
fn clear(words: &mut Words) -> Result<Command, ScriptFault>
    ensures taken { Takes result words.new (clear_form words.old) }
    ensures within { IfOk result IsWithinRanges }
{
    Ok(Command::Clear(small(words, 0, LAST_SLOT)? as u8))
}

#[tactic(auto, unfolding(debug_model::specs::ScriptForms::ebreak_form))]
fn ebreak(words: &mut Words) -> Result<Command, ScriptFault>
    ensures taken { Takes result words.new (ebreak_form words.old) }
    ensures within { IfOk result IsWithinRanges }
{
    Ok(Command::Ebreak(switch(words)?))
}
