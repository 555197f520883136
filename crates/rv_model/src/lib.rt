//! The harts' definitions: what a program sees, what an instruction does, and what a debugger reaches beside it.
//!
//! The definitions stand in `specs`; here are the types that they speak of, with the words of `dcsr`, `tdata1` and `tinfo`.
//! Laws and worked examples of the definitions are the contracts of functions that do nothing.
#![tactic(auto)]

mod alu_op;
mod bits;
mod cause;
mod condition;
mod csr_change;
mod dcsr;
mod debug_did;
mod debug_laws;
mod debug_word_laws;
mod did;
mod examples;
mod insn;
mod laws;
mod load_op;
mod mem_fault;
mod operands;
pub mod register_number;
mod size;
mod slot;
mod slot_set;
mod touch;
mod trigger_word;
mod turn_laws;
mod turned;
mod version;
mod width;

pub use alu_op::{AluOp, AmoOp, ImmediateOp, RegisterOp, ShiftOp, WordShiftOp};
pub use cause::Cause;
pub use condition::Condition;
pub use csr_change::CsrChange;
pub use dcsr::Dcsr;
pub use debug_did::DebugDid;
pub use debug_laws::{
    debug_needs_csr, debug_register_examples, debug_register_numbers, exceptions_change_nothing,
    memory_needs_access, program_buffer_examples, words_keep, writes_keep, writes_read_back,
};
pub use debug_word_laws::{
    dcsr_examples, dcsr_read_back, releases_shown, trigger_read_back, trigger_registers,
    triggers_decoded, triggers_kept,
};
pub use did::Did;
pub use examples::{
    alu_corners, counter_counts, divisions, interrupt_examples, reserved_words_mean_nothing,
    sc_fails_after_store, sc_succeeds_after_lr, trap_examples, writes_keep_their_bits,
};
pub use insn::Insn;
pub use laws::{
    execution_keeps, execution_leaves_others, interrupts_are_taken, masked_execution_keeps,
    refused_stores_keep_memory, rows_are_apart,
};
pub use load_op::LoadOp;
pub use mem_fault::MemFault;
pub use operands::{
    BType, CsrImmType, CsrType, IType, JType, LoadReservedType, RType, SType, ShiftType, UType,
};
pub use size::Size;
pub use slot::{Comparison, Icount, Mcontrol6, Slot, Trigger};
pub use slot_set::SlotSet;
pub use touch::Touch;
pub use trigger_word::DISABLED_WORD;
pub use turn_laws::{
    reset_boards_are_boards, turn_forgets_debugging, turn_keeps_board, turn_keeps_unmasked,
    turn_leaves_others,
};
pub use turned::Turned;
pub use version::Version;
pub use width::Width;
