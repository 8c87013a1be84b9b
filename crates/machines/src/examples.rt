//! Reports of small programs, told in full. Each is the contract of a function that does nothing.

ghost use Rattle.std.specs.Prelude.{◌-◌, ◌^◌, cond};
ghost use Rattle.space.specs.declared.call.End.TheVariants.{DivideFault, Exit, Illegal, Outside, Trap};
ghost use Rattle.machines.specs.Examples.{EndsAt, exit_seven, unknown_call, jump, jump_back, add_negative, no_instruction, write_65, WritesStack, WriteAnswers, ReadAnswers, load_word, push_frame, move_many, record_and_carry, compare, count_down, link, trap_equal, load_outside, store_to_code};
ghost use Rattle.machines.specs.Host.{choice_at, chosen_flags};
ghost use Rattle.machines.specs.HostExamples.{HostEndsAt, HostEndsBy, host_exit, host_unknown, host_branch, host_no_branch, host_memory, host_code_write, host_trap, host_ud2, host_nothing, host_off, host_shift, host_byte, host_divide, host_divide_by_zero, host_jump};

/// Exit is call 1, with its number in r3.
pub fn exits_with_seven()
    ensures { EndsAt exit_seven 3 (Exit 7) }
{}

/// A number that is no call lists none, and leaves error 38 in r3.
pub fn unknown_call_is_an_error()
    ensures { EndsAt unknown_call 4 (Exit 38) }
{}

/// A branch goes to its target, also to one before it.
pub fn branches()
    ensures forward { EndsAt jump 4 (Exit 7) }
    ensures back { EndsAt jump_back 5 (Exit 7) }
{}

/// An immediate is read as signed, and sums wrap.
pub fn adds_a_negative_number()
    ensures { EndsAt add_negative 5 (Exit 3) }
{}

/// A word that is no instruction ends the run.
pub fn illegal_word()
    ensures { EndsAt no_instruction 1 Illegal }
{}

/// A write of the 64 bytes above r1 lists them. One of 65 bytes goes outside, and lists no call.
pub fn writes_from_the_stack()
    ensures inside { WritesStack }
    ensures outside { EndsAt write_65 5 Outside }
{}

/// What every kind of answer to a write gives in r3.
pub fn answers_to_a_write()
    ensures { WriteAnswers }
{}

/// What every kind of answer to a read gives in r3 and in the buffer.
pub fn answers_to_a_read()
    ensures { ReadAnswers }
{}

/// The host's exit; a number that is no call leaves -38 in eax; a jump on equality is taken and isn't;
/// a word stands in memory with its lowest byte first; code isn't written.
pub fn host_programs()
    ensures exits { HostEndsAt host_exit 3 (Exit 7) }
    ensures unknown { HostEndsAt host_unknown 5 (Exit (2 ^ 32 - 38)) }
    ensures branches { HostEndsAt host_branch 5 (Exit 7) }
    ensures falls_through { HostEndsAt host_no_branch 6 (Exit 9) }
    ensures remembers { HostEndsAt host_memory 5 (Exit 0x33) }
    ensures writes_no_code { HostEndsAt host_code_write 1 Outside }
    ensures traps { HostEndsAt host_trap 1 Trap }
    ensures ud2 { HostEndsAt host_ud2 1 Illegal }
    ensures nothing { HostEndsAt host_nothing 1 Illegal }
    ensures runs_off { HostEndsAt host_off 2 Outside }
{}

/// A word is loaded with its highest byte first; a store with update puts the old word and moves the base;
/// stmw and lmw move words in the order of their registers. A load at an address in no segment and a store
/// to code go outside.
pub fn accesses()
    ensures loads { EndsAt load_word 4 (Exit 0x3C801000) }
    ensures updates { EndsAt push_frame 4 (Exit 0xC0) }
    ensures moves_many { EndsAt move_many 7 (Exit 9) }
    ensures loads_nothing { EndsAt load_outside 1 Outside }
    ensures stores_no_code { EndsAt store_to_code 2 Outside }
{}

/// A form that records and carries leaves CA in XER and GT in field 0 of CR.
pub fn records_and_carries()
    ensures { EndsAt record_and_carry 7 (Exit 0x60000000) }
{}

/// A branch looks at the field that a compare wrote, or counts CTR down to 0. With LK it leaves the address
/// behind it in LR, after it read its target there. A trap looks at its chosen comparisons alone.
pub fn branches_on_conditions()
    ensures compares { EndsAt compare 5 (Exit 7) }
    ensures counts { EndsAt count_down 8 (Exit 2) }
    ensures links { EndsAt link 5 (Exit 0x10000014) }
    ensures traps { EndsAt trap_equal 2 Trap }
{}

/// A shift by 2 leaves OF to the processor's choice of that step; a byte that is set keeps the bytes above
/// it; a division gives quotient and remainder, or faults; a jump goes where a word of memory says.
pub fn host_operations()
    ensures shifts { HostEndsBy host_shift 7 (λ choices. Exit (cond (chosen_flags (choice_at choices 11)).of 1 0)) }
    ensures sets_a_byte { HostEndsAt host_byte 6 (Exit 0x11223301) }
    ensures divides { HostEndsAt host_divide 7 (Exit 19) }
    ensures faults { HostEndsAt host_divide_by_zero 2 DivideFault }
    ensures jumps { HostEndsAt host_jump 5 (Exit 7) }
{}
