//! Texts of each form of ECMAScript 3 that run as they stand.

use crate::{
    program_end_tables as ends, program_statement_tables as statements, program_tables as programs,
};
use caja_cli::Status;
use command_runs::tables::{check_ends, check_gives};
use std::test::Fail;

#[test]
fn operands_have_their_values(rt: HostRuntime) -> Result<(), Fail> {
    check_gives(rt.alloc(), programs::OPERANDS)
}

#[test]
fn members_are_read_and_written(rt: HostRuntime) -> Result<(), Fail> {
    check_gives(rt.alloc(), programs::MEMBERS)
}

#[test]
fn a_call_has_its_arguments_and_its_receiver(rt: HostRuntime) -> Result<(), Fail> {
    check_gives(rt.alloc(), programs::CALLS)
}

#[test]
fn new_makes_an_object_unless_one_is_returned(rt: HostRuntime) -> Result<(), Fail> {
    check_gives(rt.alloc(), programs::NEW)
}

#[test]
fn what_a_function_makes_has_its_prototype(rt: HostRuntime) -> Result<(), Fail> {
    check_gives(rt.alloc(), programs::PROTOTYPES)
}

#[test]
fn operators_before_and_behind_an_operand_give_its_value(rt: HostRuntime) -> Result<(), Fail> {
    check_gives(rt.alloc(), programs::PREFIX)?;
    check_gives(rt.alloc(), programs::STEPPED)
}

#[test]
fn numbers_are_whole_and_bits_are_32(rt: HostRuntime) -> Result<(), Fail> {
    check_gives(rt.alloc(), programs::NUMBERS)
}

#[test]
fn values_are_compared(rt: HostRuntime) -> Result<(), Fail> {
    check_gives(rt.alloc(), programs::RELATIONS)?;
    check_gives(rt.alloc(), programs::EQUALITIES)
}

#[test]
fn a_side_that_is_not_chosen_is_not_entered(rt: HostRuntime) -> Result<(), Fail> {
    check_gives(rt.alloc(), programs::CHOICES)
}

#[test]
fn an_assignment_gives_what_it_writes(rt: HostRuntime) -> Result<(), Fail> {
    check_gives(rt.alloc(), programs::ASSIGNMENTS)
}

#[test]
fn a_text_of_a_value_runs_no_code(rt: HostRuntime) -> Result<(), Fail> {
    check_gives(rt.alloc(), programs::CONVERSIONS)
}

#[test]
fn parts_are_entered_from_the_left_and_a_callee_is_read_last(rt: HostRuntime) -> Result<(), Fail> {
    check_gives(rt.alloc(), programs::ORDER)
}

#[test]
fn names_are_found_in_their_scopes(rt: HostRuntime) -> Result<(), Fail> {
    check_gives(rt.alloc(), programs::NAMES)
}

#[test]
fn a_function_keeps_its_scopes_and_its_own_name(rt: HostRuntime) -> Result<(), Fail> {
    check_gives(rt.alloc(), programs::FUNCTIONS)
}

#[test]
fn what_is_declared_is_there_from_the_beginning(rt: HostRuntime) -> Result<(), Fail> {
    check_gives(rt.alloc(), programs::HOISTING)
}

#[test]
fn arguments_are_an_object(rt: HostRuntime) -> Result<(), Fail> {
    check_gives(rt.alloc(), programs::ARGUMENTS)
}

#[test]
fn arguments_and_parameters_are_written_together(rt: HostRuntime) -> Result<(), Fail> {
    check_gives(rt.alloc(), programs::SHARED_ARGUMENTS)
}

#[test]
fn a_program_has_the_value_of_its_last_element(rt: HostRuntime) -> Result<(), Fail> {
    check_gives(rt.alloc(), statements::VALUES)
}

#[test]
fn each_part_of_a_for_may_be_left_out(rt: HostRuntime) -> Result<(), Fail> {
    check_gives(rt.alloc(), statements::FOR_HEADS)
}

#[test]
fn a_loop_keeps_the_last_value(rt: HostRuntime) -> Result<(), Fail> {
    check_gives(rt.alloc(), statements::LOOPS)
}

#[test]
fn for_in_visits_the_keys_that_are_there(rt: HostRuntime) -> Result<(), Fail> {
    check_gives(rt.alloc(), statements::FOR_IN)?;
    check_gives(rt.alloc(), statements::FOR_IN_VALUES)
}

#[test]
fn a_jump_goes_to_its_label(rt: HostRuntime) -> Result<(), Fail> {
    check_gives(rt.alloc(), statements::JUMPS)
}

#[test]
fn a_switch_has_a_value_where_a_break_ends_it(rt: HostRuntime) -> Result<(), Fail> {
    check_gives(rt.alloc(), statements::SWITCHES)
}

#[test]
fn what_is_thrown_is_caught_in_a_scope_of_its_own(rt: HostRuntime) -> Result<(), Fail> {
    check_gives(rt.alloc(), statements::THROWS)
}

#[test]
fn a_finally_runs_whatever_the_ending(rt: HostRuntime) -> Result<(), Fail> {
    check_gives(rt.alloc(), statements::FINALLY)?;
    check_gives(rt.alloc(), statements::FINALLY_RETURNS)
}

#[test]
fn with_has_the_names_of_its_object(rt: HostRuntime) -> Result<(), Fail> {
    check_gives(rt.alloc(), statements::WITHS)?;
    check_gives(rt.alloc(), statements::WITHS_AND_SCOPES)
}

#[test]
fn no_text_catches_a_fault(rt: HostRuntime) -> Result<(), Fail> {
    check_ends(rt.alloc(), ends::NUMBER_FAULTS, Status::Number)?;
    check_ends(rt.alloc(), ends::DEPTH_FAULTS, Status::Depth)?;
    check_ends(rt.alloc(), ends::CONVERT_FAULTS, Status::Convert)
}

#[test]
fn a_text_without_an_end_is_cut(rt: HostRuntime) -> Result<(), Fail> {
    check_ends(rt.alloc(), ends::ENDLESS, Status::Steps)
}

#[test]
fn each_step_counts(rt: HostRuntime) -> Result<(), Fail> {
    check_gives(rt.alloc(), ends::EXACT_BUDGETS)?;
    check_ends(rt.alloc(), ends::SHORT_BUDGETS, Status::Steps)
}
