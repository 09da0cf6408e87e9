//! Worked examples of the form of requests, tables, operations and holdings: what has it, and what has not.

ghost use Rattle.std.specs.Prelude.{◌≡◌, [], ◌∷◌, Some, None, true, false, codes};
ghost use Rattle.std.proofs.Common.{option_map};
ghost use Rattle.pcrf_values.specs.Facts.{End};
ghost use Rattle.pcrf_values.specs.Limits.{delta_limit};
ghost use Rattle.pcrf_model.specs.Pushing.{push};
ghost use Rattle.pcrf_model.specs.Forms.{is_request, are_tables, is_operation, is_holding};
ghost use Rattle.pcrf_model.specs.Samples.{operator, first_session, host_address, initial, update, termination, call, hang_up, audio, no_media};
ghost use Rattle.pcrf_model.specs.Scenes.{empty_site, with_call, call_pushed, hung_up};
ghost use Rattle.pcrf_model.specs.Edges.{flow_removed};
ghost use Rattle.pcrf_model.specs.Malformed.{in_capitals, out_of_order, one_component_twice, unknown_status, no_such_qci, addressed, without_facts, end_and_more, two_at_one_place, other_number, component_of_gateway, told_to_function, told_as_another, unknown_site, holding_with};

/// The requests and the operator tables of the worked examples have the form.
pub fn requests_and_tables_of_the_examples_are_in_form()
    ensures tables { are_tables operator ≡ true }
    ensures initial { is_request (initial first_session (host_address 1)) ≡ true }
    ensures update { is_request (update 2 None) ≡ true }
    ensures termination { is_request (termination first_session 3) ≡ true }
    ensures call { is_request (call (Some (host_address 1)) (audio ∷ no_media ∷ [])) ≡ true }
    ensures hang_up { is_request hang_up ≡ true }
{}

/// And so have the holdings that they make, with what is told, removed and ended in them.
pub fn holdings_of_the_examples_are_in_form()
    ensures empty { is_holding empty_site.holding ≡ true }
    ensures told { is_holding call_pushed.holding ≡ true }
    ensures removed { is_holding flow_removed.holding ≡ true }
    ensures ended { is_holding hung_up.holding ≡ true }
{}

/// A push of at most so many entries makes an operation of the form, but for one of none.
pub fn push_of_no_entry_makes_no_operation_of_the_form()
    ensures none { option_map is_operation (push 0 operator 0 with_call.holding None).added
        ≡ Some false }
    ensures one { option_map is_operation (push 1 operator 0 with_call.holding None).added
        ≡ Some true }
    ensures all { option_map is_operation (push delta_limit operator 0 with_call.holding None).added
        ≡ Some true }
{}

/// A request or tables with a value out of its range, out of order, or given twice have not the form.
pub fn malformed_requests_and_tables_have_not_the_form()
    ensures capitals { is_request in_capitals ≡ false }
    ensures order { is_request out_of_order ≡ false }
    ensures twice { is_request one_component_twice ≡ false }
    ensures status { is_request unknown_status ≡ false }
    ensures qci { are_tables no_such_qci ≡ false }
{}

/// An operation without facts, with facts that overshadow each other, at the wrong place or under the wrong tag has
/// not the form.
pub fn malformed_operations_have_not_the_form()
    ensures empty { is_operation without_facts ≡ false }
    ensures more { is_operation end_and_more ≡ false }
    ensures twice { is_operation two_at_one_place ≡ false }
    ensures number { is_operation other_number ≡ false }
    ensures component { is_operation component_of_gateway ≡ false }
    ensures function { is_operation told_to_function ≡ false }
    ensures name { is_operation told_as_another ≡ false }
    ensures site { is_operation unknown_site ≡ false }
{}

/// A holding has its facts in order, each once, with no counter past its clock.
pub fn malformed_holdings_have_not_the_form()
    ensures form { is_holding (holding_with (End ∷ addressed ∷ []) 1) ≡ true }
    ensures clock { is_holding (holding_with (addressed ∷ []) 0) ≡ false }
    ensures order { is_holding (holding_with (addressed ∷ End ∷ []) 1) ≡ false }
    ensures twice { is_holding (holding_with (addressed ∷ addressed ∷ []) 1) ≡ false }
{}
