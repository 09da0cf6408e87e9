//! Laws of the definitions.
ghost use Rattle.op_tables.specs.Statements.{FindsTheMediaRow, FindsTheApnRow, NamesRulesOnce};

/// In tables that are read from a document a look-up answers the row of the document.
pub fn look_ups_answer_the_rows()
    ensures media { FindsTheMediaRow }
    ensures apn { FindsTheApnRow }
{}

/// In tables that are read from a document no access point has two rules of one name.
pub fn names_of_rules_stand_apart()
    ensures { NamesRulesOnce }
{}
