//! Worked examples of boards, told step by step.
#![tactic(auto)]

ghost use Rattle.examples.specs.Examples.{Examples};

/// Each worked example goes as it is told. It computes nothing: its contract is the statement.
pub fn examples_hold() -> u8
    ensures hold { Examples }
{
    0
}
