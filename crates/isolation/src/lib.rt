//! The isolation law: what transactions on a group of boards see, told from the events alone.
#![tactic(auto)]

ghost use Rattle.isolation.specs.Isolation.{Isolated};
ghost use Rattle.isolation.specs.MachineLaw.{MachineIsolated};

use merging::MergingKind;

/// Every run of the abstract machine is isolated, for every merging kind. It computes nothing: its contract is the theorem.
pub fn machine_is_isolated<M: MergingKind>() -> u8
    ensures isolated { MachineIsolated M.origin M.stepped }
{
    0
}

/// Every run of every group of boards is isolated, for every merging kind. It computes nothing: its contract is the theorem.
pub fn boards_are_isolated<M: MergingKind>() -> u8
    ensures isolated { Isolated M.NUMBER M.origin M.stepped }
{
    0
}
