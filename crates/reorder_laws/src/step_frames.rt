//! Which parts of the state a step looks at, and which it changes, as a contract.
ghost use Rattle.reorder_laws.specs.Controllers.{AtomicLeaves, AtomicMade, AtomicsAllowed, BeginsBehind, BegunBehind, CommandsAllowed, ElemLeaves, ElemMade, GoesAlike, PieceLeaves, PieceMade, RetireLeaves, RetireMade};
ghost use Rattle.reorder_laws.specs.Deeds.{ExecDoes, ExecTells};
ghost use Rattle.reorder_laws.specs.Happens.{StepsHappen};
ghost use Rattle.reorder_laws.specs.Hosting.{ClosedThere, HostLeaves, HostMade, HostNext, NextLeaves, NextMade, NextSettles, SettledIdle, SettledLater, SettledNow, SettledTwice};
ghost use Rattle.reorder_laws.specs.SameDeeds.{ExecFinds, ExecKinds, ExecSameDeed};

/// An instruction is its deed.
pub fn instructions_are_deeds()
    ensures does { ExecDoes }
    ensures tells { ExecTells }
    ensures same_deed { ExecSameDeed }
    ensures finds { ExecFinds }
    ensures kinds { ExecKinds }
{}

/// What a step of a flow controller looks at and changes.
pub fn controllers_step()
    ensures piece_leaves { PieceLeaves }
    ensures piece_made { PieceMade }
    ensures elem_leaves { ElemLeaves }
    ensures elem_made { ElemMade }
    ensures retire_leaves { RetireLeaves }
    ensures retire_made { RetireMade }
    ensures atomic_leaves { AtomicLeaves }
    ensures atomic_made { AtomicMade }
    ensures commands { CommandsAllowed }
    ensures begins { BeginsBehind }
    ensures begun { BegunBehind }
    ensures order { GoesAlike }
    ensures atomics { AtomicsAllowed }
{}

/// What the host's step looks at and changes, and what the end of a step does.
pub fn states_step()
    ensures host_leaves { HostLeaves }
    ensures host_made { HostMade }
    ensures next_leaves { NextLeaves }
    ensures next_made { NextMade }
    ensures host_next { HostNext }
    ensures closed { ClosedThere }
    ensures twice { SettledTwice }
    ensures settles { NextSettles }
    ensures idle { SettledIdle }
    ensures later { SettledLater }
    ensures now { SettledNow }
    ensures happens { StepsHappen }
{}
