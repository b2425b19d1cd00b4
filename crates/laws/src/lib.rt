// The laws of the definitions stand in proofs/. The check looks at a crate only if it has a function: this one promises what they lead to: demand 3,
// what a refused call leaves, what questions A and G answer, what C, D and E list, lone links, what the window and the record as bytes have to do with a question, tallies over a run of
// questions, what a change is refused by and writes, what an index tells after any sequence of changes, and what trying a limit on a day's bets gives.
#![tactic(auto)]

ghost use Rattle.truss.specs.Demand3.{Demand3, OnlyShortMemory};
ghost use Rattle.truss.specs.Kept.{RefusalKeeps};
ghost use Rattle.truss.specs.Firmness.{FirmnessRule};
ghost use Rattle.truss.specs.Order.{OrderRule};
ghost use Rattle.truss.specs.Ways.{Ways};
ghost use Rattle.truss.specs.Lone.{LoneRule};
ghost use Rattle.truss.specs.Windows.{WindowRule, RecordRule};
ghost use Rattle.truss.specs.Run.{RunTallies, RunRecord};
ghost use Rattle.truss.specs.Changes.{ChangeRule, ChangesTell};
ghost use Rattle.truss.specs.Trial.{TrialRule};

pub fn laws()
    ensures { Demand3 × OnlyShortMemory × RefusalKeeps × FirmnessRule × OrderRule × Ways × LoneRule × WindowRule × RecordRule × RunTallies × RunRecord × ChangeRule × ChangesTell × TrialRule }
{
    return;
}
