// The definitions of the linked-account index stand in specs/. The check looks at a crate only if it has a function: this one promises the worked cases.
#![tactic(auto)]

ghost use Rattle.truss.specs.Cases.{Cases, RuleCases, WindowCases, FieldCases};
ghost use Rattle.truss.specs.StrengthCases.{StrengthCases};
ghost use Rattle.truss.specs.ChainCases.{ChainCases};
ghost use Rattle.truss.specs.OrderCases.{OrderCases};
ghost use Rattle.truss.specs.LoneCases.{LoneCases};
ghost use Rattle.truss.specs.WholeCalls.{WholeCalls};
ghost use Rattle.truss.specs.DeskCases.{DeskCases};
ghost use Rattle.truss.specs.ChangeCases.{ChangeCases};
ghost use Rattle.truss.specs.BetsCases.{BetsCases};
ghost use Rattle.truss.specs.Figures.{Figures};
ghost use Rattle.truss.specs.Spelled.{Spelled};

pub fn definitions()
    ensures { Cases × RuleCases × WindowCases × FieldCases × StrengthCases × ChainCases × OrderCases × LoneCases × WholeCalls × DeskCases × ChangeCases × BetsCases × Figures × Spelled }
{
    return;
}
