//! What the definitions of answers say by themselves.
ghost use Rattle.std.specs.Prelude.{ℕ, List, Result};
ghost use Rattle.assist_bars.specs.declared.bar_rules.BarRules.{BarRules};
ghost use Rattle.opc_engine.specs.Assists.{AssistGives};
ghost use Rattle.opc_engine.specs.Checks.{CheckGives};
ghost use Rattle.opc_engine.specs.Corrections.{CorrectGives, MovesGives, SimulateGives};
ghost use Rattle.opc_engine.specs.PolygonMasks.{PolygonsGives};
ghost use Rattle.opc_engine.specs.PrepareSets.{PreparesSets};
ghost use Rattle.opc_engine.specs.Probe.{ProbeGives};
ghost use Rattle.opc_engine.specs.Sharing.{AreSharedApart};
ghost use Rattle.opc_engine.specs.Stages.{IsOne};
ghost use Rattle.opc_engine.specs.Trial.{TrialGives};
ghost use Rattle.opc_engine.specs.declared.answer.Answer.{Answer};
ghost use Rattle.opc_engine.specs.declared.ask.Ask.{Ask};
ghost use Rattle.opc_engine.specs.declared.fault.EngineFault.{EngineFault};

/// The files of a command call for one result at most: for one answer or for one refusal, and never for both. So each call
/// answers exactly where no stage refuses, and else with the refusal of the first stage that does.
pub fn answers_are_one()
    ensures probe { (layout kernels : List ℕ) (ask : Ask) → IsOne (ProbeGives layout kernels ask) }
    ensures simulate { (layout kernels rules : List ℕ) → IsOne (SimulateGives layout kernels rules) }
    ensures correct { (layout kernels rules : List ℕ) → IsOne (CorrectGives layout kernels rules) }
    ensures moves { (layout kernels rules moves : List ℕ) → IsOne (MovesGives layout kernels rules moves) }
    ensures check { (layout kernels rules : List ℕ) → IsOne (CheckGives layout kernels rules) }
    ensures polygons { (layout kernels rules : List ℕ) → IsOne (PolygonsGives layout kernels rules) }
    ensures trial { (n : ℕ) → IsOne (TrialGives n) }
    ensures assist { (layout kernels rules : List ℕ) (bars : BarRules) → IsOne (AssistGives layout kernels rules bars) }
    ensures prepare { (layout rules : List ℕ) (kernels : List (List ℕ)) → IsOne (PreparesSets layout kernels rules) }
{}

/// The side of tiles and the number of workers change no byte: where rule files differ in these two keys alone, whatever one
/// of them gives with other files, an answer or a refusal, the other gives too.
pub fn sharing_changes_nothing()
    ensures simulate { (layout kernels a b : List ℕ) (result : Result Answer EngineFault) → AreSharedApart a b
        → SimulateGives layout kernels a result → SimulateGives layout kernels b result }
    ensures correct { (layout kernels a b : List ℕ) (result : Result Answer EngineFault) → AreSharedApart a b
        → CorrectGives layout kernels a result → CorrectGives layout kernels b result }
    ensures moves { (layout kernels a b moves : List ℕ) (result : Result Answer EngineFault) → AreSharedApart a b
        → MovesGives layout kernels a moves result → MovesGives layout kernels b moves result }
    ensures check { (layout kernels a b : List ℕ) (result : Result Answer EngineFault) → AreSharedApart a b
        → CheckGives layout kernels a result → CheckGives layout kernels b result }
{}
