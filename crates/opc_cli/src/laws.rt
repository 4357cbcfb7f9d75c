//! What the definitions of plans say by themselves.
ghost use Rattle.std.specs.Prelude.{◌≡◌, ℕ, List};
ghost use Rattle.opc_base.specs.Outside.{Files};
ghost use Rattle.opc_engine.specs.Stages.{IsOne};
ghost use Rattle.opc_cli.specs.Plan.{IsPlan, Plan};
ghost use Rattle.opc_cli.specs.SeveralConditions.{CorrectUnderGives};
ghost use Rattle.opc_cli.specs.declared.conditions.ConditionWords.{ConditionWords};

/// Words and files call for one plan at most. So what a run stores and says where nothing fails, or the line and the status
/// with which it refuses, is a function of its words and of the bytes of the files that it reads.
pub fn plans_are_one()
    ensures window { (layout rules : List ℕ) (kernels : List (List ℕ)) (words : List ConditionWords) → IsOne (CorrectUnderGives layout kernels rules words) }
    ensures plan { (words : List (List ℕ)) (files : Files) (p q : Plan) → IsPlan words files p → IsPlan words files q → p ≡ q }
{}
