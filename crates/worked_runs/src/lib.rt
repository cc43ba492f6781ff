//! Runs of the store, worked out by hand from the rules, which the definitions have to give.
#![tactic(auto)]

ghost use Rattle.worked_runs.specs.Worked.{Worked};

/// Every call and every denial, over literal frames: the definitions answer each as it was worked out.
#[tactic(auto, unfolding(rules::specs::Calls::judge, rules::specs::Indexed::sum))]
pub fn worked_runs()
    ensures { Worked }
{}
