#![tactic(auto)]

ghost use Rattle.instances.specs.Instances.{Instances};

// Its contract is the theorem: the worked instances of docs/RULES.md.
pub fn instances_stand()
    ensures { Instances }
{}
