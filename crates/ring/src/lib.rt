// Sums over a ring of positions. There is nothing to run here: each function's contract is a theorem, which the codes
// built on the ring cite.
#![tactic(auto)]

ghost use Rattle.ring.specs.Laws.{ShiftsKeepClasses, ClassesSumToNone, ParityObeysClassSums};

pub fn shifts_keep_classes() -> bool
    ensures { ShiftsKeepClasses }
{
    true
}

pub fn classes_sum_to_none<X>() -> bool
    ensures { ClassesSumToNone X }
{
    true
}

pub fn parity_obeys_class_sums<X>() -> bool
    ensures { ParityObeysClassSums X }
{
    true
}
