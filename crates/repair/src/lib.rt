// The rebuilding of a lost data column: which symbols are read, and how they give its rows.
#![tactic(auto)]

ghost use Rattle.repair.specs.Laws.{NeededIsListed, SizeIsFormula, PartsAreApart, GivesBack, OnlySolution, DependsOnListed, DiffersExactly, ParityDiffers};

mod numbers;
mod plan;
mod reading;
mod rows;
mod work;

pub use plan::Plan;

pub fn needed_is_listed() -> bool
    ensures { NeededIsListed }
{
    true
}

pub fn size_is_formula() -> bool
    ensures { SizeIsFormula }
{
    true
}

pub fn parts_are_apart() -> bool
    ensures { PartsAreApart }
{
    true
}

pub fn gives_back<X>() -> bool
    ensures { GivesBack X }
{
    true
}

pub fn only_solution<X>() -> bool
    ensures { OnlySolution X }
{
    true
}

pub fn depends_on_listed<X>() -> bool
    ensures { DependsOnListed X }
{
    true
}

pub fn differs_exactly<X>() -> bool
    ensures { DiffersExactly X }
{
    true
}

pub fn parity_differs<X>() -> bool
    ensures { ParityDiffers X }
{
    true
}
