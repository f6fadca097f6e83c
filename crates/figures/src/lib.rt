// The worked figures of the code. There is nothing to run here.
#![tactic(auto)]

ghost use Rattle.figures.specs.Figures.{FiguresFollow};

// Each figure of the table follows from the definitions.
pub fn figures_follow() -> bool
    ensures { FiguresFollow }
{
    true
}
