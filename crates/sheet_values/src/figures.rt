// Reading the figures of an event (the heap comes beside a word, as for the header's), and turning a demand in kW into the figure that a programme settles by.

ghost use Rattle.std.specs.Prelude.{◌≡◌, MatchResult};
ghost use Rattle.sheet_values.specs.Figures.{baseline_of, load_of, over, FigureText};
ghost use Rattle.sheet_values.specs.Refusals.{NoFigure};

use crate::measured::Figure;
use crate::numbers::number;
use decimals::Places;
use programme::Figures;
use sheet_words::LineFault;
use std::alloc::Global;

impl Figure {
    // A demand is written in kW with that suffix, a figure itself as a whole number.
    pub fn read(heap: Global, text: &str) -> Result<Figure, LineFault>
        ensures { MatchResult result (FigureText text.now) (NoFigure text.now) }
    {
        match text.strip_suffix("kW") {
            Some(kilowatts) => Ok(Figure::Demand(number(heap, kilowatts, Places::Three)?)),
            None => Ok(Figure::Total(number(heap, text, Places::Zero)?)),
        }
    }

    // The figure, into which a demand enters as many times as readings are added up.
    fn over(self, parts: u64) -> u64
        ensures { result ≡ over parts self }
    {
        match self {
            Figure::Total(watts) => watts,
            Figure::Demand(watts) => watts.saturating_mul(parts),
        }
    }

    // The event load over a window of n quarters.
    pub fn load(self, figures: Figures, n: u16) -> u64
        ensures { result ≡ load_of figures.fold n self }
    {
        self.over(figures.fold.parts(1, n))
    }

    // The baseline over the windows of n quarters of the programme's baseline days.
    pub fn baseline(self, figures: Figures, n: u16) -> u64
        ensures { result ≡ baseline_of figures.baseline_days figures.fold n self }
    {
        self.over(figures.fold.parts(figures.baseline_days, n))
    }
}
