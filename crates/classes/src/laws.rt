// What the sweep of a set rests on, as contracts: without its proof a statement is not taken.
ghost use Rattle.classes.specs.Renumber.{RenumberingKeeps, SheetKeeps};
ghost use Rattle.classes.specs.Lowest.{LowestMeans};

// Renumbering keeps the lowest equal literals, and a table that is followed keeps the assignments of a sheet.
pub fn laws_stand()
    ensures renumbering { RenumberingKeeps }
    ensures sheet { SheetKeeps }
{}

// The lowest equal literals are the representatives that a sweep gives.
pub fn lowest_stands()
    ensures { LowestMeans }
{}
