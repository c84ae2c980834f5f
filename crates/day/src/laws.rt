// The laws over whole runs of a practice day, each in the contract of a call that shows it.
ghost use Rattle.day.specs.Laws.{Always, CutLasts, InterleavingHarmless, LinesApart, NeverWraps, RefusedAltersNothing, SheetsOfReports, VolumesAddUp};

// A line sees only itself and the operator.
pub fn lines_stand_apart()
    ensures { Always LinesApart }
{}

// A security's consolidated volume is the sum over its market centers, and the sum over its tape lines.
pub fn volumes_add_up()
    ensures { Always VolumesAddUp }
{}

// How the lines' calls fall among one another does not matter to consolidated highs, lows and volumes.
pub fn interleaving_is_harmless()
    ensures { Always InterleavingHarmless }
{}

// At every point of a run a sheet is what the reports that were taken say.
pub fn sheets_are_their_reports()
    ensures { Always SheetsOfReports }
{}

// A refused call alters nothing and writes nothing.
pub fn refusals_alter_nothing()
    ensures { RefusedAltersNothing }
{}

// A line that was cut stays cut, with the same code and row, until it hangs up.
pub fn cuts_last()
    ensures { Always CutLasts }
{}

// Whatever bytes are sent, no frame count, feed sequence, trade id, action count, serial or volume of a day passes its bound.
pub fn numbers_never_wrap()
    ensures { Always NeverWraps }
{}
