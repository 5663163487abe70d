//! Laws of the input of a formula workload.

ghost use Rattle.snb_trial.specs.Laws.{LanesAreOfStreams, ListsAreEnough, SevenOfEach, UpdatesAreClosed, UpdatesAreFew};

use snb_columns::own_line;

/// The lanes are those of streams: some text has each line.
pub fn lanes_are_of_streams()
    ensures { LanesAreOfStreams }
{
    own_line();
}

/// There are seven updates for each i, within the limit of an input.
pub fn seven_updates()
    ensures each { SevenOfEach }
    ensures few { UpdatesAreFew }
{}

/// The lists have a parameter for each query of frequencies that name 2 and 13 alone.
pub fn lists_are_enough()
    ensures { ListsAreEnough }
{}

/// The updates of each plan of the lanes are closed over the dataset: each has a new key, and finds
/// what it refers to in time.
pub fn updates_are_closed()
    ensures { UpdatesAreClosed }
{}
