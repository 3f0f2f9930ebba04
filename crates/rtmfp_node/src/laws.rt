//! What holds of each run of a node. The functions do nothing: the contract of each is its law.

ghost use Rattle.rtmfp_node.specs.Journal.{EachJournalIsWritten};
ghost use Rattle.rtmfp_node.specs.Laws.{EachDoneRunIsWhole, EachOtherRunIsCut, EachRunTakesItsPlaces};

/// How many places of the link, blocks and moments a run takes, by its turns and its openings.
pub fn each_run_takes_its_places()
    ensures { EachRunTakesItsPlaces }
{}

/// What is told of a node in the end: a run of all its turns where it is done, and else a cut one.
/// The sink's text is told where the sink tells it; the calls of the link don't need it.
pub fn each_run_is_told()
    ensures done { EachDoneRunIsWhole }
    ensures cut { EachOtherRunIsCut }
{}

/// A run whose words have a label has written the text of its log, with the lines of lost datagrams
/// between its lines.
pub fn each_journal_is_written()
    ensures { EachJournalIsWritten }
{}
