//! What holds of all runs over lines. The functions do nothing: the contract of each is its law.
ghost use Rattle.rtmfp_cli.specs.Laws.{EachJournalIsAgreed, EachJournalIsPlayed, EachJournalIsTheLogs, EachRunIsFlat, EachRunWritesInOrder, EachScriptHasOneRun, EachTextIsTheReport};
ghost use Rattle.rtmfp_cli.specs.Laws.{EveryRunHandsOver, EveryRunHolds, EveryRunIsAgreed, Limits, NodeStatuses};

/// No run of a script leaves two ends that keep different sessions with each other, or a flow that
/// handed over what wasn't queued on it, a part of a message, or a message twice or out of order: its
/// history is lawful, honest and fresh, and so it is agreed, and messages go over.
pub fn every_run_holds()
    ensures holds { EveryRunHolds }
    ensures agreed { EveryRunIsAgreed }
    ensures hands_over { EveryRunHandsOver }
{}

/// The world that a script leaves is that of a script without translators, places and carries: a
/// carry that arrives stands there as the delivery that it is, and other such lines as comments.
pub fn each_run_is_flat()
    ensures { EachRunIsFlat }
{}

/// What is written of a script is the report of its journal: the text of each of its lines, and of
/// each datagram that a line of the script carried and lost, and nothing else. They stand in the
/// order of the lines of the script that did them, one at most of each, and each is told with the
/// names of the ends that were there then.
pub fn each_text_is_the_report_of_its_journal()
    ensures { EachTextIsTheReport }
{}

/// The journal of a script is the text of the logs of all ends of the world that its lines leave;
/// and that is the world which they leave where they are reported on, so its history is agreed.
pub fn each_journal_is_the_logs()
    ensures logs { EachJournalIsTheLogs }
    ensures played { EachJournalIsPlayed }
    ensures agreed { EachJournalIsAgreed }
{}

/// The lines of a script decide what they leave and what is written of them. Left open is only how
/// much room the outboxes of the journal have free, which is a matter of memory.
pub fn each_script_has_one_run()
    ensures { EachScriptHasOneRun }
{}

/// A run over lines that is done has written the text of all its lines and the ending; one that
/// ends at a line, the text of all before it; and any other a first part of what all its lines and
/// the ending would give.
pub fn each_run_writes_in_order()
    ensures { EachRunWritesInOrder }
{}

/// The most lines of a source, and the longest line of each command in bytes without its LF (own).
pub fn limits()
    ensures { Limits }
{}

/// The number with which the program ends for each way in which a node ends (own).
pub fn node_statuses()
    ensures { NodeStatuses }
{}
