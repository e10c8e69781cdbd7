//! Laws of whole captures. The calls do nothing; their clauses are the laws.
ghost use Rattle.std.specs.Prelude.{◌≡◌, codes, [], ◌∷◌};
ghost use Rattle.capture_core.specs.Example.{settings, a_history, what_was_done, two_large_packets, three_files, sizes, names_of};
ghost use Rattle.capture_desk.specs.Examples.{a_thousand_bytes_a_file};
ghost use Rattle.capture_desk.specs.Orderly.{IsOrderlySoFar};
ghost use Rattle.capture_desk.specs.Past.{past};
ghost use Rattle.capture_core.specs.Headline.{Headline, RecordedIsHeadline};
ghost use Rattle.capture_core.specs.Laws.{ActsAreGrammatical, DoneComes, FatesAreFinal, FilesHoldTheWritten, FinishedAreGrammatical, FollowersReachTheAnnounced, FrontsHoldTheFirst, LegalIsReplayed, SaidIsTrue, StatisticsAreCounts, TakenAreTheWriters, ViewsReachTheAnnounced};

/// In a legal history the packets that the writer was answered are those that count as taken.
pub fn taken_are_the_writers()
    ensures { TakenAreTheWriters }
{}

/// The whole packet blocks of all files, in order, are exactly the packets that the history counts as written.
pub fn files_hold_the_written()
    ensures { FilesHoldTheWritten }
{}

/// Where the writer's entries are in order to their end, and each source ended once, a take was answered Done, and behind it no source has an entry.
pub fn done_comes()
    ensures { DoneComes }
{}

/// Behind Done each offered packet was dropped, was flushed, or was written.
pub fn fates_are_final()
    ensures { FatesAreFinal }
{}

/// Each finished file ends with its statistics: the counts of the entries before its tally.
pub fn statistics_are_counts()
    ensures { StatisticsAreCounts }
{}

/// With messages, each of them names the file that was created last, and the counts of this file sum up to the packets that were put into it before.
pub fn said_is_true()
    ensures { SaidIsTrue }
{}

/// Behind each message every honest view of the current file reaches what was announced of it.
pub fn views_reach_the_announced()
    ensures acts { ViewsReachTheAnnounced }
    ensures done { FollowersReachTheAnnounced }
{}

/// What a capture comes to follows from its history and from what the outlet did for it.
pub fn recorded_is_headline()
    ensures { RecordedIsHeadline }
{}

/// Each finished file is grammatical, and so is each file that all acts of a history finish.
pub fn files_are_grammatical()
    ensures done { FinishedAreGrammatical }
    ensures acts { ActsAreGrammatical }
{}

/// What was done up to a place before the first failed call on files or want of memory, with messages alone behind it,
/// holds the first of the packets that the writer took.
pub fn fronts_hold_the_first()
    ensures { FrontsHoldTheFirst }
{}

/// A small capture for which all of this holds.
pub fn a_small_capture()
    ensures { Headline settings (5 ∷ (6 ∷ (7 ∷ (8 ∷ [])))) a_history what_was_done }
{}

/// A legal history meets what `replay` asks of its entries, where the writer's are orderly.
pub fn legal_is_replayed()
    ensures { LegalIsReplayed }
{}

/// Two packets of 900 bytes, each of which fills a file of 1,000 bytes at just this size: the names of the files and their
/// sizes.
pub fn full_files()
    ensures orderly { IsOrderlySoFar a_thousand_bytes_a_file (past two_large_packets) }
    ensures names { names_of three_files ≡ codes "o_00001_19700101000000" ∷ (codes "o_00002_19700101000000" ∷ (codes "o_00003_19700101000000" ∷ [])) }
    ensures sizes { sizes three_files ≡ 1064 ∷ (1064 ∷ (132 ∷ [])) }
{}
