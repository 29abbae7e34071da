// What holds of every legal list of acts.
ghost use Rattle.relay_model.specs.{FinishedIsWhole, PrefixesAreLegal, WrittenIsDue, BacklogIsBounded, EndIsLast, PassedIsWhole, OutputsAgree};
ghost use Rattle.relay_model.specs.{UsedIsHeld, ClosedForGood, ClosedIsOver, StandingIsHeld, CallsTell, HeldHasBegun, TestsAreRight, OneTestIsRight};
ghost use Rattle.relay_laws.specs.Examples.{ExamplesAreJudged};
ghost use Rattle.relay_laws.specs.Holdings.{HoldingsEndOnce};

/// What stood before some of the last acts of a legal list is legal.
pub fn prefixes_are_legal()
    ensures { PrefixesAreLegal }
{}

/// What a direction has written is always a prefix of what is due.
pub fn written_is_due()
    ensures { WrittenIsDue }
{}

/// The bytes that wait to be written are never more than two blocks.
pub fn backlog_is_bounded()
    ensures { BacklogIsBounded }
{}

/// An end is passed once, and nothing is written after it.
pub fn end_is_last()
    ensures { EndIsLast }
{}

/// Where a direction has passed its end, all that is due was written.
pub fn passed_is_whole()
    ensures { PassedIsWhole }
{}

/// Where two legal histories read the same, one has written a beginning of what the other has.
pub fn outputs_agree()
    ensures { OutputsAgree }
{}

/// Only what is held is read, written, shut, asked or closed.
pub fn used_is_held()
    ensures { UsedIsHeld }
{}

/// After a closing nothing happens at a thing until it is opened or accepted anew, so each holding is closed
/// at most once.
pub fn closed_is_over()
    ensures { ClosedIsOver }
{}

/// Each holding of a thing, from its opening, listening or accepting on, was ended by exactly one closing, or by the failure
/// of an opening that was under way; the one that stands hasn't ended.
pub fn holdings_end_once()
    ensures { HoldingsEndOnce }
{}

/// What was closed for another reason than a refusal is closed for good: nothing happens there any more but that its
/// child ends.
pub fn closed_is_for_good()
    ensures { ClosedForGood }
{}

/// What a world tells of a thing says whether it is held.
pub fn standing_is_held()
    ensures { StandingIsHeld }
{}

/// What is called for fits how the things that it names stand.
pub fn calls_tell()
    ensures { CallsTell }
{}

/// Only things of sessions that have begun are held, or the peer that may become the next one.
pub fn held_has_begun()
    ensures { HeldHasBegun }
{}

/// The tests that compute find no act that may not come exactly where the whole list is legal.
pub fn tests_are_right()
    ensures { TestsAreRight }
{}

/// After a legal list the test of one act says whether that act may come.
pub fn one_test_is_right()
    ensures { OneTestIsRight }
{}

/// A session that ends since it has finished has written all that is due.
pub fn finished_is_whole()
    ensures { FinishedIsWhole }
{}

/// Whole journals are legal, end and wait as is written beside them, and changed ones aren't legal.
pub fn examples_are_judged()
    ensures { ExamplesAreJudged }
{}
