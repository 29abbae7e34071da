// What holds of verdicts by themselves.
ghost use Rattle.relay_audit.specs.Verdicts.{OneVerdict};

use journal_text::{one_bad_line, one_journal};
use relay_laws::prefixes_are_legal;

/// No text has two verdicts for the same words and turns, so that the one that is true of it is the one that is
/// answered.
pub fn one_verdict()
    ensures { OneVerdict }
{
    one_journal();
    one_bad_line();
    prefixes_are_legal();
}
