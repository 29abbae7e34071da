// A run whose history may be written to a file.
ghost use Rattle.std.specs.Prelude.{◌≡◌, ◌≤◌, ◌-◌, [], true, false, length, drop, Some, IfSome, MatchOption};
ghost use Rattle.std.specs.Bool.{OnTrue, OnFalse};
ghost use Rattle.relay_model.specs.Journals.{History};
ghost use Rattle.session_loop.specs.{Risen, StopCause, is_failure};
ghost use Rattle.exit_status.specs.{exit_code};
ghost use Rattle.socat_top.specs.declared.written.Saving.TheVariants as savings;
ghost use Rattle.port_trait.specs.{Agrees};
ghost use Rattle.port_table.specs.{OnJoinedBack, handed};
ghost use Rattle.port_desk.specs.{Passed, AreUnused, IsFree};
ghost use Rattle.socat_top.specs.Behind.{told_behind};
ghost use Rattle.socat_top.specs.Kept.{history_of};
ghost use Rattle.socat_top.specs.Headline.{Answers, CompletesTask, Leaves, TaskEnds, TaskEndsBehind};
ghost use Rattle.socat_top.specs.Tasks.{task};
ghost use Rattle.socat_top.specs.Written.{AsksForFile};
ghost use Rattle.socat_top.specs.Written.{TookText, asks_for_journal, is_asked, is_note, journal_name, status_with, told_before, without_last_note, words_of_run};

use crate::creations::{Creation, keep_history};
use crate::files::JournalFile;
use crate::runs::{Shipped, run};
use journal_text::write_front;
use port_desk::{Desk, Modelled};
use port_trait::{Maker, Poller, Port, write_whole};
use relay_model::{Act, Journal, Text};
use std::alloc::Global;

/// The flag that asks for a written journal; the name of its file follows in the same word.
const FLAG: &[u8] = b"--journal=";

/// What became of the journal of a run.
#[derive(Clone, Copy, PartialEq, Eq)]
pub enum Saving {
    NotAsked,
    Saved,
    Failed,
    Memory,
}

/// How a run ended, what became of its journal, and the exit status by both.
#[derive(Drop)]
pub struct Written<I: Port, O: Port, E: Port> {
    pub shipped: Shipped<I, O, E>,
    pub saving: Saving,
    pub status: u8,
}

/// Does what the words ask over a desk, with at most `turns` waits, and ends the desk. Where the first word is
/// `--journal=` with a name, the desk keeps its history, the file of that name is made before anything else is done,
/// and at the end all that was done is written to it, but for the line of the outcome. Elsewhere that word is an
/// unknown flag. What becomes of the file changes nothing of the run but its status.
pub fn run_written<M, P, I: Port, O: Port, E: Port, F: JournalFile>(
    alloc: Global,
    mut desk: Desk<M, P, I, O, E>,
    words: &[Text],
    turns: u64,
    file: &mut F,
) -> Written<I, O, E>
where
    M: Maker + Drop,
    P: Poller + Drop,
    requires free { IsFree (⟦<Desk<M, P, I, O, E> as Modelled>⟧.model desk) }
    requires untouched { (⟦<Desk<M, P, I, O, E> as Modelled>⟧.model desk).acted ≡ false }
    ensures asked { is_asked result.saving ≡ asks_for_journal words.now }
    ensures named { result.saving ≡ savings.Saved → (made : F) × F.creates file.old (journal_name words.now) made }
    ensures tried { asks_for_journal words.now ≡ true
        → AsksForFile F.creates F.refuses file.old (journal_name words.now) file.new result.saving }
    ensures unasked { asks_for_journal words.now ≡ false → file.new ≡ file.old }
    ensures saved { result.saving ≡ savings.Saved → TookText (F.took file.old) (F.took file.new) (without_last_note result.shipped.kept.journal.acts) }
    ensures finished { result.saving ≡ savings.Saved → F.finished file.new ≡ true }
    ensures unsaved { result.saving ≡ savings.Failed → Risen (F.faults file.old) (F.faults file.new) }
    ensures status { result.status ≡ status_with result.shipped.status result.saving }
    ensures run_status { result.shipped.status ≡ exit_code result.shipped.outcome }
    ensures headline { (before : History)
        → told_before (asks_for_journal words.now) (⟦<Desk<M, P, I, O, E> as Modelled>⟧.model desk).history ≡ Some before
        → Leaves (task (words_of_run words.now)) turns before (Some (history_of result.shipped.kept)) result.shipped.outcome }
    ensures passed { let stdin = I.seen (handed result.shipped.standard.stdin) in
        let stdout = O.seen (handed result.shipped.standard.stdout) in let stderr = E.seen (handed result.shipped.standard.stderr) in
        (before : History) → told_before (asks_for_journal words.now) (⟦<Desk<M, P, I, O, E> as Modelled>⟧.model desk).history ≡ Some before
        → AreUnused (⟦<Desk<M, P, I, O, E> as Modelled>⟧.model desk)
        → Passed (history_of result.shipped.kept) stdin.gave stdout.took stderr.took stdin.ended }
    ensures ends { let stdin = I.seen (handed result.shipped.standard.stdin) in let stdout = O.seen (handed result.shipped.standard.stdout) in
        told_before (asks_for_journal words.now) (⟦<Desk<M, P, I, O, E> as Modelled>⟧.model desk).history ≡ Some (record { acts = []; asked = [] })
        → AreUnused (⟦<Desk<M, P, I, O, E> as Modelled>⟧.model desk)
        → TaskEnds (task (words_of_run words.now)) result.shipped.kept.journal.acts stdin.gave stdout.took stdin.ended }
    ensures stdin_behind { OnJoinedBack (λ port. Agrees (I.seen port)) result.shipped.standard.stdin }
    ensures stdout_behind { OnJoinedBack (λ port. Agrees (O.seen port)) result.shipped.standard.stdout }
    ensures behind { let stdin = I.seen (handed result.shipped.standard.stdin) in let stdout = O.seen (handed result.shipped.standard.stdout) in
        told_before (asks_for_journal words.now) (⟦<Desk<M, P, I, O, E> as Modelled>⟧.model desk).history ≡ Some (record { acts = []; asked = [] })
        → AreUnused (⟦<Desk<M, P, I, O, E> as Modelled>⟧.model desk)
        → TaskEndsBehind (task (words_of_run words.now)) result.shipped.kept.journal.acts stdin stdout
        (told_behind I.seen result.shipped.standard.stdin) (told_behind O.seen result.shipped.standard.stdout) }
    ensures answers { Answers (task (words_of_run words.now)) result.shipped.outcome }
    ensures complete { let before = (⟦<Desk<M, P, I, O, E> as Modelled>⟧.model desk).counts in let after = result.shipped.counts in
        CompletesTask (task (words_of_run words.now)) turns before.faults after.faults before.waits after.waits
        before.stops after.stops result.shipped.outcome }
    ensures failed { is_failure result.shipped.outcome ≡ true → Risen (⟦<Desk<M, P, I, O, E> as Modelled>⟧.model desk).counts.faults result.shipped.counts.faults }
    ensures stopped { let before = (⟦<Desk<M, P, I, O, E> as Modelled>⟧.model desk).counts in
        StopCause turns before.waits result.shipped.counts.waits before.stops result.shipped.counts.stops result.shipped.outcome }
{
    let Some((name, words)) = journal_flag(words) else {
        return with_saving(run(alloc, desk, words, turns), Saving::NotAsked);
    };
    let made = file.create(name);
    let creation = keep_history(&mut desk, file, name, made);
    let shipped = run(alloc, desk, words, turns);
    let saving = save(alloc, shipped.kept.journal(), file, creation);
    with_saving(shipped, saving)
}

/// The name of the journal's file and the words behind it, where the first word is the flag.
pub fn journal_flag(words: &[Text]) -> Option<(&[u8], &[Text])>
    ensures flag { MatchOption result ((asks_for_journal words.now ≡ false) × (words_of_run words.now ≡ words.now))
        (λ found. (asks_for_journal words.now ≡ true) × (words_of_run words.now ≡ found.1.now)) }
    ensures named { IfSome result (λ found. found.0.now ≡ journal_name words.now) }
{
    let [first, others @ ..] = words else {
        return None;
    };
    match first.as_slice().strip_prefix(FLAG) {
        Some(name) => Some((name, others)),
        None => None,
    }
}

/// Writes what was done to the file, where that was made.
fn save<F: JournalFile>(
    alloc: Global,
    journal: &Journal,
    file: &mut F,
    creation: Creation,
) -> Saving
    ensures asked { is_asked result ≡ true }
    ensures made { result ≡ savings.Saved → creation.made ≡ true }
    ensures unmade { OnFalse creation.made (file.new ≡ file.old) }
    ensures failed { OnFalse creation.made (result ≡ savings.Failed) }
    ensures saved { result ≡ savings.Saved → TookText (F.took file.old) (F.took file.new) (without_last_note journal.now.acts) }
    ensures finished { result ≡ savings.Saved → F.finished file.new ≡ true }
    ensures unsaved { OnTrue creation.made (result ≡ savings.Failed → Risen (F.faults file.old) (F.faults file.new)) }
{
    if !creation.is_made() {
        return Saving::Failed;
    }
    let Ok(text) = write_front(alloc, journal, count_without_last_note(journal)) else {
        return Saving::Memory;
    };
    if write_whole(file, text.as_slice()) {
        Saving::Saved
    } else {
        Saving::Failed
    }
}

/// How many acts there are without a note that came last.
fn count_without_last_note(journal: &Journal) -> usize
    ensures within { result ≤ length journal.now.acts }
    ensures acts { drop (length journal.now.acts - result) journal.now.acts ≡ without_last_note journal.now.acts }
{
    let count = journal.len();
    if count > 0 && is_note(journal.get(count - 1)) {
        return count - 1;
    }
    count
}

fn is_note(act: &Act) -> bool
    ensures { result ≡ is_note act.now }
{
    matches!(act, Act::Note(_) | Act::NoteFault(_))
}

/// The end of a run with what became of its journal.
fn with_saving<I: Port, O: Port, E: Port>(
    shipped: Shipped<I, O, E>,
    saving: Saving,
) -> Written<I, O, E>
    ensures { result ≡ record { shipped = shipped; saving = saving; status = status_with shipped.status saving } }
{
    let status = status_with(shipped.status, saving);
    Written {
        shipped,
        saving,
        status,
    }
}

fn status_with(status: u8, saving: Saving) -> u8
    ensures { result ≡ status_with status saving }
{
    if status > 0 {
        return status;
    }
    match saving {
        Saving::NotAsked | Saving::Saved => 0,
        Saving::Failed => 1,
        Saving::Memory => 2,
    }
}
