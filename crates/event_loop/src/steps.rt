// What a call of the loop came to.
use exit_status::Outcome;

/// What a call of the loop came to.
#[derive(Drop)]
pub enum Step {
    /// It waited once, and goes on at the next call.
    Goes,
    /// The relay is over and holds nothing. The loop isn't called any more.
    Over(Outcome),
}
