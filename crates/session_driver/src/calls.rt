// The calls that a session wishes for, each made on a world.
ghost use Rattle.std.specs.Prelude.{◌≡◌, ℕ, ◌<◌, ◌≤◌, List, length, take, true, false, vec_len};
ghost use Rattle.relay_model.specs.{Act, is_of, Free, Settling, Open, is_free};
ghost use Rattle.world_trait.specs.{NotReaped};
ghost use Rattle.relay_session.specs.declared.wishes.Wish.TheVariants as wishes;
ghost use Rattle.relay_session.specs.{Stands, wish_of, has_ended};
ghost use Rattle.session_driver.specs.Noted.{AskIs, FetchIs};
ghost use Rattle.session_driver.specs.Steps.{IsCut, IsOwn, Meets, StepIs, WishesRead};
ghost use Rattle.session_driver.specs.declared.stepped.Stepped.TheVariants as steps;

use crate::stepped::{Fetched, Stepped};
use command_places::single;
use relay_model::{Config, Place, Shut, Why};
use relay_session::{Answer, Session};
use world_trait::{
    AcceptAnswer, ListenAnswer, OpenAnswer, ReadAnswer, ReapAnswer, SendAnswer, ShutAnswer, World,
    WriteAnswer,
};

/// Cuts the session since memory was wanting.
fn want(session: &mut Session) -> Stepped
    ensures cut { IsCut session.old session.new }
    ensures memory { result ≡ steps.Memory }
{
    session.cut(Why::Memory);
    Stepped::Memory
}

/// Makes an opening.
pub fn open<W: World>(
    session: &mut Session,
    world: &mut W,
    config: &Config,
    place: Place,
) -> Stepped
    requires wish { wish_of session.old ≡ wishes.Open place }
    requires free { (W.seen world.old).held place ≡ Free }
    requires own { (n : ℕ) (past : List Act) (s : ℕ) → Stands config.now n past s session.old → is_of config.now s place ≡ true }
    requires going { has_ended session.old ≡ false }
    ensures { StepIs config.now (W.seen world.old) (W.seen world.new) session.old session.new result }
{
    let behind = session.peer();
    match world.open_place(place, single(config, place), behind) {
        OpenAnswer::Opened => {
            session.hear(Answer::Opened);
            Stepped::Acted
        }
        OpenAnswer::Later => {
            session.hear(Answer::Later);
            Stepped::Acted
        }
        OpenAnswer::Failed => {
            session.hear(Answer::Failed);
            Stepped::Acted
        }
        OpenAnswer::Memory => want(session),
    }
}

/// Looks again at an opening that is under way.
pub fn settle<W: World>(
    session: &mut Session,
    world: &mut W,
    config: &Config,
    place: Place,
) -> Stepped
    requires wish { wish_of session.old ≡ wishes.Settle place }
    requires settling { (W.seen world.old).held place ≡ Settling }
    requires going { has_ended session.old ≡ false }
    ensures { StepIs config.now (W.seen world.old) (W.seen world.new) session.old session.new result }
{
    match world.settle(place) {
        OpenAnswer::Opened => {
            session.hear(Answer::Opened);
            Stepped::Acted
        }
        OpenAnswer::Later => {
            session.hear(Answer::Later);
            Stepped::Acted
        }
        OpenAnswer::Failed => {
            session.hear(Answer::Failed);
            Stepped::Acted
        }
        OpenAnswer::Memory => want(session),
    }
}

/// Listens at a door.
pub fn listen<W: World>(
    session: &mut Session,
    world: &mut W,
    config: &Config,
    door: Place,
) -> Stepped
    requires wish { wish_of session.old ≡ wishes.Listen door }
    requires free { (W.seen world.old).held door ≡ Free }
    requires own { (n : ℕ) (past : List Act) (s : ℕ) → Stands config.now n past s session.old → is_of config.now s door ≡ true }
    requires going { has_ended session.old ≡ false }
    ensures { StepIs config.now (W.seen world.old) (W.seen world.new) session.old session.new result }
{
    match world.listen(door, single(config, door)) {
        ListenAnswer::Listening => {
            session.hear(Answer::Listening);
            Stepped::Acted
        }
        ListenAnswer::Failed => {
            session.hear(Answer::Failed);
            Stepped::Acted
        }
        ListenAnswer::Memory => want(session),
    }
}

/// Asks for the next peer at a door.
pub fn accept<W: World>(
    session: &mut Session,
    world: &mut W,
    config: &Config,
    door: Place,
    place: Place,
) -> Stepped
    requires wish { wish_of session.old ≡ wishes.Accept door place }
    requires door { (W.seen world.old).held door ≡ Open }
    requires place { (W.seen world.old).held place ≡ Free }
    requires going { has_ended session.old ≡ false }
    ensures { StepIs config.now (W.seen world.old) (W.seen world.new) session.old session.new result }
{
    match world.accept(door, place) {
        AcceptAnswer::Accepted(peer) => {
            session.hear(Answer::Accepted(peer));
            Stepped::Acted
        }
        AcceptAnswer::NoPeer => {
            session.hear(Answer::NoPeer);
            Stepped::Acted
        }
        AcceptAnswer::Failed => {
            session.hear(Answer::Failed);
            Stepped::Acted
        }
        AcceptAnswer::Memory => want(session),
    }
}

/// Asks for so many bytes, which are read into the block of the session's that the last ones were written from, where it
/// traded one for the scratch.
pub fn read<W: World>(
    session: &mut Session,
    world: &mut W,
    config: &Config,
    scratch: &mut Vec<u8>,
    place: Place,
    at_most: usize,
) -> Stepped
    requires reads { WishesRead config.now (W.seen world.old) session.old place at_most }
    requires some { 0 < at_most }
    requires within { at_most ≤ vec_len scratch.old }
    ensures step { StepIs config.now (W.seen world.old) (W.seen world.new) session.old session.new result }
    ensures scratch { vec_len scratch.new ≡ vec_len scratch.old }
{
    session.trade_back(place, scratch);
    read_front(session, world, config, scratch, place, at_most)
}

/// Asks for so many bytes, which are read into the front of the scratch. Where the session keeps that block, its own takes
/// the place of it.
fn read_front<W: World>(
    session: &mut Session,
    world: &mut W,
    config: &Config,
    scratch: &mut Vec<u8>,
    place: Place,
    at_most: usize,
) -> Stepped
    requires reads { WishesRead config.now (W.seen world.old) session.old place at_most }
    requires some { 0 < at_most }
    requires within { at_most ≤ vec_len scratch.old }
    ensures step { StepIs config.now (W.seen world.old) (W.seen world.new) session.old session.new result }
    ensures scratch { vec_len scratch.new ≡ vec_len scratch.old }
{
    match ask_front(
        session,
        world,
        config,
        scratch.as_mut_slice(),
        place,
        at_most,
    ) {
        Fetched::Bytes(count) => {
            session.hear_block(scratch, count);
            Stepped::Acted
        }
        Fetched::Other(stepped) => stepped,
    }
}

/// Asks for as many bytes as `into` has room for, which are those of the wish, has the session hear of them, and tells how
/// many came.
pub fn fetch<W: World>(
    session: &mut Session,
    world: &mut W,
    config: &Config,
    into: &mut [u8],
    place: Place,
    at_most: usize,
) -> Fetched
    requires reads { WishesRead config.now (W.seen world.old) session.old place at_most }
    requires some { 0 < length into.old }
    requires wished { length into.old ≡ at_most }
    ensures step { FetchIs config.now (W.seen world.old) (W.seen world.new) session.old session.new place into.new result }
    ensures into { length into.new ≡ length into.old }
{
    match ask(session, world, config, into, place, at_most) {
        Fetched::Bytes(count) => {
            session.hear(Answer::Bytes(&into[..count]));
            Fetched::Bytes(count)
        }
        Fetched::Other(stepped) => Fetched::Other(stepped),
    }
}

/// Asks for so many bytes, which are read into the front of the block. Of bytes that come the session hasn't heard yet.
fn ask_front<W: World>(
    session: &mut Session,
    world: &mut W,
    config: &Config,
    block: &mut [u8],
    place: Place,
    at_most: usize,
) -> Fetched
    requires reads { WishesRead config.now (W.seen world.old) session.old place at_most }
    requires some { 0 < at_most }
    requires within { at_most ≤ length block.old }
    ensures step { AskIs config.now (W.seen world.old) (W.seen world.new) session.old session.new place
        (take at_most block.new) result }
    ensures block { length block.new ≡ length block.old }
{
    ask(
        session,
        world,
        config,
        &mut block[..at_most],
        place,
        at_most,
    )
}

/// Asks for as many bytes as `into` has room for, which are those of the wish. Of bytes that come the session hasn't heard
/// yet.
fn ask<W: World>(
    session: &mut Session,
    world: &mut W,
    config: &Config,
    into: &mut [u8],
    place: Place,
    at_most: usize,
) -> Fetched
    requires reads { WishesRead config.now (W.seen world.old) session.old place at_most }
    requires some { 0 < length into.old }
    requires wished { length into.old ≡ at_most }
    ensures step { AskIs config.now (W.seen world.old) (W.seen world.new) session.old session.new place into.new result }
    ensures into { length into.new ≡ length into.old }
{
    match world.read(place, into) {
        ReadAnswer::Bytes(count) => Fetched::Bytes(count),
        ReadAnswer::Empty => {
            session.hear(Answer::Empty);
            Fetched::Other(Stepped::Acted)
        }
        ReadAnswer::End => {
            session.hear(Answer::End);
            Fetched::Other(Stepped::Acted)
        }
        ReadAnswer::NotYet => {
            session.hear(Answer::NotYet);
            Fetched::Other(Stepped::Acted)
        }
        ReadAnswer::Failed => {
            session.hear(Answer::Failed);
            Fetched::Other(Stepped::ReadFailed(place))
        }
        ReadAnswer::Memory => Fetched::Other(want(session)),
    }
}

/// Writes from the front of what waits.
pub fn write<W: World>(
    session: &mut Session,
    world: &mut W,
    config: &Config,
    place: Place,
) -> Stepped
    requires wish { wish_of session.old ≡ wishes.Write place }
    requires open { (W.seen world.old).held place ≡ Open }
    requires own { IsOwn config.now session.old place }
    requires going { has_ended session.old ≡ false }
    requires meets { Meets config.now (W.seen world.old) session.old }
    ensures { StepIs config.now (W.seen world.old) (W.seen world.new) session.old session.new result }
{
    match world.write(place, session.pending()) {
        WriteAnswer::Took(count) => {
            session.hear(Answer::Took(count));
            Stepped::Acted
        }
        WriteAnswer::NotYet => {
            session.hear(Answer::NotYet);
            Stepped::Acted
        }
        WriteAnswer::Failed => {
            session.hear(Answer::Failed);
            Stepped::WriteFailed(place)
        }
        WriteAnswer::Memory => want(session),
    }
}

/// Sends what waits as one packet.
pub fn send<W: World>(
    session: &mut Session,
    world: &mut W,
    config: &Config,
    place: Place,
) -> Stepped
    requires wish { wish_of session.old ≡ wishes.Send place }
    requires open { (W.seen world.old).held place ≡ Open }
    requires own { IsOwn config.now session.old place }
    requires going { has_ended session.old ≡ false }
    requires meets { Meets config.now (W.seen world.old) session.old }
    ensures { StepIs config.now (W.seen world.old) (W.seen world.new) session.old session.new result }
{
    let packet = session.pending();
    let count = packet.len();
    match world.send(place, packet) {
        SendAnswer::Sent => {
            session.hear(Answer::Took(count));
            Stepped::Acted
        }
        SendAnswer::NotYet => {
            session.hear(Answer::NotYet);
            Stepped::Acted
        }
        SendAnswer::Failed => {
            session.hear(Answer::Failed);
            Stepped::WriteFailed(place)
        }
        SendAnswer::Memory => want(session),
    }
}

/// Passes an end on.
pub fn shut<W: World>(
    session: &mut Session,
    world: &mut W,
    config: &Config,
    place: Place,
    how: Shut,
) -> Stepped
    requires wish { wish_of session.old ≡ wishes.Shut place how }
    requires open { (W.seen world.old).held place ≡ Open }
    requires going { has_ended session.old ≡ false }
    ensures { StepIs config.now (W.seen world.old) (W.seen world.new) session.old session.new result }
{
    match world.shut(place, how) {
        ShutAnswer::Done => {
            session.hear(Answer::Done);
            Stepped::Acted
        }
        ShutAnswer::Failed => {
            session.hear(Answer::Failed);
            Stepped::Acted
        }
        ShutAnswer::Memory => want(session),
    }
}

/// Closes what is held.
pub fn close<W: World>(
    session: &mut Session,
    world: &mut W,
    config: &Config,
    place: Place,
    why: Why,
) -> Stepped
    requires wish { wish_of session.old ≡ wishes.Close place why }
    requires held { is_free ((W.seen world.old).held place) ≡ false }
    ensures acted { result ≡ steps.Acted }
    ensures step { StepIs config.now (W.seen world.old) (W.seen world.new) session.old session.new result }
{
    world.close(place, why);
    session.hear(Answer::Done);
    Stepped::Acted
}

/// Asks what became of a child. Where memory is wanting nothing becomes known of it.
pub fn reap<W: World>(
    session: &mut Session,
    world: &mut W,
    config: &Config,
    place: Place,
) -> Stepped
    requires wish { wish_of session.old ≡ wishes.Reap place }
    requires free { (W.seen world.old).held place ≡ Free }
    requires once { NotReaped (W.seen world.old).told place }
    ensures { StepIs config.now (W.seen world.old) (W.seen world.new) session.old session.new result }
{
    match world.reap(place) {
        ReapAnswer::Reaped(end) => {
            session.hear(Answer::Reaped(end));
            Stepped::Acted
        }
        ReapAnswer::NoChild | ReapAnswer::Memory => {
            session.hear(Answer::NoChild);
            Stepped::Childless
        }
    }
}
