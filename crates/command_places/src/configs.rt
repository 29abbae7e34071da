// What a command fixes before anything happens: its places and doors, which directions are formed, and how an end
// is passed on.
ghost use Rattle.std.specs.Prelude.{◌≡◌, ◌≤◌, ◌+◌, ◌++◌, ◌∷◌, [], length, map, filter, count_by};
ghost use Rattle.std.specs.List.{list_any};
ghost use Rattle.relay_model.specs.{same_place, door_of, medium, is_datagrams, is_program, source, sink, way_from, way_to, address, narrowed};
ghost use Rattle.relay_model.specs.{offered, parts_of, parts, place_at, places, single_for, single, options_of, medium_of, listens_at, forks};
ghost use Rattle.relay_model.specs.{has_fork, program_door, is_left, is_program_door, has_own_door, accepting_door, own_doors, is_place_of, things};
ghost use Rattle.relay_model.specs.{is_of, has_half, part_with, formed, input, output, keeps_borders, writes_output, stands_on_output};
ghost use Rattle.relay_model.specs.{output_is_shared, is_error_stream, writes_shared_stream, datagram_shut, connection_shut, plain_shut, shut_on};
ghost use Rattle.relay_model.specs.{how};

use crate::place_lists::PlaceList;
use relay_model::{
    Address, Config, FileFlags, Half, Medium, Options, Part, Place, Shut, Side, Single, Target,
    Way, Ways,
};

// ---- kinds

fn stands_on(target: &Target) -> Medium
    ensures { result ≡ medium target.now }
{
    match target {
        Target::Stdio | Target::Stdin | Target::Stdout | Target::Stderr => Medium::Standard,
        Target::Create(_)
        | Target::FileAt(_)
        | Target::GenericOpen(_)
        | Target::Echo
        | Target::NamedPipe(_) => Medium::Storage,
        Target::Tcp { .. }
        | Target::TcpListen { .. }
        | Target::UnixConnect(_)
        | Target::UnixListen(_)
        | Target::Socks { .. }
        | Target::Proxy { .. } => Medium::Connection,
        Target::Udp { .. }
        | Target::UdpListen { .. }
        | Target::UdpRecvfrom { .. }
        | Target::UdpRecv { .. }
        | Target::UdpSendto { .. } => Medium::Datagrams,
        Target::Exec(_) | Target::System(_) => Medium::Program,
    }
}

// ---- directions

/// Where a direction begins.
pub fn source(way: Way) -> Side
    ensures { result ≡ source way }
{
    match way {
        Way::LeftToRight => Side::Left,
        Way::RightToLeft => Side::Right,
    }
}

/// Where it ends.
pub fn sink(way: Way) -> Side
    ensures { result ≡ sink way }
{
    match way {
        Way::LeftToRight => Side::Right,
        Way::RightToLeft => Side::Left,
    }
}

/// The direction that begins at a side.
pub fn way_from(side: Side) -> Way
    ensures { result ≡ way_from side }
{
    match side {
        Side::Left => Way::LeftToRight,
        Side::Right => Way::RightToLeft,
    }
}

/// The direction that ends at a side.
pub fn way_to(side: Side) -> Way
    ensures { result ≡ way_to side }
{
    match side {
        Side::Left => Way::RightToLeft,
        Side::Right => Way::LeftToRight,
    }
}

// ---- places

/// The address of a side, as it was given.
pub fn address(config: &Config, side: Side) -> &Address
    ensures { result.now ≡ address config.now side }
{
    match side {
        Side::Left => &config.left,
        Side::Right => &config.right,
    }
}

fn file_part(flags: FileFlags) -> Part
    ensures { result ≡ narrowed flags }
{
    if flags.rdonly {
        Part::Reading
    } else if flags.wronly {
        Part::Writing
    } else {
        Part::Both
    }
}

/// The part of a single address in a two-way call.
fn two_way_part(target: &Target, flags: FileFlags) -> Part
    ensures { result ≡ offered target.now flags }
{
    match target {
        Target::Stdin => Part::Reading,
        Target::Stdout | Target::Stderr => Part::Writing,
        Target::FileAt(_) | Target::GenericOpen(_) => file_part(flags),
        _ => Part::Both,
    }
}

/// The parts of a side, in opening order.
fn parts_of(ways: Ways, address: &Address, side: Side) -> &'static [Part]
    ensures parts { result.now ≡ parts_of ways address.now side }
    ensures few { length result.now ≤ 2 }
{
    match ways {
        Ways::Two => match address {
            Address::One(single) => only(two_way_part(&single.target, single.options.file)),
            Address::Two { .. } => &[Part::Reading, Part::Writing],
        },
        Ways::OnlyRight => match side {
            Side::Left => &[Part::Reading],
            Side::Right => &[Part::Writing],
        },
        Ways::OnlyLeft => match side {
            Side::Left => &[Part::Writing],
            Side::Right => &[Part::Reading],
        },
    }
}

fn only(part: Part) -> &'static [Part]
    ensures { result.now ≡ part ∷ [] }
{
    match part {
        Part::Both => &[Part::Both],
        Part::Reading => &[Part::Reading],
        Part::Writing => &[Part::Writing],
    }
}

/// The parts that a side opens, in opening order; at most two.
pub fn parts(config: &Config, side: Side) -> &'static [Part]
    ensures parts { result.now ≡ parts config.now side }
    ensures few { length result.now ≤ 2 }
{
    parts_of(config.ways, address(config, side), side)
}

/// The place of a session at a side.
pub fn place_at(session: u32, side: Side, part: Part) -> Place
    ensures { result ≡ place_at session side part }
{
    Place {
        session,
        side,
        part,
        door: false,
    }
}

fn push_places(list: &mut PlaceList, session: u32, side: Side, mut parts: &[Part])
    requires { length list.old + length parts.now ≤ 8 }
    ensures { list.new ≡ list.old ++ map (place_at session side) parts.entry.now }
{
    while let [part, rest @ ..] = parts {
        list.push(place_at(session, side, *part));
        parts = rest;
    }
}

/// The places of a session, in opening order.
pub fn places(config: &Config, session: u32) -> PlaceList
    ensures places { result ≡ places config.now session }
    ensures few { length result ≤ 4 }
{
    let mut list = PlaceList::new();
    push_places(&mut list, session, Side::Left, parts(config, Side::Left));
    push_places(&mut list, session, Side::Right, parts(config, Side::Right));
    list
}

/// The half of an address for a part of its side: one single address is for each part, and of two the first is read.
fn single_for(address: &Address, part: Part) -> &Single
    ensures { result.now ≡ single_for address.now part }
{
    match address {
        Address::One(single) => single,
        Address::Two { reading, writing } => match part {
            Part::Both | Part::Reading => reading,
            Part::Writing => writing,
        },
    }
}

/// The single address that a place stands for; a door has that of its place.
pub fn single(config: &Config, place: Place) -> &Single
    ensures { result.now ≡ single config.now place }
{
    single_for(address(config, place.side), place.part)
}

/// The options of the address that a place stands for; a door has those of its place.
pub fn options_of(config: &Config, place: Place) -> &Options
    ensures { result.now ≡ options_of config.now place }
{
    &single(config, place).options
}

/// What the place stands on.
pub fn medium_of(config: &Config, place: Place) -> Medium
    ensures { result ≡ medium_of config.now place }
{
    stands_on(&single(config, place).target)
}

/// Whether the place waits for a peer.
pub fn listens_at(config: &Config, place: Place) -> bool
    ensures { result ≡ listens_at config.now place }
{
    single(config, place).target.listens()
}

// ---- doors

fn forks(address: &Address) -> bool
    ensures { result ≡ forks address.now }
{
    match address {
        Address::One(single) => single.options.sessions.fork,
        Address::Two { .. } => false,
    }
}

/// Whether each permitted peer of the left address is a session of its own.
pub fn has_fork(config: &Config) -> bool
    ensures { result ≡ has_fork config.now }
{
    forks(&config.left)
}

/// The one door of a command with `fork`.
pub fn program_door() -> Place
    ensures { result ≡ program_door }
{
    Place {
        session: 0,
        side: Side::Left,
        part: Part::Both,
        door: true,
    }
}

/// Whether a place or door belongs to the left address.
pub fn is_left(place: Place) -> bool
    ensures { result ≡ is_left place }
{
    match place.side {
        Side::Left => true,
        Side::Right => false,
    }
}

/// Whether it is the one door of a command with `fork`.
pub fn is_program_door(config: &Config, place: Place) -> bool
    ensures { result ≡ is_program_door config.now place }
{
    place.is(program_door()) && has_fork(config)
}

/// Whether a place has a door of its own: with `fork` the left one hasn't.
pub fn has_own_door(config: &Config, place: Place) -> bool
    ensures { result ≡ has_own_door config.now place }
{
    listens_at(config, place) && !(is_left(place) && has_fork(config))
}

/// The door at which the peer of a place is accepted.
pub fn accepting_door(config: &Config, place: Place) -> Place
    ensures { result ≡ accepting_door config.now place }
{
    if is_left(place) && has_fork(config) {
        program_door()
    } else {
        place.own_door()
    }
}

fn push_own_doors(list: &mut PlaceList, config: &Config, mut places: &[Place])
    requires { length list.old + length places.now ≤ 8 }
    ensures { list.new ≡ list.old ++ map door_of (filter (has_own_door config.now) places.entry.now) }
{
    while let [place, rest @ ..] = places {
        if has_own_door(config, *place) {
            list.push(place.own_door());
        }
        places = rest;
    }
}

/// The doors that belong to a session.
pub fn own_doors(config: &Config, session: u32) -> PlaceList
    ensures { result ≡ own_doors config.now session }
{
    let mut list = PlaceList::new();
    push_own_doors(&mut list, config, places(config, session).as_slice());
    list
}

/// Whether the place is one of these.
pub fn is_among(place: Place, places: &[Place]) -> bool
    ensures { result ≡ list_any (same_place place) places.now }
{
    places.iter().any(|other| place.is(*other))
}

/// Whether the place is one of the session's.
pub fn is_place_of(config: &Config, session: u32, place: Place) -> bool
    ensures { result ≡ is_place_of config.now session place }
{
    is_among(place, places(config, session).as_slice())
}

/// The places and own doors of a session.
pub fn things(config: &Config, session: u32) -> PlaceList
    ensures { result ≡ things config.now session }
{
    let mut list = places(config, session);
    push_own_doors(&mut list, config, places(config, session).as_slice());
    list
}

/// Whether the place or door is one of the session's.
pub fn is_of(config: &Config, session: u32, place: Place) -> bool
    ensures { result ≡ is_of config.now session place }
{
    is_among(place, things(config, session).as_slice())
}

// ---- formed directions

fn has_half(half: Half, part: Part) -> bool
    ensures { result ≡ has_half half part }
{
    match part {
        Part::Both => true,
        Part::Reading => half == Half::ToRead,
        Part::Writing => half == Half::ToWrite,
    }
}

/// The part among these that has the half.
fn part_with(half: Half, mut parts: &[Part]) -> Option<Part>
    ensures { result ≡ part_with half parts.entry.now }
{
    while let [part, rest @ ..] = parts {
        if has_half(half, *part) {
            return Some(*part);
        }
        parts = rest;
    }
    None
}

/// Whether both ends of the direction exist.
pub fn is_formed(config: &Config, way: Way) -> bool
    ensures { result ≡ formed config.now way }
{
    part_with(Half::ToRead, parts(config, source(way))).is_some()
        && part_with(Half::ToWrite, parts(config, sink(way))).is_some()
}

/// Where a formed direction is read from.
pub fn input(config: &Config, session: u32, way: Way) -> Place
    ensures { result ≡ input config.now session way }
{
    let part = part_with(Half::ToRead, parts(config, source(way))).unwrap_or(Part::Both);
    place_at(session, source(way), part)
}

/// Where it is written to.
pub fn output(config: &Config, session: u32, way: Way) -> Place
    ensures { result ≡ output config.now session way }
{
    let part = part_with(Half::ToWrite, parts(config, sink(way))).unwrap_or(Part::Both);
    place_at(session, sink(way), part)
}

fn is_datagrams(medium: Medium) -> bool
    ensures { result ≡ is_datagrams medium }
{
    match medium {
        Medium::Datagrams => true,
        _ => false,
    }
}

/// Whether it is a child, which is reaped after it was closed.
pub fn is_program(medium: Medium) -> bool
    ensures { result ≡ is_program medium }
{
    match medium {
        Medium::Program => true,
        _ => false,
    }
}

/// Whether both ends of a formed direction carry datagrams, whose borders are then kept.
pub fn keeps_borders(config: &Config, way: Way) -> bool
    ensures { result ≡ keeps_borders config.now way }
{
    is_formed(config, way)
        && is_datagrams(medium_of(config, input(config, 0, way)))
        && is_datagrams(medium_of(config, output(config, 0, way)))
}

// ---- passing the end on

/// Whether the writing half of a place stands on standard output.
fn writes_output(target: &Target, part: Part) -> bool
    ensures { result ≡ writes_output target.now part }
{
    match target {
        Target::Stdio => has_half(Half::ToWrite, part),
        Target::Stdout => true,
        _ => false,
    }
}

fn stands_on_output(config: &Config, place: Place) -> bool
    ensures { result ≡ stands_on_output config.now place }
{
    writes_output(&single(config, place).target, place.part)
}

fn count_on_output(config: &Config, places: &[Place]) -> usize
    ensures { result ≡ count_by (stands_on_output config.now) places.now }
{
    places
        .iter()
        .filter(|place| stands_on_output(config, **place))
        .count()
}

/// Standard output is shared with `fork` and where two places stand on it.
fn output_is_shared(config: &Config) -> bool
    ensures { result ≡ output_is_shared config.now }
{
    has_fork(config) || count_on_output(config, places(config, 0).as_slice()) >= 2
}

fn is_error_stream(target: &Target) -> bool
    ensures { result ≡ is_error_stream target.now }
{
    match target {
        Target::Stderr => true,
        _ => false,
    }
}

/// Standard error carries the notes too, so it is always shared.
fn writes_shared_stream(config: &Config, place: Place) -> bool
    ensures { result ≡ writes_shared_stream config.now place }
{
    is_error_stream(&single(config, place).target)
        || stands_on_output(config, place) && output_is_shared(config)
}

fn datagram_shut(asked: Option<Shut>) -> Shut
    ensures { result ≡ datagram_shut asked }
{
    match asked {
        Some(Shut::Null) => Shut::Null,
        _ => Shut::Nothing,
    }
}

fn connection_shut(asked: Option<Shut>) -> Shut
    ensures { result ≡ connection_shut asked }
{
    match asked {
        None | Some(Shut::Down) => Shut::Down,
        Some(Shut::Null) | Some(Shut::Nothing) => Shut::Nothing,
        Some(Shut::Close) => Shut::Close,
    }
}

fn plain_shut(asked: Option<Shut>) -> Shut
    ensures { result ≡ plain_shut asked }
{
    match asked {
        Some(Shut::Nothing) | Some(Shut::Null) => Shut::Nothing,
        _ => Shut::Close,
    }
}

fn shut_on(medium: Medium, asked: Option<Shut>) -> Shut
    ensures { result ≡ shut_on medium asked }
{
    match medium {
        Medium::Datagrams => datagram_shut(asked),
        Medium::Connection => connection_shut(asked),
        Medium::Standard | Medium::Storage | Medium::Program => plain_shut(asked),
    }
}

/// How the end of a direction is passed on at its output.
pub fn how(config: &Config, place: Place) -> Shut
    ensures { result ≡ how config.now place }
{
    if writes_shared_stream(config, place) {
        Shut::Nothing
    } else {
        shut_on(medium_of(config, place), options_of(config, place).shut)
    }
}
