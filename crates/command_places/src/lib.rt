// What a command fixes before anything happens: the places and doors of its sessions, the directions that are formed,
// and how an end is passed on.
#![tactic(auto)]

mod configs;
mod place_lists;

pub use configs::{
    accepting_door, has_fork, has_own_door, how, input, is_among, is_formed, is_left, is_of,
    is_place_of, is_program, is_program_door, keeps_borders, listens_at, medium_of, options_of,
    output, own_doors, parts, place_at, places, program_door, single, sink, source, things,
    way_from, way_to,
};
pub use place_lists::PlaceList;
