//! One turn of the ant world, over any ground.
//!
//! The task's phenomenology, martial arts and kinetics: which cells meet a condition, which ants are surrounded and
//! killed, and what the ant of an id does in its turn. `take_turn` turns any `Ground`'s world into the one that the
//! definition of a turn gives. `after_turns` and `after_rounds` of the definitions are such turns one after another, as
//! a game plays them. The laws state in the task's own words what turns do: food is kept except for corpses; the killed
//! ants are gone, and no others; a turn changes only what is near. Three numbers of the rules can be set, which is this
//! project's own, by a `Sheet` that is passed with the brains: how many foes surround an ant, how much food a killed
//! ant leaves, and how long an ant rests. `Sheet::contest` has the task's numbers; every law holds for every sheet. No
//! call takes memory or fails. This crate depends on `brain_read`, `cell_world` and `ant_random`.
#![tactic(auto)]

mod brains;
mod conditions;
mod hill_laws;
mod in_place;
mod kill_log;
mod kills;
mod own_cell;
mod renumber_laws;
mod sheet;
mod turn;
mod turn_laws;

pub use brains::Brains;
pub use conditions::matches;
pub use hill_laws::{games_keep_hills, rounds_keep_hills, turns_keep_hills};
pub use in_place::{InPlace, turn_in_place};
pub use kill_log::KillLog;
pub use kills::{check_around, surrounded};
pub use own_cell::is_blocked;
pub use renumber_laws::{rounds_renumber, turns_renumber};
pub use sheet::Sheet;
pub use turn::{Deed, act, take_turn, take_turn_noting_kills};
pub use turn_laws::{
    idle_turns, openings_fit, rounds_keep, rounds_keep_food, turns_are_near, turns_draw,
    turns_follow, turns_keep, turns_keep_ants, turns_keep_food, turns_keep_weight,
    turns_kill_alone,
};
