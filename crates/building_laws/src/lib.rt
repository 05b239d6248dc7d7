//! Laws that hold of every building: what capacities, closures, lost exits, wider doors, shorter periods and other numbers of people can and can't
//! change.
//!
//! They are statements on definitions alone, and know of no solver. Each is the contract of a function with nothing to do.
//! They speak of plans that are best at a moment within the horizon, whether or not everybody can get out.
#![tactic(auto)]

mod laws;

pub use laws::{
    best_at_every_moment, best_waits_at_home, common_window_delays_by_its_length,
    doors_are_substitutes, equal_is_tight, fewer_are_no_later, finer_clears_within,
    finer_periods_agree, full_in_every_best_plan, greedy_exits_are_good, loosening_keeps_plans,
    looser_keeps_plans, more_are_no_sooner, most_is_reached, no_windows_are_steady,
    nobody_later_has_room, one_arc_delays_little, pace_never_falls, room_edits_keep_most,
    rooms_keep_most, rounded_clear_within, rounded_rates_bracket, rounded_travels_bracket,
    several_exits_cost_most, shares_agree, shifted_change_little, slower_is_no_better,
    stated_cuts_are_filled, two_exits_cost_most, ways_keep_pace, widening_is_bounded,
    window_delays_by_its_length,
};
