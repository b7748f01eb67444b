// The laws of runs.

use run_laws::{
    bounded_spending_bounds_turns, each_run_follows_itself, follower_gives_same_answer,
    follower_never_goes_wrong, follows_is_transitive, later_steps_go_on_from_earlier_ones,
    meter_changes_nothing_else, output_only_grows, reduction_and_machine_follow_each_other,
    what_has_ended_stays, what_never_runs_out_is_followed_back,
};

// Each law can be called: it asks nothing of its caller.
#[test]
fn each_law_can_be_called() {
    each_run_follows_itself::<u8, u8>();
    follows_is_transitive::<u8, u16, u32, u8>();
    follower_never_goes_wrong::<u8, u16, u8>();
    follower_gives_same_answer::<u8, u16, u8>();
    what_never_runs_out_is_followed_back::<u8, u16, u8>();
    what_has_ended_stays::<u8, u16, u8>();
    output_only_grows::<u8, u16, u8>();
    later_steps_go_on_from_earlier_ones::<u8, u16, u8>();
    reduction_and_machine_follow_each_other::<u8, u16, u8>();
    meter_changes_nothing_else::<u8, u16, u8>();
    bounded_spending_bounds_turns::<u8, u16, u32, u8>();
}
