//! Locality: a history of the calls of many objects has a linearization exactly when the calls of
//! each object have one.
#![tactic(auto)]

mod laws;

pub use laws::{
    a_part_is_a_history, a_prefix_is_linearizable, answers_become_responses,
    databases_go_by_numbers, histories_have_calls, linearizable_by_orders, lists_go_by_numbers,
    locality, numbers_are_names, one_object, order_has_points, order_on_has_points,
    parts_are_linearized, parts_make_whole, placed_parts_make_whole, points_keep_the_order,
    responses_become_answers,
};
