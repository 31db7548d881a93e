//! The laws of running nodes and of embedded routers: the actions of a node's threads, and the calls of a router's
//! host, are a run of the free world, so the laws of worlds hold for them.
#![tactic(auto)]

mod laws;
mod routers;

pub use laws::{
    histories_are_of_the_threads, nodes_have_histories, running_cores_follow,
    running_cores_refuse_only_needs, running_entries_at_rest_are_heights,
    running_nodes_are_a_world, running_nodes_keep_the_no_gap_law,
    running_nodes_keep_the_prefix_law, running_routes_at_rest_arrive, running_walks_arrive,
    runs_are_orders_of_histories, worked_networks_hold,
};
pub use routers::{
    router_cores_follow, router_entries_at_rest_are_heights, router_routes_at_rest_arrive,
    router_walks_arrive, routers_are_a_world, routers_keep_the_no_gap_law,
    routers_keep_the_prefix_law, routers_refuse_only_unknown_needs, worked_routers_hold,
};
