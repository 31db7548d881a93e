//! The laws of embedded routers: the calls of their hosts are a run of running nodes, so the laws of worlds hold for
//! every program that embeds routers.
mod laws;

pub use laws::{
    router_cores_follow, router_entries_at_rest_are_heights, router_routes_at_rest_arrive,
    router_walks_arrive, routers_are_a_world, routers_keep_the_no_gap_law,
    routers_keep_the_prefix_law, routers_refuse_only_unknown_needs, worked_routers_hold,
};
