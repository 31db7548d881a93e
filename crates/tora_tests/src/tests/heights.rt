//! The example in the documentation of `tora_height`, and the texts of its errors.
use super::made::height;
use super::sees::{prints_each, same, sees};
use std::test::*;
use tora_height::*;

#[test]
fn example_of_the_documentation(rt: HostRuntime) -> Result<(), Fail> {
    let own = height(&rt, 0, 0, 0, 2, 2);
    let neighbour = height(&rt, 0, 0, 0, 1, 3);
    sees(&rt, neighbour < own, "the neighbour is lower");
    let way = status(Some(own), Some(neighbour));
    same(&rt, &way, &Direction::Down, "the direction");
    same(&rt, &own.level(), &neighbour.level(), "the level");
    Ok(())
}

#[test]
fn errors_are_printed_with_their_cause(rt: HostRuntime) -> Result<(), Fail> {
    let rows = [
        (HeightError::Tau, "tau is above 2^62"),
        (HeightError::Delta, "delta is not within -2^30 to 2^30"),
        (
            HeightError::Level,
            "the parts are no reference level, or delta is negative at level (0,0,0)",
        ),
        (HeightError::Id, "id is 0"),
    ];
    prints_each(&rt, rt.alloc(), &rows);
    Ok(())
}
