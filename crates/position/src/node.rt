// The nodes of a block.
ghost use Rattle.std.specs.Prelude.{◌<◌, ◌≡◌, true};
ghost use Rattle.position.specs.Keys.{inside};
ghost use Rattle.position.specs.Nodes.{axis_coordinate, node_coordinates_of, told_node_coordinates};

use crate::key::{Coordinates, are_inside};

#[derive(Clone, Copy, Debug, PartialEq, Eq, Hash)]
pub enum NodeCoordinatesError {
    OutOfRange,
    NoSuchNode,
}

// Works out a node's coordinate on one axis: the block's first node, and the step from it.
#[tactic(auto, using(std::proofs::lemmas::Int::ints), unfolding(crate::specs::Nodes::axis_coordinate, crate::specs::Keys::between))]
fn axis_coordinate(c: i32, step: usize) -> i32
    requires { (inside c ≡ true) × (step < 16) }
    ensures { result ≡ axis_coordinate c step }
{
    c * 16 + step as i32
}

// Tells where the node at an index of a block stands.
#[tactic(auto, unfolding(crate::specs::Nodes::node_coordinates_of))]
pub fn node_coordinates(
    block: Coordinates,
    index: usize,
) -> Result<Coordinates, NodeCoordinatesError>
    ensures { told_node_coordinates result ≡ node_coordinates_of block index }
{
    if !are_inside(block.x, block.y, block.z) {
        return Err(NodeCoordinatesError::OutOfRange);
    }
    if 4095 < index {
        return Err(NodeCoordinatesError::NoSuchNode);
    }
    Ok(Coordinates {
        x: axis_coordinate(block.x, index % 16),
        y: axis_coordinate(block.y, index / 16 % 16),
        z: axis_coordinate(block.z, index / 256),
    })
}
