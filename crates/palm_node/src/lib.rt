//! The nodes of the table's tree: leaves and inner nodes of fixed room, which take no memory of their own, how a
//! list is cut among them, and what a pass over the tree says of a node.
#![tactic(auto)]

mod change;
mod cut;
mod id;
mod inner;
mod leaf;
mod node;
mod path;
mod piece_list;
#[cfg(test)]
mod tests;

pub use change::{Change, ChangeList, Changes, Removed, RemovedList};
pub use cut::{piece_size, pieces};
pub use id::{NodeId, Piece};
pub use inner::Inner;
pub use leaf::Leaf;
pub use node::Node;
pub use path::{MOST_PATH, Path};
pub use piece_list::PieceList;
