// The list of the nodes that stand for an old one. Nearly each of these lists has one piece, so that the first
// `INLINE` stand in the list itself, and only more of them take memory.
ghost use Rattle.std.specs.Prelude.{◌≡◌, ◌<◌, ◌++◌, ◌∷◌, [], length, ◌==◌, slice_get, Some};
ghost use Rattle.std.specs.Prelude.{OnOk, OnErr, IfOk};

use crate::id::Piece;
use palm_base::NoMemory;
use smallvec::SmallVec;
use std::alloc::Global;
use std::marker::Model;

// How many pieces stand in the list itself. A leaf or a node that overflows by little is cut in two.
const INLINE: usize = 2;

/// The nodes that stand for an old one, in order. Contracts see the list. Up to two of them take no memory.
#[derive(Debug, Drop)]
pub struct PieceList {
    pieces: SmallVec<Piece, INLINE>,
}

impl Model for PieceList {
    ghost use Rattle.std.specs.Prelude.{List};
    ghost use Rattle.palm_node.specs.declared.id.Piece.{Piece};

    ghost Value = { List Piece };

    ghost view = { λ a. a.pieces.items };
}

impl PieceList {
    /// No pieces. It takes no memory.
    pub fn new(alloc: Global) -> PieceList
        ensures { result ≡ [] }
    {
        PieceList {
            pieces: SmallVec::new(alloc),
        }
    }

    /// The pieces of a vector, in their order. They stay in the memory that they stand in where that has room for
    /// more than two.
    pub fn from_vec(pieces: Vec<Piece>) -> PieceList
        ensures { result ≡ pieces.items }
    {
        PieceList {
            pieces: SmallVec::from_vec(pieces),
        }
    }

    /// The number of pieces.
    pub fn len(&self) -> usize
        ensures { result ≡ length self.now }
    {
        self.pieces.len()
    }

    /// Whether there is no piece.
    pub fn is_empty(&self) -> bool
        ensures { result ≡ (length self.now == 0) }
    {
        self.pieces.is_empty()
    }

    /// The pieces as a slice.
    pub fn as_slice(&self) -> &[Piece]
        ensures { result.now ≡ self.now }
    {
        self.pieces.as_slice()
    }

    /// The piece at a place, counted from 0.
    pub fn get(&self, i: usize) -> Piece
        requires { i < length self.now }
        ensures { slice_get self.now i ≡ Some result }
    {
        self.as_slice()[i]
    }

    /// Adds a piece at the end. It takes memory for a third piece, and for more as they double. Where memory is
    /// refused the list is unchanged.
    pub fn push(&mut self, piece: Piece) -> Result<(), NoMemory>
        ensures ok { OnOk result (self.new ≡ self.old ++ piece ∷ []) }
        ensures err { OnErr result (self.new ≡ self.old) }
    {
        self.pieces.push(piece)?;
        Ok(())
    }

    /// A second list of the same pieces. `NoMemory` where room for more than two was refused.
    pub fn try_copy(&self) -> Result<PieceList, NoMemory>
        ensures { IfOk result (λ copy. copy ≡ self.now) }
    {
        let alloc = *self.pieces.allocator();
        Ok(PieceList {
            pieces: SmallVec::from_slice(alloc, self.as_slice())?,
        })
    }
}
